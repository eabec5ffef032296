//! The numbers of a vector.
ghost use Rattle.std.specs.Prelude.{◌≡◌, ◌<◌, slice_index};
ghost use Rattle.std.specs.Bool.{Decides};
ghost use Rattle.ncl_reader.specs.Vectors.{Covers, width, numbers_of};

/// The first and the last number of a vector, which may fall or rise.
#[derive(Clone, Copy, PartialEq, Eq)]
pub(crate) struct Span {
    pub first: u16,
    pub last: u16,
}

impl Span {
    /// The number of bits, 1 to 65,536. Costs nothing.
    pub(crate) fn width(self) -> u32
        ensures { result ≡ width self }
    {
        let first = u32::from(self.first);
        let last = u32::from(self.last);
        if first <= last {
            last - first + 1
        } else {
            first - last + 1
        }
    }

    /// Whether a bit has the number. Costs nothing.
    pub(crate) fn covers(self, number: u16) -> bool
        ensures { Decides result (Covers self number) }
    {
        if self.first <= self.last {
            return self.first <= number && number <= self.last;
        }
        self.last <= number && number <= self.first
    }

    /// The number at a place, from the first to the last. Costs nothing.
    pub(crate) fn number(self, place: u32) -> u16
        requires { place < width self }
        ensures { result ≡ slice_index (numbers_of self) place }
    {
        if self.first <= self.last {
            return self.first + place as u16;
        }
        self.first - place as u16
    }
}
