//! For which of its inputs a node waits, word by word.
ghost use Rattle.std.specs.Prelude.{◌≡◌, ◌<◌, ◌≤◌, List, Bool, true, false, if◌then◌else◌};
ghost use Rattle.std.specs.List.{slice_index_or};
ghost use Rattle.ncl_template.specs.Waits.{mask_of, word_number, waits_at, waits_once};

/// At which words the gates of a node wait for each of its inputs, by their places: where this input is NULL, no rail of
/// the node rises. Bit w of a mask is for the word w, and bit k of w is input k. At other words the node is eager: a rail
/// may rise before the input comes. A choice waits always for what selects, and for each of the others where it is taken.
#[derive(Clone, Copy, Debug, PartialEq, Eq, Hash)]
pub struct Waits {
    /// The words at which it waits for the first input.
    pub first: u16,
    /// The words at which it waits for the second input.
    pub second: u16,
    /// The words at which it waits for the third input.
    pub third: u16,
    /// The words at which it waits for the fourth input.
    pub fourth: u16,
}

/// A number where the bit at a place is 1, and else 0.
fn if_one(word: &[bool], place: usize, number: u32) -> u32
    ensures is { result ≡ (if slice_index_or word.now place false then number else 0) }
    ensures most { result ≤ number }
{
    match word.get(place) {
        Some(bit) => if *bit { number } else { 0 },
        None => 0,
    }
}

/// The number of a word of at most four bits.
fn word_number(word: &[bool]) -> u32
    ensures is { result ≡ word_number word.now }
    ensures few { result < 16 }
{
    let first = if_one(word, 0, 1);
    let second = if_one(word, 1, 2);
    let third = if_one(word, 2, 4);
    let fourth = if_one(word, 3, 8);
    first + second + third + fourth
}

impl Waits {
    /// For all inputs.
    pub const ALL: Waits = Waits {
        first: u16::MAX,
        second: u16::MAX,
        third: u16::MAX,
        fourth: u16::MAX,
    };

    /// For none.
    pub const NONE: Waits = Waits {
        first: 0,
        second: 0,
        third: 0,
        fourth: 0,
    };

    /// The words at which it waits for the input at a place, the fourth for all places from 3 on.
    pub fn mask(self, place: usize) -> u16
        ensures { result ≡ mask_of self place }
    {
        match place {
            0 => self.first,
            1 => self.second,
            2 => self.third,
            _ => self.fourth,
        }
    }

    /// Whether it waits for the input at a place at a word of the inputs.
    pub fn at(self, word: &[bool], place: usize) -> bool
        ensures { result ≡ waits_at self word.now place }
    {
        (self.mask(place) >> word_number(word)) & 1 == 1
    }

    /// Whether it waits for the input at a place at any word.
    pub fn once(self, place: usize) -> bool
        ensures { result ≡ waits_once self place }
    {
        self.mask(place) != 0
    }

    /// Whether it waits for the input at a place at every word.
    pub fn always(self, place: usize) -> bool
        ensures { result ≡ true → (word : List Bool) → waits_at self word place ≡ true }
    {
        self.mask(place) == u16::MAX
    }

    /// The same, and for the input at a place at these words, the fourth for all places from 3 on.
    pub fn with(self, place: usize, mask: u16) -> Waits {
        let mut waits = self;
        match place {
            0 => waits.first = mask,
            1 => waits.second = mask,
            2 => waits.third = mask,
            _ => waits.fourth = mask,
        }
        waits
    }
}
