//! Standard output.
ghost use Rattle.std.specs.Prelude.{◌≡◌, None};

use crate::tally::{Tally, write_to};
use ncl_base::{Failed, Sink};
use std::io;
use std::io::Print;

/// A sink that writes to standard output, of which nothing is told but how many calls have failed.
///
/// Each write is one call of the system. Nothing is buffered, so no failure is lost.
#[derive(Drop)]
pub struct StdoutSink<'a, P: Print> {
    rt: &'a P,
    tally: Tally,
}

impl<'a, P: Print> StdoutSink<'a, P> {
    /// A sink to which nothing was written.
    pub fn new(rt: &'a P) -> Self
        ensures counts { result.tally ≡ record { faults = 0; given = 0; opens = 0 } }
    {
        StdoutSink {
            rt,
            tally: Tally::new(),
        }
    }
}

impl<'a, P: Print> Sink for StdoutSink<'a, P> {
    ghost written = { λ sink. None };

    ghost faults = { λ sink. sink.tally.faults };

    fn write(&mut self, piece: &[u8]) -> Result<usize, Failed> {
        write_to(&mut self.tally, &mut io::writer(self.rt), piece)
    }
}
