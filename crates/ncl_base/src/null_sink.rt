//! A sink that drops what it takes.
ghost use Rattle.std.specs.Prelude.{◌≡◌, length, None};

use crate::sink::Sink;
use crate::source::Failed;

/// Takes every byte and tells nothing of it. It never fails.
#[derive(Clone, Copy, Debug)]
pub struct NullSink;

impl NullSink {
    /// A sink that drops what it takes. Takes no memory.
    pub fn new() -> NullSink {
        NullSink
    }
}

impl Sink for NullSink {
    ghost written = { λ s. None };

    ghost faults = { λ s. 0 };

    fn write(&mut self, piece: &[u8]) -> Result<usize, Failed>
        ensures whole { result ≡ Ok (length piece.now) }
    {
        Ok(piece.len())
    }
}
