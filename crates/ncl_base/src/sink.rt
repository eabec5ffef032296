//! Where bytes go.
ghost use Rattle.std.specs.Prelude.{◌≡◌, ℕ, ◌<◌, ◌≤◌, List, length, take, Option, OnOk, OnErr, IfOk};
ghost use Rattle.ncl_base.specs.Files.{Rose, Grew, GrewWithin};

use crate::source::Failed;
use thiserror::Error;

/// Why `deliver` did not write all bytes.
#[derive(Clone, Copy, Debug, PartialEq, Eq, Error)]
pub enum SinkFault {
    /// The sink failed.
    #[error("the bytes can't be written")]
    Write,
}

/// What takes bytes, one after another.
pub trait Sink {
    /// What was written, where it is told.
    ghost written: { Self → Option (List ℕ) };

    /// How many calls have failed.
    ghost faults: { Self → ℕ };

    /// Appends a first part of a piece, at least one byte of it, and says how many bytes.
    fn write(&mut self, piece: &[u8]) -> Result<usize, Failed>
        requires { 0 < length piece.now }
        ensures some { IfOk result (λ n. 0 < n) }
        ensures within { IfOk result (λ n. n ≤ length piece.now) }
        ensures grew { IfOk result (λ n. Grew (written self.old) (take n piece.now) (written self.new)) }
        ensures rose { OnErr result (Rose (faults self.old) (faults self.new)) }
        ensures kept { OnErr result (written self.new ≡ written self.old) }
        ensures faults { faults self.old ≤ faults self.new };
}

/// Writes all bytes, or a first part of them where the sink fails.
///
/// Takes no memory. Linear in the bytes, since each write takes at least one. It answers `Write`
/// where the sink failed, which then holds a first part of the bytes.
pub fn deliver<K: Sink>(sink: &mut K, bytes: &[u8]) -> Result<(), SinkFault>
    ensures ok { OnOk result (Grew (K.written sink.old) bytes.now (K.written sink.new)) }
    ensures rose { OnErr result (Rose (K.faults sink.old) (K.faults sink.new)) }
    ensures part { OnErr result (GrewWithin (K.written sink.old) bytes.now (K.written sink.new)) }
    ensures faults { K.faults sink.old ≤ K.faults sink.new }
{
    let mut done = 0;
    while done < bytes.len() {
        match sink.write(&bytes[done..]) {
            Ok(n) => done += n,
            Err(_) => return Err(SinkFault::Write),
        }
    }
    Ok(())
}
