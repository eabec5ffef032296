//! What single calls of the system come to.
ghost use Rattle.std.specs.Prelude.{◌≡◌, ◌<◌, ◌≤◌, length, Ok, Err, Some, None, IfOk, OnErr};
ghost use Rattle.std.specs.Io.KnownBytes.{ReadConsumes, WriteAppends};
ghost use Rattle.ncl_base.specs.Files.{raised};

use ncl_base::Failed;
use std::io;
use std::io::{Read, Write};

/// How many calls of the system have failed, how many bytes its reads have given, and how many files it was to open.
#[derive(Clone, Copy)]
pub(crate) struct Tally {
    /// The calls that failed, which count no further than 2^64 - 1.
    pub faults: u64,
    /// The bytes that were read, which count no further than that either.
    pub given: u64,
    /// The files that were to be opened, which count no further than that either.
    pub opens: u64,
}

impl Tally {
    /// No calls yet.
    pub(crate) fn new() -> Tally
        ensures { result ≡ record { faults = 0; given = 0; opens = 0 } }
    {
        Tally {
            faults: 0,
            given: 0,
            opens: 0,
        }
    }

    /// Counts a call that failed.
    pub(crate) fn fail(&mut self) -> Failed
        ensures counted { self.new ≡ record self.old { faults = raised self.old.faults 1 } }
        ensures faults { self.old.faults ≤ self.new.faults }
    {
        self.faults = self.faults.saturating_add(1);
        Failed
    }

    /// The file that the system opened, or `None` where it failed. Both are counted.
    pub(crate) fn after_open<F>(&mut self, opened: io::Result<F>) -> Option<F>
        ensures file { IfOk opened (λ file. (result ≡ Some file) × (self.new ≡ record self.old { opens = raised self.old.opens 1 })) }
        ensures failed { OnErr opened ((result ≡ None) × (self.new ≡ record self.old {
          faults = raised self.old.faults 1;
          opens = raised self.old.opens 1;
        })) }
        ensures faults { self.old.faults ≤ self.new.faults }
    {
        self.opens = self.opens.saturating_add(1);
        match opened {
            Ok(file) => Some(file),
            Err(_) => {
                self.fail();
                None
            }
        }
    }

    /// How many bytes the system's read gave, which is counted, or `Failed` where it failed.
    pub(crate) fn after_read(&mut self, read: io::Result<usize>) -> Result<usize, Failed>
        ensures gave { IfOk read (λ n. (result ≡ Ok n) × (self.new ≡ record self.old { given = raised self.old.given n })) }
        ensures failed { OnErr read ((result ≡ Err (record {})) × (self.new ≡ record self.old { faults = raised self.old.faults 1 })) }
        ensures faults { self.old.faults ≤ self.new.faults }
    {
        match read {
            Ok(n) => {
                self.given = self.given.saturating_add(n as u64);
                Ok(n)
            }
            Err(_) => Err(self.fail()),
        }
    }

    /// How many bytes the system's write took, or `Failed` where it failed or took none.
    pub(crate) fn after_write(&mut self, written: io::Result<usize>) -> Result<usize, Failed>
        ensures took { IfOk written (λ n. 0 < n → (result ≡ Ok n) × (self.new ≡ self.old)) }
        ensures none { IfOk written (λ n. n ≡ 0
            → (result ≡ Err (record {})) × (self.new ≡ record self.old { faults = raised self.old.faults 1 })) }
        ensures failed { OnErr written ((result ≡ Err (record {})) × (self.new ≡ record self.old { faults = raised self.old.faults 1 })) }
        ensures faults { self.old.faults ≤ self.new.faults }
    {
        match written {
            Ok(n) if n > 0 => Ok(n),
            _ => Err(self.fail()),
        }
    }
}

/// Reads by one call of a reader, and counts what came of it.
pub(crate) fn read_from<F: Read>(
    tally: &mut Tally,
    reader: &mut F,
    buf: &mut [u8],
) -> Result<usize, Failed>
    ensures within { IfOk result (λ n. n ≤ length buf.new) }
    ensures bytes { ReadConsumes (F.remaining reader.old) (F.remaining reader.new) result buf.new }
    ensures gave { IfOk result (λ n. tally.new ≡ record tally.old { given = raised tally.old.given n }) }
    ensures failed { OnErr result (tally.new ≡ record tally.old { faults = raised tally.old.faults 1 }) }
    ensures faults { tally.old.faults ≤ tally.new.faults }
{
    tally.after_read(reader.read(buf))
}

/// Writes by one call of a writer, and counts what came of it.
pub(crate) fn write_to<W: Write>(
    tally: &mut Tally,
    writer: &mut W,
    piece: &[u8],
) -> Result<usize, Failed>
    ensures some { IfOk result (λ n. 0 < n) }
    ensures within { IfOk result (λ n. n ≤ length piece.now) }
    ensures bytes { WriteAppends (W.contents writer.old) (W.contents writer.new) result piece.now }
    ensures took { IfOk result (λ n. tally.new ≡ tally.old) }
    ensures failed { OnErr result (tally.new ≡ record tally.old { faults = raised tally.old.faults 1 }) }
    ensures faults { tally.old.faults ≤ tally.new.faults }
{
    tally.after_write(writer.write(piece))
}
