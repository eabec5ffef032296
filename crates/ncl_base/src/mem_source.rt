//! A source in memory that gives small pieces and fails at chosen calls.
ghost use Rattle.std.specs.Prelude.{◌≡◌, ◌<◌, ◌≤◌, ◌↔◌, ◌++◌, ◌||◌, [], length, take, drop, min, not, Some, true, IsTrue, IsErr, IfOk, OnOk, OnErr};
ghost use Rattle.ncl_base.specs.Files.{bytes_of, raised};
ghost use Rattle.ncl_base.specs.Held.{files_of, has_file, next_count, next_fails};

use crate::calls::Calls;
use crate::mem_file::MemFile;
use crate::source::{Failed, Source};
use crate::steady_source::SteadySource;
use std::marker::Model;

/// Held files that are read in small pieces, and calls that fail where they are told to.
///
/// One count, from 1, goes through the calls of `begin` and of `read`. A name that no file has is a fault, and
/// of two files with one name the first counts.
#[derive(Drop)]
pub struct MemSource {
    held: SteadySource,
    piece: usize,
    calls: Calls,
}

impl Model for MemSource {
    ghost use Rattle.std.specs.Prelude.{◌<◌};
    ghost use Rattle.ncl_base.specs.Held.{MemSourceData};

    ghost Value = { MemSourceData };

    ghost view = { λ s. record {
      files = s.held.files;
      left = s.held.left;
      given = s.held.given;
      opens = s.held.opens;
      piece = s.piece;
      failing = s.calls.failing.items;
      calls = s.calls.made;
      faults = s.calls.faults;
    } };

    ghost invariant = { λ s. 0 < s.piece };
}

impl MemSource {
    /// A source of these files, of which a read gives at most `piece` bytes, and whose calls with the
    /// numbers in `failing` fail. No file is begun. Takes no memory.
    pub fn new(files: Vec<MemFile>, piece: usize, failing: Vec<u64>) -> MemSource
        requires { 0 < piece }
        ensures { result ≡ record {
          files = files_of files.items;
          left = [];
          given = 0;
          opens = 0;
          piece = piece;
          failing = failing.items;
          calls = 0;
          faults = 0;
        } }
    {
        MemSource {
            held: SteadySource::new(files),
            piece,
            calls: Calls::new(failing),
        }
    }
}

impl Source for MemSource {
    ghost files = { λ s. Some s.files };

    ghost left = { λ s. Some s.left };

    ghost faults = { λ s. s.faults };

    ghost given = { λ s. s.given };

    ghost opens = { λ s. s.opens };

    ghost allowed = { λ s name. true };

    ghost begun = { λ s. true };

    /// Begins the first file of the name, by one walk over the files.
    ///
    /// It fails exactly where the number of this call is one that fails, or no file has the name, and
    /// nothing is left then.
    #[tactic(auto, using(crate::proofs::Named::absent))]
    fn begin(&mut self, name: &str) -> Result<(), Failed>
        ensures fails { IsErr result
            ↔ IsTrue (next_fails self.old.failing self.old.calls || not (has_file self.old.files name.now)) }
        ensures begun { OnOk result (self.new ≡ record self.old {
          left = bytes_of self.old.files name.now;
          opens = next_count self.old.opens;
          calls = next_count self.old.calls;
        }) }
        ensures failed { OnErr result (self.new ≡ record self.old {
          left = [];
          opens = next_count self.old.opens;
          calls = next_count self.old.calls;
          faults = next_count self.old.faults;
        }) }
        ensures faults { self.old.faults ≤ self.new.faults }
    {
        if self.calls.count() {
            self.held.close();
            return Err(self.calls.fail());
        }
        if !self.held.find(name.as_bytes()) {
            return Err(self.calls.fail());
        }
        Ok(())
    }

    /// Takes as many bytes as the piece, the buffer and what is left allow, and keeps the rest of the
    /// buffer. Linear in these bytes and in the numbers that fail.
    ///
    /// It fails exactly where the number of this call is one that fails.
    fn read(&mut self, buf: &mut [u8]) -> Result<usize, Failed>
        requires { 0 < length buf.old }
        ensures fails { IsErr result ↔ IsTrue (next_fails self.old.failing self.old.calls) }
        ensures count { IfOk result (λ n. n ≡ min (min self.old.piece (length buf.old)) (length self.old.left)) }
        ensures buffer { IfOk result (λ n. buf.new ≡ take n self.old.left ++ drop n buf.old) }
        ensures taken { IfOk result (λ n. self.new ≡ record self.old {
          left = drop n self.old.left;
          given = raised self.old.given n;
          calls = next_count self.old.calls;
        }) }
        ensures failed { OnErr result (self.new ≡ record self.old {
          calls = next_count self.old.calls;
          faults = next_count self.old.faults;
        }) }
        ensures kept { OnErr result (buf.new ≡ buf.old) }
        ensures faults { self.old.faults ≤ self.new.faults }
        ensures end { IfOk result (λ n. n ≡ 0 → self.old.left ≡ []) }
    {
        if self.calls.count() {
            return Err(self.calls.fail());
        }
        Ok(self.held.take(buf, self.piece))
    }
}
