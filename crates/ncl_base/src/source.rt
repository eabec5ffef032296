//! Where files come from.
ghost use Rattle.std.specs.Prelude.{◌≡◌, ℕ, ◌+◌, ◌<◌, ◌≤◌, Bool, List, [], length, take, drop, Option, Some, OnOk, OnErr, IfOk, IfSome, IsTrue, IsErrOf};
ghost use Rattle.ncl_base.specs.Files.{Files, bytes_of, raised, Rose, Took};

use std::alloc::Global;
use std::cmp;
use thiserror::Error;

/// A call of a source or a sink that failed.
#[derive(Clone, Copy, Debug, PartialEq, Eq, Error)]
#[error("a call failed")]
pub struct Failed;

/// Why `load` gave no bytes.
#[derive(Clone, Copy, Debug, PartialEq, Eq, Error)]
pub enum LoadFault {
    /// The source failed.
    #[error("the file can't be read")]
    Read,
    /// The file has more than `MOST_BYTES` bytes.
    #[error("the file has more than 16,777,216 bytes")]
    TooLong,
    /// Memory was refused.
    #[error("out of memory")]
    Memory,
}

/// Files that are read by name, one after another.
pub trait Source {
    /// The files, where they are told.
    ghost files: { Self → Option Files };

    /// The rest of the file that was begun, where it is told.
    ghost left: { Self → Option (List ℕ) };

    /// How many calls have failed.
    ghost faults: { Self → ℕ };

    /// How many bytes the reads have given so far.
    ghost given: { Self → ℕ };

    /// How many times a file was to be begun so far.
    ghost opens: { Self → ℕ };

    /// The names that may be begun.
    ghost allowed: { Self → List ℕ → Bool };

    /// Whether a file is begun, so that it may be read.
    ghost begun: { Self → Bool };

    /// Begins the file of a name, so that its bytes are what is left.
    fn begin(&mut self, name: &str) -> Result<(), Failed>
        requires { IsTrue (allowed self.old name.now) }
        ensures ok { OnOk result (IfSome (files self.old) (λ fs. left self.new ≡ Some (bytes_of fs name.now))) }
        ensures rose { OnErr result (Rose (faults self.old) (faults self.new)) }
        ensures none_left { OnErr result (IfSome (left self.new) (λ l. l ≡ [])) }
        ensures begun { OnOk result (IsTrue (begun self.new)) }
        ensures given { given self.new ≡ given self.old }
        ensures opens { opens self.new ≡ raised (opens self.old) 1 }
        ensures files { files self.new ≡ files self.old }
        ensures faults { faults self.old ≤ faults self.new }
        ensures allowed { allowed self.new ≡ allowed self.old };

    /// Takes bytes from what is left into the front of a buffer, and says how many. None is the end.
    fn read(&mut self, buf: &mut [u8]) -> Result<usize, Failed>
        requires room { 0 < length buf.old }
        requires begun { IsTrue (begun self.old) }
        ensures within { IfOk result (λ n. n ≤ length buf.new) }
        ensures took { IfOk result (λ n. Took (left self.old) (take n buf.new) (left self.new)) }
        ensures rose { OnErr result (Rose (faults self.old) (faults self.new)) }
        ensures given { IfOk result (λ n. given self.new ≡ raised (given self.old) n) }
        ensures kept { OnErr result (left self.new ≡ left self.old) }
        ensures given_kept { OnErr result (given self.new ≡ given self.old) }
        ensures opens { opens self.new ≡ opens self.old }
        ensures begun { begun self.new ≡ begun self.old }
        ensures files { files self.new ≡ files self.old }
        ensures faults { faults self.old ≤ faults self.new }
        ensures allowed { allowed self.new ≡ allowed self.old };
}

/// The most bytes of a file.
pub const MOST_BYTES: usize = 16_777_216;

/// The most bytes that are asked for in one read.
const PIECE: usize = 4096;

/// The bytes of a file, which are at most `MOST_BYTES`.
///
/// Begins the file once and reads until its end, or until one byte more than that, and asks for at
/// most 4,096 bytes at a time. Whatever it answers, it takes no more than that one byte too many.
/// Linear in the bytes. It answers `Read` where the source failed, `TooLong` where there was one byte
/// more, and `Memory` where memory was refused.
pub fn load<S: Source>(alloc: Global, source: &mut S, name: &str) -> Result<Vec<u8>, LoadFault>
    requires { IsTrue (S.allowed source.old name.now) }
    ensures short { IfOk result (λ bytes. length bytes.items ≤ MOST_BYTES) }
    ensures told { IfOk result (λ bytes. IfSome (S.files source.old) (λ fs. bytes.items ≡ bytes_of fs name.now)) }
    ensures whole { OnOk result (IfSome (S.files source.old) (λ fs. S.left source.new ≡ Some [])) }
    ensures read { IsErrOf result LoadFault.Read → Rose (S.faults source.old) (S.faults source.new) }
    ensures long { IsErrOf result LoadFault.TooLong
        → IfSome (S.files source.old) (λ fs. MOST_BYTES < length (bytes_of fs name.now)) }
    ensures bounded { IsErrOf result LoadFault.TooLong
        → IfSome (S.files source.old) (λ fs. S.left source.new ≡ Some (drop (MOST_BYTES + 1) (bytes_of fs name.now))) }
    ensures given { IfOk result (λ bytes. S.given source.new ≡ raised (S.given source.old) (length bytes.items)) }
    ensures given_long { IsErrOf result LoadFault.TooLong
        → S.given source.new ≡ raised (S.given source.old) (MOST_BYTES + 1) }
    ensures few { S.given source.new ≤ S.given source.old + (MOST_BYTES + 1) }
    ensures fewer { IsErrOf result LoadFault.Read → S.given source.new ≤ S.given source.old + MOST_BYTES }
    ensures once { S.opens source.new ≡ raised (S.opens source.old) 1 }
    ensures files { S.files source.new ≡ S.files source.old }
    ensures faults { S.faults source.old ≤ S.faults source.new }
    ensures allowed { S.allowed source.new ≡ S.allowed source.old }
{
    match source.begin(name) {
        Ok(()) => {}
        Err(_) => return Err(LoadFault::Read),
    }
    let mut bytes: Vec<u8> = Vec::new(alloc);
    let mut buffer = [0u8; PIECE];
    while bytes.len() <= MOST_BYTES {
        let room = cmp::min(MOST_BYTES + 1 - bytes.len(), PIECE);
        match source.read(&mut buffer[..room]) {
            Ok(0) => return Ok(bytes),
            Ok(n) => match bytes.extend_from_slice(&buffer[..n]) {
                Ok(()) => {}
                Err(_) => return Err(LoadFault::Memory),
            },
            Err(_) => return Err(LoadFault::Read),
        }
    }
    Err(LoadFault::TooLong)
}
