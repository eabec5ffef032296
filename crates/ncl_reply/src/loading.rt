//! Files, as a command loads them.
ghost use Rattle.std.specs.Prelude.{◌≡◌, ◌≢◌, ◌+◌, ◌≤◌, IfOk, IfErr, IsErrOf, IsTrue, length};
ghost use Rattle.ncl_base.specs.Files.{Rose};
ghost use Rattle.ncl_base.specs.declared.source.TheConstants.{MOST_BYTES};
ghost use Rattle.ncl_reply.specs.Given.{IsGiven, IsTooLong};
ghost use Rattle.ncl_reply.specs.Replies.{Refuses};

use crate::fault::Fault;
use ncl_base::{LoadFault, Source, load};
use std::alloc::Global;

/// The bytes of a file, which is refused with the line `long` where it has more than are read. Costs a pass over them.
pub fn load_file<S: Source>(
    alloc: Global,
    source: &mut S,
    file: &str,
    long: &[u8],
) -> Result<Vec<u8>, Fault>
    requires { IsTrue (S.allowed source.old file.now) }
    ensures bytes { IfOk result (λ bytes. IsGiven (S.files source.old) file.now bytes.items) }
    ensures few { IfOk result (λ bytes. length bytes.items ≤ MOST_BYTES) }
    ensures refused { IfErr result (Refuses (λ line. (line ≡ long.now) × IsTooLong (S.files source.old) file.now)) }
    ensures read { IsErrOf result Fault.Read → Rose (S.faults source.old) (S.faults source.new) }
    ensures files { S.files source.new ≡ S.files source.old }
    ensures allowed { S.allowed source.new ≡ S.allowed source.old }
    ensures faults { S.faults source.old ≤ S.faults source.new }
    ensures opens { S.opens source.new ≤ S.opens source.old + 1 }
    ensures given { S.given source.new ≤ S.given source.old + (MOST_BYTES + 1) }
{
    match load(alloc, source, file) {
        Ok(bytes) => Ok(bytes),
        Err(LoadFault::TooLong) => Err(too_long(alloc, long)),
        Err(LoadFault::Read) => Err(Fault::Read),
        Err(LoadFault::Memory) => Err(Fault::Memory),
    }
}

/// The fault of a file that has more bytes than are read, of which this line tells.
fn too_long(alloc: Global, line: &[u8]) -> Fault
    ensures told { Refuses (λ told. told ≡ line.now) result }
    ensures other { result ≢ Fault.Read }
{
    match Vec::from_slice(alloc, line) {
        Ok(line) => Fault::Refused(line),
        Err(_) => Fault::Memory,
    }
}
