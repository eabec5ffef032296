//! Why a command has no reply of its own.
use ncl_base::Memory;
use ncl_check::Refusal;

/// Why a command has no reply of its own.
#[derive(Debug, Drop)]
pub enum Fault {
    /// A file is refused, and this line tells why.
    Refused(Vec<u8>),
    /// The source failed.
    Read,
    /// Memory was refused.
    Memory,
}

impl From<Memory> for Fault {
    ghost use Rattle.std.specs.Prelude.{◌≡◌};
    ghost use Rattle.ncl_reply.specs.declared.fault.Fault.TheVariants.{Memory as OutOfMemory};

    ghost from_gives = { λ _ fault. fault ≡ OutOfMemory };

    fn from(_memory: Memory) -> Fault {
        Fault::Memory
    }
}

impl From<Refusal> for Fault {
    ghost use Rattle.std.specs.Prelude.{◌≡◌};
    ghost use Rattle.ncl_reply.specs.Replies.{fault_of};

    ghost from_gives = { λ refusal fault. fault ≡ fault_of refusal };

    fn from(refusal: Refusal) -> Fault {
        match refusal {
            Refusal::Told(line) => Fault::Refused(line),
            Refusal::Memory => Fault::Memory,
        }
    }
}
