//! Why parts are no netlist.
use ncl_base::{Memory, Name};
use thiserror::Error;

/// Why parts are no netlist.
#[derive(Debug, Drop, Error)]
pub enum BuildFault {
    /// There are more than 131,072 cells.
    #[error("too many cells")]
    TooMany,
    /// A cell has the name of an earlier cell: the name of the first such cell.
    #[error("two cells have one name")]
    SameName(Name),
    /// A net has two or more drivers: the name of the first such net.
    #[error("a net has two drivers")]
    TwoDrivers(Name),
    /// A net has no driver: the name of the first such net.
    #[error("a net has no driver")]
    NoDriver(Name),
    /// Memory was refused.
    #[error("out of memory")]
    Memory,
}

impl From<Memory> for BuildFault {
    ghost use Rattle.std.specs.Prelude.{◌≡◌};
    ghost use Rattle.ncl_netlist.specs.declared.build_fault.BuildFault.TheVariants.{Memory as OutOfMemory};

    ghost from_gives = { λ _ fault. fault ≡ OutOfMemory };

    fn from(_memory: Memory) -> BuildFault {
        BuildFault::Memory
    }
}
