//! The rules of single cells that a netlist breaks.
use ncl_base::Memory;
use ncl_netlist::{CellId, NetId};
use thiserror::Error;

/// The first rule of single cells that a netlist breaks, in the order in which the rules are tried.
#[derive(Clone, Copy, Debug, PartialEq, Eq, Error)]
pub enum CellFault {
    /// An input port that no pin reads.
    #[error("an input port is read by no pin")]
    UnusedPort(NetId),
    /// A gate cell on a cycle of gate cells.
    #[error("a gate cell lies on a cycle of gate cells")]
    Cycle(CellId),
    /// A register or acknowledge cell whose rails don't pair up to bits.
    #[error("a register or acknowledge cell is not one of a pair")]
    Unpaired(CellId),
    /// A cell whose inputs come from more than one place, or from a place that it may not read.
    #[error("the inputs of a cell mix origins")]
    Mixed(CellId),
    /// A cell of a completion tree that nothing reads.
    #[error("a cell of a completion tree is read by nothing")]
    Loose(CellId),
    /// Memory was refused.
    #[error("out of memory")]
    Memory,
}

impl From<Memory> for CellFault {
    ghost use Rattle.std.specs.Prelude.{◌≡◌};
    ghost use Rattle.ncl_cell_rules.specs.declared.fault.CellFault.TheVariants.{Memory as OutOfMemory};

    ghost from_gives = { λ _ fault. fault ≡ OutOfMemory };

    fn from(_memory: Memory) -> CellFault {
        CellFault::Memory
    }
}
