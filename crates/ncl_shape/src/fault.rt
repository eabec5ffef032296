//! Why a netlist has no shape.
use ncl_base::Memory;
use ncl_cell_rules::CellFault;
use thiserror::Error;

/// The first rule of shape that a netlist breaks, in the order in which the rules are tried.
#[derive(Clone, Copy, Debug, PartialEq, Eq, Error)]
pub enum ShapeFault {
    /// A rule of single cells, which come first.
    #[error("{0}")]
    CellRule(CellFault),
    /// The banks form no chain; the number of the inner rule, from 1 to 9.
    #[error("the banks form no chain, inner rule {0}")]
    NoChain(u8),
    /// A bank of more than 128 bits; its number in the chain, from 1.
    #[error("bank {0} has more than 128 bits")]
    TooWide(u32),
    /// More than 256 banks.
    #[error("there are more than 256 banks")]
    TooLong,
    /// Memory was refused.
    #[error("out of memory")]
    Memory,
}

impl From<Memory> for ShapeFault {
    ghost use Rattle.std.specs.Prelude.{◌≡◌};
    ghost use Rattle.ncl_shape.specs.declared.fault.ShapeFault.TheVariants.{Memory as OutOfMemory};

    ghost from_gives = { λ _ fault. fault ≡ OutOfMemory };

    fn from(_memory: Memory) -> ShapeFault {
        ShapeFault::Memory
    }
}

impl From<CellFault> for ShapeFault {
    ghost use Rattle.std.specs.Prelude.{◌≡◌};
    ghost use Rattle.ncl_shape.specs.Shape.{shape_fault_of};

    ghost from_gives = { λ given fault. fault ≡ shape_fault_of given };

    fn from(fault: CellFault) -> ShapeFault {
        match fault {
            CellFault::Memory => ShapeFault::Memory,
            fault => ShapeFault::CellRule(fault),
        }
    }
}
