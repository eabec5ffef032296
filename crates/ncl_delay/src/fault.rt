//! Why a file of delays or of words is not read.
use ncl_base::Memory;
use thiserror::Error;

/// Why a file of delays is not read. Lines count from 1.
#[derive(Clone, Copy, Debug, PartialEq, Eq, Error)]
pub enum DelayFault {
    /// The line is of none of the forms.
    #[error("syntax in line {0}")]
    Syntax(u32),
    /// The line names a cell that the netlist doesn't have.
    #[error("unknown cell in line {0}")]
    UnknownCell(u32),
    /// Memory was refused.
    #[error("out of memory")]
    Memory,
}

impl From<Memory> for DelayFault {
    ghost use Rattle.std.specs.Prelude.{◌≡◌};
    ghost use Rattle.ncl_delay.specs.declared.fault.DelayFault.TheVariants.{Memory as OutOfMemory};

    ghost from_gives = { λ _ fault. fault ≡ OutOfMemory };

    fn from(_memory: Memory) -> DelayFault {
        DelayFault::Memory
    }
}

/// Why a file of words is not read. Lines count from 1.
#[derive(Clone, Copy, Debug, PartialEq, Eq, Error)]
pub enum WordsFault {
    /// The line has a byte other than `0` and `1`.
    #[error("syntax in line {0}")]
    Syntax(u32),
    /// The line's word has another width.
    #[error("width in line {0}")]
    Width(u32),
    /// As many words as may be offered stand before the line.
    #[error("too many words in line {0}")]
    TooMany(u32),
    /// Memory was refused.
    #[error("out of memory")]
    Memory,
}
