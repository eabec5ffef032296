//! Why a text is not read.
use ncl_base::Memory;
use std::alloc::{AllocError, AllocFailed};
use thiserror::Error;

/// Why a text is not read. Lines and models count from 1. A line that is continued goes by the line that it
/// begins in.
#[derive(Clone, Copy, Debug, PartialEq, Eq, Error)]
pub enum BlifFault {
    /// A line is of none of the forms, or stands where it may not. Line 0: no line has a field.
    #[error("syntax in line {0}")]
    Syntax(u32),
    /// A line begins with a field that is a command of BLIF, but none that is read.
    #[error("unsupported in line {0}")]
    Unsupported(u32),
    /// A row is not of the form that its cover wants.
    #[error("bad row in line {0}")]
    BadRow(u32),
    /// A row ends otherwise than the first row of its cover.
    #[error("mixed cover in line {0}")]
    MixedCover(u32),
    /// By this line a signal has two drivers.
    #[error("two drivers in line {0}")]
    TwoDrivers(u32),
    /// The line is the first that reads a signal without a driver.
    #[error("undriven in line {0}")]
    Undriven(u32),
    /// The line begins the first cover whose output depends on itself.
    #[error("cycle in line {0}")]
    Cycle(u32),
    /// A model has no input or no output.
    #[error("no bits in model {0}")]
    NoBits(u32),
    /// A model has not as many inputs as the model before has outputs.
    #[error("width of model {0}")]
    Width(u32),
    /// Memory was refused.
    #[error("out of memory")]
    Memory,
}

impl From<Memory> for BlifFault {
    ghost use Rattle.std.specs.Prelude.{◌≡◌};
    ghost use Rattle.ncl_blif.specs.declared.fault.BlifFault.TheVariants.{Memory as OutOfMemory};

    ghost from_gives = { λ _ fault. fault ≡ OutOfMemory };

    fn from(_memory: Memory) -> BlifFault {
        BlifFault::Memory
    }
}

impl From<AllocError> for BlifFault {
    ghost use Rattle.std.specs.Prelude.{◌≡◌};
    ghost use Rattle.ncl_blif.specs.declared.fault.BlifFault.TheVariants.{Memory as OutOfMemory};

    ghost from_gives = { λ _ fault. fault ≡ OutOfMemory };

    fn from(error: AllocError) -> BlifFault {
        let _ = error;
        BlifFault::Memory
    }
}

impl<T: Drop> From<AllocFailed<T>> for BlifFault {
    ghost use Rattle.std.specs.Prelude.{◌≡◌};
    ghost use Rattle.ncl_blif.specs.declared.fault.BlifFault.TheVariants.{Memory as OutOfMemory};

    ghost from_gives = { λ _ fault. fault ≡ OutOfMemory };

    fn from(error: AllocFailed<T>) -> BlifFault {
        let _ = error;
        BlifFault::Memory
    }
}
