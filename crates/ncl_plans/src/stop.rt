//! Why a network is not improved.
ghost use Rattle.std.specs.Prelude.{⊤};

use ncl_base::Memory;
use std::alloc::{AllocError, AllocFailed};
use thiserror::Error;

/// Why a network is not improved.
#[derive(Clone, Copy, Debug, PartialEq, Eq, Error)]
pub enum Stop {
    /// Memory was refused.
    #[error("out of memory")]
    Memory,
    /// A plan doesn't compute its node, or there would be too many nodes.
    #[error("given up")]
    GivenUp,
}

impl From<AllocError> for Stop {
    ghost from_gives = { λ _ _. ⊤ };

    fn from(error: AllocError) -> Self {
        let _ = error;
        Stop::Memory
    }
}

impl From<Memory> for Stop {
    ghost from_gives = { λ _ _. ⊤ };

    fn from(error: Memory) -> Self {
        let _ = error;
        Stop::Memory
    }
}

impl<T: Drop> From<AllocFailed<T>> for Stop {
    ghost from_gives = { λ _ _. ⊤ };

    fn from(error: AllocFailed<T>) -> Self {
        let _ = error;
        Stop::Memory
    }
}
