//! Want of memory.
ghost use Rattle.std.specs.Prelude.{⊤};

use std::alloc::{AllocError, AllocFailed};
use thiserror::Error;

/// Memory was refused. It is the one answer that no contract ties to a cause.
#[derive(Clone, Copy, Debug, PartialEq, Eq, Error)]
#[error("out of memory")]
pub struct Memory;

impl From<AllocError> for Memory {
    ghost from_gives = { λ _ _. ⊤ };

    fn from(error: AllocError) -> Self {
        let _ = error;
        Memory
    }
}

impl<T: Drop> From<AllocFailed<T>> for Memory {
    ghost from_gives = { λ _ _. ⊤ };

    fn from(error: AllocFailed<T>) -> Self {
        let _ = error;
        Memory
    }
}
