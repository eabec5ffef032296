//! Why models are not compiled.
use thiserror::Error;

/// Why models are not compiled.
#[derive(Clone, Copy, Debug, PartialEq, Eq, Error)]
pub enum CompileFault {
    /// The model of this number, from 1, has more than 128 inputs or more than 128 outputs.
    #[error("model {0} has more than 128 inputs or outputs")]
    TooWide(u32),
    /// There are more than 255 models.
    #[error("more than 255 models")]
    TooLong,
    /// There would be too many cells.
    #[error("too many cells")]
    TooMany,
    /// Memory was refused.
    #[error("out of memory")]
    Memory,
}
