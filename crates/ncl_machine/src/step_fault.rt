//! Why a step isn't made.
use thiserror::Error;

/// Why a step isn't made. The state is then as it was.
#[derive(Clone, Copy, Debug, PartialEq, Eq, Error)]
pub enum StepFault {
    /// The item isn't enabled.
    #[error("not enabled")]
    NotEnabled,
    /// Memory was refused.
    #[error("out of memory")]
    Memory,
}
