//! What is said of one output, of a run of outputs, and of a pipeline and models.
use ncl_base::Word;
use thiserror::Error;

/// What is said of one output.
#[derive(Clone, Debug, Drop)]
pub enum BitAnswer {
    /// The functions are the same.
    Same,
    /// The least word at which they differ.
    Differ(Word),
    /// Their tables have more beads than the limit.
    Full,
}

/// What is said of outputs that stand one after another. Outputs count from 1.
#[derive(Clone, Drop)]
pub(crate) enum RunAnswer {
    /// The functions are the same.
    Same,
    /// The least word at which some differ, and the first output that differs there.
    Differ { word: Word, output: u32 },
    /// The first output whose tables have more beads than the limit.
    Full(u32),
}

/// What is said of a pipeline and models.
#[derive(Clone, Debug, Drop)]
pub enum Compared {
    /// They have one function.
    Same,
    /// The least word at which their functions differ, and the first bit that differs there, from 1.
    Differ { word: Word, bit: u32 },
    /// Their words have not the same numbers of bits.
    Widths,
}

/// Why a pipeline and models aren't compared.
#[derive(Clone, Copy, Debug, PartialEq, Eq, Error)]
pub enum CompareFault {
    /// The first output whose tables have more beads than the limit, from 1.
    #[error("output {0} has too many nodes")]
    Full(u32),
    /// There was no memory.
    #[error("out of memory")]
    Memory,
}
