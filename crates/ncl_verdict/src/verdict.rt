//! Verdicts.
use ncl_base::Word;
use ncl_netlist::CellId;

/// What is said of a pipeline: that all its stages are sound, or the first fault with the least word
/// that shows it. Stages, outputs and bits count from 1.
#[derive(Clone, Debug, Drop)]
pub enum Verdict {
    /// Every stage is sound.
    Accepted,
    /// At the word both rails of the output are high.
    BothRails {
        stage: u32,
        output: u32,
        word: Word,
    },
    /// At the word no rail of the output is high.
    NoRail {
        stage: u32,
        output: u32,
        word: Word,
    },
    /// At the word all outputs are DATA though the bit is NULL.
    Incomplete {
        stage: u32,
        bit: u32,
        word: Word,
    },
    /// At the word the cell is high, and no output observes it.
    Orphan {
        stage: u32,
        cell: CellId,
        word: Word,
    },
    /// The stage has more nodes than the limit.
    Limit {
        stage: u32,
    },
}
