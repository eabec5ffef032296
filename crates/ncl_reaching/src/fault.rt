//! Faults of a stage, and what is found of it.
use ncl_base::Word;

/// A fault of a stage. Outputs, bits and gates count from 0; a gate is a place in the stage's cells.
#[derive(Clone, Copy, Debug)]
pub(crate) enum Fault {
    BothRails(usize),
    NoRail(usize),
    Incomplete(usize),
    Orphan(usize),
}

/// A fault, and an input that brings a word which shows it.
#[derive(Drop)]
pub(crate) struct Found {
    pub(crate) fault: Fault,
    pub(crate) input: Word,
}
