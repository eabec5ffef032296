//! Faults of an output.
use ncl_base::Word;

/// A fault of an output, which counts from 0, with a word that shows it.
#[derive(Clone, Debug, Drop)]
pub enum RailFault {
    /// Both rails of the output are high.
    BothRails(usize, Word),
    /// No rail of the output is high.
    NoRail(usize, Word),
}
