//! What is kept low while a stage is evaluated.

/// How a stage is evaluated: with nothing forced, with one input bit kept at NULL, or with the output
/// of one gate cell kept low. Bits and cells count from 0; a cell is a place in the stage's cells.
#[derive(Clone, Copy, Debug, PartialEq, Eq)]
pub enum Variant {
    Base,
    Bit(usize),
    Cell(usize),
}
