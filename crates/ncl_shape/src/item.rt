//! What can happen in one step.
use ncl_netlist::CellId;

/// One step of the firing machine: a cell switches, or the source or the sink makes a move.
/// Bits count from 0.
#[derive(Clone, Copy, Debug, PartialEq, Eq)]
pub enum Item {
    /// The cell's net takes the cell's next value.
    Cell(CellId),
    /// The source raises the rail of this bit that the current word names.
    Raise(usize),
    /// The source lowers that rail again.
    Lower(usize),
    /// The sink takes the word at the outputs and lowers `ki`.
    Take,
    /// The sink raises `ki` once all outputs are NULL.
    Ready,
}
