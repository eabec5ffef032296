//! Models: signals, and covers that drive them.
use ncl_base::{Items, Name};

/// What a row of a cover asks of one input (Berkeley BLIF).
#[derive(Clone, Copy, Debug, PartialEq, Eq)]
pub enum Lit {
    /// The input is 0.
    Zero,
    /// The input is 1.
    One,
    /// The input may have either value.
    Dash,
}

/// A row of a cover: one literal per input, in the order of the inputs.
pub type Row = Items<Lit>;

/// A cover: a signal as a two-level function of others (Berkeley BLIF, `.names`).
#[derive(Clone, Debug, Drop)]
pub struct Cover {
    /// The numbers of the signals that it reads, in order. One may stand twice.
    pub ins: Items<u32>,
    /// The number of the signal that it drives.
    pub out: u32,
    /// Whether the rows list the ON-set. Otherwise they list the OFF-set.
    pub on: bool,
    /// The rows. A cover without rows is constant 0.
    pub rows: Items<Row>,
}

/// A model: one stage of combinational logic.
#[derive(Clone, Debug, Drop)]
pub struct Model {
    /// Its name.
    pub name: Name,
    /// The numbers of its inputs, which are 0, 1, 2 and so on.
    pub inputs: Items<u32>,
    /// The numbers of its outputs, in order. A signal may be several outputs.
    pub outputs: Items<u32>,
    /// Its covers, in file order.
    pub covers: Items<Cover>,
}
