//! Networks of nodes.
use ncl_base::Items;
use ncl_blif::Row;

/// Where a signal comes from.
#[derive(Clone, Copy, Debug, PartialEq, Eq)]
pub enum SignalSource {
    /// The input of the network with this number, from 0.
    Input(u32),
    /// The node of the network with this number, from 0.
    Node(u32),
    /// Nowhere: it is always this bit.
    Const(bool),
}

/// A signal: a bit of a source, or its inverse.
#[derive(Clone, Copy, Debug, PartialEq, Eq)]
pub struct Signal {
    /// Where it comes from.
    pub from: SignalSource,
    /// Whether it is the inverse of the source's bit.
    pub inverted: bool,
}

/// A node: a two-level function of signals (Berkeley BLIF, `.names`).
#[derive(Clone, Debug, Drop)]
pub struct Node {
    /// The signals that it reads, in order.
    pub ins: Items<Signal>,
    /// Whether the rows list the ON-set. Otherwise they list the OFF-set.
    pub on: bool,
    /// The rows, each with a literal for each input.
    pub rows: Items<Row>,
}

/// A network of nodes, each of which reads inputs and nodes before it.
#[derive(Clone, Debug, Drop)]
pub struct Network {
    /// How many inputs it has.
    pub inputs: u32,
    /// Its nodes, in order.
    pub nodes: Items<Node>,
    /// Its outputs, in order.
    pub outputs: Items<Signal>,
}
