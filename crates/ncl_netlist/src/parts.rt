//! What a netlist is built of.
use crate::port::Port;
use ncl_base::{Items, Name};
use ncl_gates::CellKind;

/// A cell whose nets are told by name.
#[derive(Clone, Debug, Drop)]
pub struct PartCell {
    pub kind: CellKind,
    pub name: Name,
    /// The names of the nets at the pins, in the order of `CellKind::pins`, so `Z` comes last.
    pub pins: Items<Name>,
}

/// The parts of a netlist, in the order in which they were written.
#[derive(Clone, Debug, Drop)]
pub struct Parts {
    pub module: Name,
    pub ports: Items<Port>,
    pub cells: Items<PartCell>,
}

/// The names of the two nets of one dual-rail bit.
#[derive(Clone, Debug, Drop)]
pub struct NamePair {
    /// The net of rail 0, which alone high is DATA0.
    pub zero: Name,
    /// The net of rail 1, which alone high is DATA1.
    pub one: Name,
}
