//! Cells.
use crate::ids::NetId;
use arrayvec::ArrayVec;
use ncl_base::Name;
use ncl_gates::CellKind;

/// A cell of a netlist, which drives one net from its input nets.
#[derive(Clone, Debug, Drop)]
pub struct Cell {
    pub kind: CellKind,
    pub name: Name,
    /// The nets at the input pins, in pin order.
    pub ins: ArrayVec<NetId, 4>,
    /// The net at the output pin `Z`.
    pub out: NetId,
}
