//! Register banks.
use ncl_base::Items;
use ncl_netlist::{CellId, NetId};

/// The most banks of a pipeline.
pub const MOST_BANKS: usize = 256;

/// A bit of a bank: the register cells of its rails, the acknowledge cell that reads them, and the value to which it is
/// reset, `None` where that is NULL.
#[derive(Clone, Copy, Debug, Default, PartialEq, Eq)]
pub struct Bit {
    pub rail0: CellId,
    pub rail1: CellId,
    pub ack: CellId,
    pub start: Option<bool>,
}

/// A register bank: its bits, its request (the net on the B pins of its register cells) and its root
/// (the net by which it acknowledges).
#[derive(Clone, Debug, Drop)]
pub struct Bank {
    pub bits: Items<Bit>,
    pub request: NetId,
    pub root: NetId,
}
