//! A bit in dual-rail form, and where a register cell has it.
use ncl_netlist::NetId;

/// The two nets of a bit in dual-rail form: DATA0 where rail 0 alone is high, DATA1 where rail 1 alone is, and NULL where
/// neither is. Both high has no meaning.
#[derive(Clone, Copy, Debug, Default, PartialEq, Eq)]
pub struct Rails {
    pub zero: NetId,
    pub one: NetId,
}

/// A side of the register cells of a bank.
#[derive(Clone, Copy)]
pub(crate) enum Side {
    /// The nets that they drive.
    Driven,
    /// The nets on their A pins.
    Read,
}
