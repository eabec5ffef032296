//! The steps of a simulation.
use ncl_shape::Item;

/// An item that stepped, and when.
#[derive(Clone, Copy, Debug, PartialEq, Eq)]
pub struct Fired {
    /// The time of the step. The first items become enabled at 0.
    pub time: u64,
    /// What stepped.
    pub item: Item,
}
