//! Netlists: the parts that a reader or a compiler hands over, and the netlist that is built of
//! them, in which each net is driven once.
#![tactic(auto)]

mod build_fault;
mod cell;
mod cell_rules;
mod drivers;
mod ids;
pub mod laws;
mod netlist;
mod numbering;
mod parts;
mod port;

pub use build_fault::BuildFault;
pub use cell::Cell;
pub use cell_rules::MOST_CELLS;
pub use ids::{CellId, NetId};
pub use netlist::{Netlist, build};
pub use parts::{NamePair, PartCell, Parts};
pub use port::Port;
