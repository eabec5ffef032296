//! The tables of a stage, and the functions of its nets under a variant, in any space.
//!
//! Those of Base are made by one pass over the cells (`evaluation`, `nets`), and those of any other variant from them, by
//! the cells alone that a changed net reaches (`changes`): lists of the cells that read each net (`readers`) say which to
//! look at. These lists and the places of the nets are tabulated once (`wiring`) and shared. Whether each net is observed by
//! the gates that read it is asked without a variant (`observing`).
#![tactic(auto)]

mod changes;
mod evaluation;
mod input_order;
pub mod laws;
mod net_values;
mod nets;
mod observing;
mod outputs;
mod readers;
mod variant;
mod walk;
mod wiring;

pub use evaluation::{revalue, values, values_in};
pub use input_order::{BitOrder, bit_order};
pub use ncl_faults::Variant;
pub use net_values::Values;
pub use observing::all_observed;
pub use outputs::{all_data, data_fronts, data_tables, least_one, least_zero, pair_refs};
pub use wiring::{Wiring, place_of};
