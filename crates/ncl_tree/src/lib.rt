//! Gates that are added one by one over numbered nets, trees of them, and names for them.
//!
//! A tree is added by a queue of what is to be joined.
#![tactic(auto)]

mod gates;
pub mod laws;
mod names;
mod tree;

pub use gates::Gates;
pub use names::{cell_name, net_name};
pub use tree::{Family, add_tree};
