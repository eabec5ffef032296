//! Networks of two-level nodes: a model with its constants, inversions and dead inputs folded away.
//!
//! One cover is folded after the other, in the order that `ncl_graph` finds, and then the nodes that nothing reads are left
//! out.
#![tactic(auto)]

mod columns;
mod cover;
pub mod examples;
mod fold;
mod literals;
mod mark;
mod network;
mod pruning;
mod reducing;
mod select;
mod walk;

pub use cover::cover_bit;
pub use network::{Network, Node, Signal, SignalSource};
pub use pruning::prune;
pub use reducing::{cover_order, reduce};
