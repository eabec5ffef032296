//! Directed graphs of dependencies: an order in which each place stands after those that it leads to,
//! and the first place on a cycle.
#![tactic(auto)]

mod components;
mod first_on_cycle;
mod graph;
pub mod laws;
mod mark;
mod order;
mod ranks;
mod reach;
mod search;

pub use graph::Graph;
