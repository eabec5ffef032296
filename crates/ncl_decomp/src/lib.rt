//! Networks whose nodes have two to four inputs: of a wide node the signals that rows have in common are taken out, and
//! what is left becomes balanced trees of nodes of two inputs.
//!
//! The nodes of a network are taken in order. A row is a product of signals (`products`). The signal that most products have
//! is taken out (`common`, `factoring`), and so on among those that had it and then among the others; which one is taken is
//! not trusted. What has nothing in common is made of nodes by a queue of signals (`tree`, `wide`).
//!
//! `table` has the words of four bits by their numbers, and functions of them as tables, for those who try what nodes compute.
#![tactic(auto)]

mod common;
mod factoring;
mod image;
mod literals;
mod pair;
mod products;
mod rows;
mod splitting;
pub mod table;
mod tree;
mod wide;

pub use pair::Joint;
pub use rows::copied_rows;
pub use splitting::split;
pub use tree::join;
