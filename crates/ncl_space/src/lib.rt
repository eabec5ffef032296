//! Functions of the words of a stage, as values of a space that gives them names (`Space`): it makes the functions that it
//! is asked for, holds the beads of their tables, and goes back to a mark.
//!
//! What generic callers prove about sequences of its calls stands here, and `Plain`, which keeps truth tables, 64 values in
//! a number, for up to ten bits.
#![tactic(auto)]

pub mod laws;
mod plain;
mod space;
mod values;

pub use plain::Plain;
pub use space::{Mark, Ref, Space, SpaceFault};
