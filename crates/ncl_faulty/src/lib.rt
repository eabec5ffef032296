//! Pipelines with one fault each: that each is refused and goes wrong, and one with a fault at a word that no input brings,
//! which is refused too, and delay-insensitive.
//!
//! And two banks joined by wires, which have none. Their shapes come from the law of `ncl_assembly`.
#![tactic(auto)]

pub mod examples;
pub mod wires;
