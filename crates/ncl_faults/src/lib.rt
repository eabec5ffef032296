//! The variants of a stage, its values at a word, and the faults that it can have: what is stated of them, and their laws.
//!
//! No body stands in it but the type of variants, so that crates which only cite a stage, as those that compile one, don't
//! wait for the next.
#![tactic(auto)]

mod variant;

pub use variant::Variant;
