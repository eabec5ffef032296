//! Netlists that are put together of banks and stages: what that is (`IsAssembled`), by number, and that each of them has
//! the shape of a pipeline, rule by rule.
//!
//! `WrittenBanks` has banks of one and two bits for examples. What is compiled, the wires of an example and the examples of
//! refusals are instances.
#![tactic(auto)]

pub mod laws;
