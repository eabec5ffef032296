//! Tests of the crates that find the pipeline of a netlist, judge its stages, merge its gates and compare it with models, by their
//! public calls.
#![tactic(auto)]

#[cfg(test)]
mod tests;
