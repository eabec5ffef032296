//! A pipeline laid out: by number, what each cell and each net of its netlist is for.
#![tactic(auto)]

pub mod laws;
