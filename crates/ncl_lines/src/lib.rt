//! The lines that tell what `check` found of a netlist: its verdict, a fault of its text or its shape, and why a cell is an
//! orphan.
//!
//! `ncl_check` needs no other lines.
#![tactic(auto)]

mod explanations;
pub mod laws;
mod line;
mod net_faults;
mod shape_faults;
mod verdicts;

pub use explanations::{explained_text, past_limit_text, push_steps, untold_text};
pub use line::{limit_text, line_of, numbered_line, push_number, push_word};
pub use net_faults::net_text;
pub use shape_faults::shape_text;
pub use verdicts::verdict_text;
