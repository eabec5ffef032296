//! What `sim` and `match` reply to the files that they name: a netlist and its delays and words, or a netlist and models.
//!
//! `files` loads them one after another, and the first that is refused ends the call as a `Fault` with its line; `reading` has what
//! the bytes say. `simulating` and `matching` reply to what was read. The models of `compile` are loaded here too: nothing
//! of this crate waits for the compiler.
#![tactic(auto)]

mod files;
mod match_text;
mod matching;
mod reading;
mod simulating;

pub use files::{Other, Running, match_files, models_of, sim_files};
