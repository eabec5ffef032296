//! Value change dumps of runs, for viewers of waveforms.
//!
//! `code` is a net's code, `lines` has each kind of line, and `writing` goes through the steps of a run with a state of the
//! machine. The proofs show what a reader of the lines finds (`LevelLaws`), and that this is what the run has (`RunLaws`).
//!
//! The wave of a run, for GTKWave and the like:
//!
//! ```
//! use ncl_sim::simulate;
//! use ncl_vcd::dump;
//!
//! let trace = simulate(alloc, &pipeline, &delays, &words)?;
//! let wave = dump(alloc, &pipeline, &words, trace.steps.items())?;
//! fs::write(rt, "adder.vcd", &wave)?;
//! ```
#![tactic(auto)]

mod code;
mod lines;
mod writing;

pub use writing::dump;
