//! Timed runs: what a pipeline does where each cell, the source and the sink have delays.
//!
//! An `Agenda` keeps what is due in a calendar queue, a wheel of 64 lists for what is due soon and a heap, `looking` looks
//! again at a number, `rows` has of each cell what a look needs, `touched` says which numbers a change of a net can touch,
//! `course` is the pipeline with these two, and `run` makes one step after another. The proofs show that a row tells what its cell does (`RowLaws`), that nothing but
//! what is looked at can change (`Locality`), and that there is one run (`Oneness`, `Existence`).
//!
//! A run of a pipeline at the delays of a file, and the lines that tell it:
//!
//! ```
//! use ncl_delay::{read_delays, read_words};
//! use ncl_report::trace_text;
//! use ncl_sim::simulate;
//!
//! let delays = read_delays(alloc, b"default 1 1\n", pipeline.netlist())?;
//! let words = read_words(alloc, b"110\n000\n", pipeline.inputs().len())?;
//! let trace = simulate(alloc, &pipeline, &delays, &words)?;
//! let due = pipeline.data_banks() + words.len();
//! rt.write_all(&trace_text(alloc, &pipeline, &trace, due)?)?;
//! ```
#![tactic(auto)]

mod agenda;
mod calendar;
mod course;
pub mod laws;
mod looking;
mod rows;
mod run;
mod simulator;
mod touched;
mod trace;
mod wheel;

pub use ncl_delay::{Delays, Edges, Fired, MOST_WORDS};
pub use simulator::simulate;
pub use trace::{End, Taken, Trace};
