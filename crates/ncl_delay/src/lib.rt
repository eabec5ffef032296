//! The files of a simulation: delays of cells, source and sink, and words to be offered; and what a
//! simulation tells, its steps with their times.
//!
//! `lines` gives the lines that say something, `statement` what a line of delays states, `delays` keeps them, and
//! `word_text` reads the words.
#![tactic(auto)]

mod delay_text;
mod delays;
mod fault;
mod fired;
mod lines;
mod number;
mod statement;
mod word_text;

pub use delay_text::read_delays;
pub use delays::{Delays, Edges, MOST_DELAY};
pub use fault::{DelayFault, WordsFault};
pub use fired::Fired;
pub use word_text::{MOST_WORDS, read_words};
