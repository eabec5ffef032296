//! The edges of a program: the arguments that it is called with, the system's files, and standard output.
//!
//! `FileSource` and `StdoutSink` are the real source and sink, which tell a contract nothing of content; what is made of each
//! outcome of a call of the system is said by small functions with clauses.
#![tactic(auto)]

mod arguments;
mod file_source;
mod stdout_sink;
mod tally;

pub use arguments::{arguments_given, views};
pub use file_source::FileSource;
pub use stdout_sink::StdoutSink;
