//! The arguments that the program is called with, read with `clap` as a command: `Reading` gathers a file and options by
//! their bytes, and `Command` has a form for each command.
//!
//! `form` makes a command of `clap` for a form and reads the arguments with it, `number` reads a number, and `command` puts
//! the values together. The proofs follow `clap` argument by argument.
#![tactic(auto)]

mod command;
mod form;
mod number;

pub use command::{Command, LARGEST_LIMIT, MOST_DEMO_BITS, MOST_NODES};
