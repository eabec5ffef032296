//! What `ncl_reach` answers: the judgement of a pipeline at the words that its inputs bring to its stages, from the arguments of
//! a call, between a source of files and a sink of bytes.
//!
//! `replying` goes from the bytes of a netlist to an outcome and a line, and `top` from arguments to a status.
#![tactic(auto)]

mod replying;
mod top;

pub use replying::reply;
pub use top::run_reach;
