//! Whether the outputs of a stage follow its inputs: that each output has one high rail, and that none
//! is DATA before each input bit is.
//!
//! Each question is answered with the least word that shows a fault. What is made for a variant stays until the caller goes
//! back (`asking` in `ncl_verdict`).
#![tactic(auto)]

mod inputs;
mod rail_fault;
mod rails;

pub use inputs::{incomplete_word, input_complete};
pub use rail_fault::RailFault;
pub use rails::valid_rails;
