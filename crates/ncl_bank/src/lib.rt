//! Banks of register cells with their acknowledge cells and completion trees, told by names.
#![tactic(auto)]

mod cells;
mod completion;
mod nets;
mod parts;

pub use parts::{BankParts, bank_parts};
