//! Whether some output observes each gate of a stage, with the least word at which none does.
#![tactic(auto)]

mod observing;

pub use observing::{orphan, orphan_word};
