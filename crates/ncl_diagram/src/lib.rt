//! Shared decision diagrams of the functions of a stage, as a space, for words as wide as a bank may be.
//!
//! A table of nodes in which no node stands twice (`nodes`), one operation that goes down all pins of a gate at once
//! (`operation`), with a memo of what it has found that ends with the call (`memo`, over an open table of keys, `keys`) and
//! some answers of earlier calls (`answers`, at most 16,384 of them, each in 16 bytes, `slot`), and the space over them
//! (`diagram`, `least`). `steps` counts the accesses of an operation for contracts and takes no bytes. What `ncl_space` has
//! is passed on.
#![tactic(auto)]

mod answers;
mod diagram;
mod keys;
mod least;
mod memo;
mod nodes;
mod operation;
mod slot;
mod steps;

pub use diagram::Diagram;
pub use ncl_space::{Mark, Plain, Ref, Space, SpaceFault};
pub use steps::Steps;
