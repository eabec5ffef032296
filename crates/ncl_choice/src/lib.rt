//! What each node of a network becomes: a search for leaves and a plan that save cells.
//!
//! What is found isn't trusted: who takes a choice tries it, and where it fails the network stays as it was. So no function here has
//! a contract. `rules` and `drafting` make plans, `borrowing` makes them of what is there already (`tabled` keeps small nodes by the
//! sources that they are functions of, `operands` those of some leaves, and `operations` tries one or two operations on these), `cut`
//! and `trying` weigh leaves, `levels` and `leaves` say how late they come and in which order they are joined, and `choice` takes the
//! best. `carries` makes an order in which nodes may stand.
#![tactic(auto)]

mod borrowing;
mod carries;
mod choice;
mod cut;
mod drafting;
mod leaves;
mod levels;
mod operands;
mod operations;
mod rules;
mod tabled;
mod trying;

pub use carries::carries_first;
pub use choice::{Chooser, Turn};
