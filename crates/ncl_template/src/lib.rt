//! The gates of one node of a network, which wait for some or all of its inputs, and for each of themselves.
//!
//! `table` is the node's function, `gate` makes gates over two pairs, and `template` pairs of them, of any function.
//! `patterns` has gates that wait for a part of the inputs (`Waits`, by the word), `turning` takes them to the order and the
//! inversions of a node, `form` and `fitting` try what comes of it (`fits` keeps what was found), and `eager` adds it; `joint`
//! finds gates that wait together with those of their last input, which it reads off the cells. The three facts that gates of a
//! node have by themselves are `IsTemplate`, and those that they have among all cells that were added so far `IsTemplateAmong`.
#![tactic(auto)]

mod eager;
mod fits;
mod fitting;
mod form;
mod gate;
mod joint;
mod pattern;
mod patterns;
mod table;
mod template;
mod turning;
mod waits;

pub use eager::add_waiting;
pub use fits::Fits;
pub use fitting::{Fit, fit_of};
pub use joint::waits_with_last;
pub use waits::Waits;
