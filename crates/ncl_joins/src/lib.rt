//! What the nodes of a network need not wait for, and which of them are joined so that fewer gates compute them: a search.
//!
//! What is found isn't trusted: who takes it tests it, and where it fails nodes wait for all that they read, or stay as they were. So
//! what is handed out has no contract. `joiner` keeps nodes as they are joined, and what holds each source (`holders`, in a table
//! `by_source`): `sharing` has the nodes that hold one together, which read what `together` has. `waiting` finds what nodes wait for
//! as they are, `pairing` joins those that only one other reads, `spreading` those that several read, and `summing` puts sums beside
//! their carries, all where gates come in time (`timing`); `joint` makes a node that has two gates.
#![tactic(auto)]

mod by_source;
mod holders;
mod joiner;
mod joint;
mod pairing;
mod sharing;
mod spreading;
mod summing;
mod timing;
mod together;
mod waiting;

pub use by_source::BySource;
pub use joiner::Joins;
pub use pairing::joins_of;
pub use summing::has_sums;
pub use timing::reckoned_depth;
pub use together::{MOST_HOLDERS, MOST_SOURCES, Together};
pub use waiting::waits_found;
