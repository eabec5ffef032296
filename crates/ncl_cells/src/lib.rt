//! Networks with fewer cells: their nodes taken apart into small ones, or made others that compute the same.
//!
//! For each node a choice is made, at most four leaves, the nodes through which it is computed of them, and a plan. The choice isn't
//! trusted: the plan is tried at the sixteen words of the leaves, and where it fails the network stays as it was. `remaking` makes
//! a round, and `improving` some rounds, each kept only if it costs no more than any network may and has fewer cells. `recasting`
//! puts other nodes in the places of those of a network, as a caller offers them, where `offer` finds that they compute the same at
//! the sixteen words of four leaves. `reordering` puts the nodes in an order that is told, and `finishing` leaves out what reaches
//! no output.
#![tactic(auto)]

mod finishing;
mod improving;
mod offer;
mod recasting;
mod remaking;
mod reordering;

pub use improving::improve;
pub use recasting::recast;
pub use reordering::reordered;
