//! Networks as stages of gates: sound, of the same function, and told by names.
//!
//! A network is completed (`complete`: `constants`, `unread`), what nodes needn't wait for is taken as `ncl_joins` finds it, or more
//! where something isn't held (`relaxing`), and tested (`held`), and one template is laid after another (`layout`). `stage_gates`
//! lays a network out so, and others that are made of it, in a few ways and with some nodes joined, and takes what is better
//! (`depth`). `naming` names what comes of it. In proofs, `Composition` is the theorem that templates of a covered network are a
//! sound stage, and `Renaming` that numbers don't matter.
#![tactic(auto)]

mod complete;
mod constants;
mod copies;
mod depth;
mod held;
mod layout;
mod naming;
mod parts;
mod relaxing;
mod signal_pairs;
mod stage_gates;
mod unread;

pub use parts::{StageParts, stage_parts};
