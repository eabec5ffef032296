//! The theorem: a pipeline whose stages are sound is delay-insensitive, with the laws that it follows from, and examples
//! and counterexamples of it.
//!
//! No program is in it: one stage at work (`RisingLaws`, and `FallingLaws` of `ncl_machine`, on which `State` rests too), an
//! invariant of runs (`Invariant`, `Keeping`), and what is read off it (`Persistence`, `Quiescence`, `RunBound`, `Headline`).
//! Words held at reset are in the start of the proof (`StartKept`), in the words under way (`OfferedWords`, `HeldDue`) and
//! in their count (`HeldCounts`). Who reads the claim needs `ncl_machine` alone; docs/headline.md tells how it is proved.
#![tactic(auto)]

pub mod examples;
pub mod ill_shaped;
pub mod laws;
pub mod unsound;
