//! A judgement without false alarms: whether an input of a pipeline brings to some stage a word at which the stage shows a fault.
//!
//! `ncl_verdict::judge` asks each stage at all words of its inputs, also at those that the stages before never make. Here each
//! question is asked over the inputs of the pipeline, by decision diagrams with a limit on their nodes. Where no bank is reset to
//! DATA the answer is exact: `Never` says that the pipeline is delay-insensitive, and `Shown` that it isn't, with an input over
//! which alone a run goes wrong.
//!
//! It goes along the stages with the chain of those so far as one stage, in which each rail of a bank is the output of a
//! gate that follows the output that it takes (`chain`). A stage that `judge_stage` doesn't accept is asked over the inputs
//! of the pipeline (`asking`): the outputs of the chain are its own, its gates stand in the chain, and a bit of it isn't
//! waited for at an input exactly where the follower of one of that bit's rails is an orphan of the chain, so `valid_rails`
//! and `orphan` answer all four questions from one set of functions. `lesser` takes the lesser of two words, `evaluating`
//! the word that an input brings, and `telling` makes the verdict. Where no bank is reset to DATA `breaking` makes the run that
//! goes wrong, by trying items in turn, and `stopping` goes on with one until nothing can move.
//!
//! ```
//! use ncl_reaching::{Reached, reach};
//!
//! match reach(alloc, &pipeline, 1_000_000)? {
//!     Reached::Never => println!(rt; "sound at every word that comes")?,
//!     Reached::Shown { verdict, .. } => println!(rt; "an input brings it: {verdict:?}")?,
//!     Reached::Limit { stage } => println!(rt; "stage {stage}: not decided")?,
//! }
//! ```
#![tactic(auto)]

mod asking;
mod breaking;
mod chain;
mod evaluating;
mod fault;
mod lesser;
mod reaching;
mod stopping;
mod telling;

pub use breaking::WrongRun;
pub use reaching::{Reached, reach};
