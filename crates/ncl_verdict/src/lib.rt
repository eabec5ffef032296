//! The judgement of a pipeline: its definition, and its answer.
//!
//! A yes that needs no variant is looked for first (`acceptance`, `few`, `supports`). Any other stage is judged variant by
//! variant (`ready`, `in_space`, `variants`, `judging`), and a pipeline stage by stage, or in halves by several threads (`parallel`),
//! as are the variants of one large stage (`sharing`, `hearing`).
#![tactic(auto)]

mod acceptance;
mod asked;
mod asking;
pub mod examples;
mod few;
mod file_order;
mod hearing;
mod in_space;
mod judging;
pub mod laws;
mod parallel;
mod ready;
mod run;
mod shared;
mod sharing;
mod supports;
mod variants;
mod verdict;

pub use in_space::first_answer;
pub use judging::{judge, judge_stage, judge_stage_par};
pub use parallel::{Judge, Stages, judge_par};
pub use variants::variants_after_base;
pub use verdict::Verdict;
