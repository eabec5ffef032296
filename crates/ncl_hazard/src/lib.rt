//! Why a cell is an orphan: an input that brings to its stage a word that shows it, and a run over that input in whose last
//! step the cell loses its excitation.
//!
//! The stages up to the orphan's are joined into one (`joining`), in which each rail of a bank between them goes by the name
//! of the output that it takes, so that the search of `ncl_orphan` on it, with the bits in ascending order, finds the least
//! input of the pipeline (`search`). The run is found by trying a fixed list of items in turn (`schedule`, `trying`): the
//! word comes through all cells but the orphan, which is then excited, the completion trees fall, the source lowers, and the
//! same cells are tried again, after which it isn't. `explaining` puts both together.
//!
//! The run behind an orphan that a judgement tells, in a pipeline that holds no word at reset:
//!
//! ```
//! use ncl_hazard::{Explained, explain};
//! use ncl_verdict::{Verdict, judge};
//!
//! if let Verdict::Orphan { stage, cell, .. } = judge(alloc, &pipeline, 100_000)? {
//!     match explain(alloc, &pipeline, stage, cell, 100_000)? {
//!         Explained::Shown { run, .. } => println!(rt; "lost in step {}", run.items().len())?,
//!         Explained::NoWord => println!(rt; "never shown")?,
//!     }
//! }
//! ```
#![tactic(auto)]

mod explaining;
mod joining;
pub mod laws;
mod schedule;
mod search;
mod trying;

pub use explaining::{Explained, Steps, explain};
pub use schedule::{
    acknowledging_items, all_items, coming_items, going_items, lacking_items, reaching_items,
};
pub use trying::{losing_run, try_items};
