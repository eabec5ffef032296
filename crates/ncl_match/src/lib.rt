//! Whether a pipeline and models have the same function, output by output.
//!
//! `pair` keeps a function with its complement, which a gate's dual makes (`duals`). Two things are made once, for all
//! outputs (`preparing`): on the side of the netlist `planning` lists the data cells in the order of the pipeline, and on
//! the side of the models `steps` puts the covers of all models in one row, each after those that it reads. Then for each
//! output `marks` finds the nets that it is reached from, and `inputs`, `nets` and `netlist` make their functions; `needed`
//! finds the signals that it depends on, and `cover` and `signals` make the functions of rows and signals. `sides` and `bit`
//! ask where the two differ, and `bits` does all this in a diagram. `halves` splits the outputs for several threads, each
//! asked through `asking`, and `joining` puts two answers together by the order of words (`order`). The laws say what the
//! closure is cell by cell (`ClosedLaws`), and that there is one answer (`AnswerLaws`).
//!
//! Models and the pipeline of a netlist, by four threads at most:
//!
//! ```
//! use ncl_match::{Bits, Compared, compare};
//! use ncl_reader::read_netlist;
//! use ncl_shape::shape;
//!
//! let models = read_blif(alloc, &blif)?;
//! let pipeline = shape(alloc, &read_netlist(alloc, &netlist)?)?;
//! match compare(rt, alloc, &Bits, &pipeline, &models, 100_000, 4)? {
//!     Compared::Same => println!(rt; "the same function")?,
//!     Compared::Differ { bit, .. } => println!(rt; "output {bit} differs")?,
//!     Compared::Widths => println!(rt; "other numbers of bits")?,
//! }
//! ```
#![tactic(auto)]

mod answer;
mod asking;
mod bit;
mod bits;
mod comparing;
mod cover;
mod halves;
mod inputs;
mod joining;
pub mod laws;
mod marks;
mod needed;
mod netlist;
mod nets;
mod order;
mod pair;
mod planning;
mod preparing;
mod sides;
mod signals;
mod steps;
mod widths;

pub use answer::{BitAnswer, CompareFault, Compared};
pub use bits::Bits;
pub use comparing::{CompareBit, compare};
pub use planning::PlannedPipeline;
pub use preparing::Sides;
pub use signals::models_pair;
pub use steps::OrderedModels;
pub use widths::{first_width, last_width};
