//! BLIF (Berkeley Logic Interchange Format) as synthesis tools write it: the reader of a file of models,
//! and what the models mean.
//!
//! The reader has four passes: `line` makes lines of fields, `part` puts rows to their commands, `draft` makes models whose
//! signals go by their names and refuses the first broken line, and `finish` gives the signals numbers and refuses what a
//! whole model breaks. `dependence` makes a graph of the covers.
#![tactic(auto)]

mod command;
mod dependence;
mod draft;
mod draft_body;
mod draft_cover;
mod drivers;
pub mod examples;
mod fault;
mod fields;
mod finish;
pub mod laws;
mod line;
mod model;
mod part;
mod piece;
mod reader;
mod row;
mod rows;
mod section;

pub use dependence::dependencies;
pub use fault::BlifFault;
pub use model::{Cover, Lit, Model, Row};
pub use reader::read_blif;
