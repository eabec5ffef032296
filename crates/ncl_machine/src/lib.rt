//! The firing machine of a pipeline: cells fire one at a time, in any order, and the environment moves
//! by the four-phase protocol. Its definitions, and what delay-insensitivity is.
//!
//! States, steps and runs, and a stage at work are what the headline speaks of. `State` keeps the machine for a program: a
//! list of values, and counts of the high rails of the present word (`levels`) and of the outputs that are DATA, so that no
//! step walks over bits. What is high at reset is told by what drives a net and where it comes from (`reset`), in one loop
//! over the cells.
#![tactic(auto)]

mod levels;
mod pair;
mod reset;
mod state;
mod step_fault;

pub use ncl_shape::Item;
pub use pair::Pair;
pub use state::State;
pub use step_fault::StepFault;
