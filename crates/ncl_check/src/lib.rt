//! From the bytes of a netlist to what `check` replies: the whole way, with the headline as a clause of its one call, and
//! what a refusal says as another.
//!
//! The way from bytes to a pipeline stands in `text`, with two calls, one for the netlist and one for its shape, since a
//! pipeline keeps its netlist by reference; `sim` takes the same way.
//!
//! The line of `nclc check` and its status, by four threads at most:
//!
//! ```
//! use ncl_check::{Judging, Outcome, check};
//! use ncl_verdict::Stages;
//!
//! let bytes = fs::read(rt, "adder.v")?;
//! let judging = Judging { rt, alloc: rt.alloc(), judge: &Stages };
//! let reply = check(&judging, &bytes, 100_000, false)?;
//! rt.write_all(&reply.text)?;
//! anyhow::ensure!(reply.outcome == Outcome::Accepted, "not delay-insensitive");
//! ```
#![tactic(auto)]

mod checking;
mod explaining;
mod judging;
pub mod laws;
mod no_pipeline;
mod reply;
mod text;

pub use checking::{PARTS, check};
pub use explaining::why_text;
pub use judging::Judging;
pub use no_pipeline::refused;
pub use reply::{Outcome, Reply};
pub use text::{Refusal, netlist_in, pipeline_in};
