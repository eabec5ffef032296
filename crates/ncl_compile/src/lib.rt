//! Models as netlists of clockless pipelines, which the check accepts.
//!
//! The sizes are asked (`sizing`), the stages made and then the banks between them, their cells put together, and `build` of
//! `ncl_netlist` numbers the nets. In proofs, `PartsAssembled` shows that the netlist is put together of banks and stages,
//! and `ncl_assembly` that it has a shape.
//!
//! From BLIF to the text of a netlist:
//!
//! ```
//! use ncl_blif::read_blif;
//! use ncl_compile::compile;
//! use ncl_writer::{is_writable, write_netlist};
//!
//! let bytes = fs::read(rt, "adder.blif")?;
//! anyhow::ensure!(bytes.len() <= MOST_BYTES, "a file that is too long");
//! let models = read_blif(alloc, &bytes)?;
//! let netlist = compile(alloc, &models)?;
//! anyhow::ensure!(is_writable(&netlist), "a name that can't be written");
//! rt.write_all(&write_netlist(alloc, &netlist)?)?;
//! ```
#![tactic(auto)]

mod banks;
mod compiling;
mod fault;
pub mod laws;
mod naming;
mod putting;
mod sizing;
mod stages;

pub use compiling::compile;
pub use fault::CompileFault;
