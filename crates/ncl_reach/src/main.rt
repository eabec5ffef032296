//! The program that says of a netlist whether an input of its pipeline brings a fault about: `main` hands its arguments, the
//! system's files and standard output to `run_reach`.
#![tactic(auto)]

use ncl_reach_top::run_reach;
use ncl_system::{FileSource, StdoutSink, arguments_given, views};
use std::env;
use std::process::ExitCode;

fn main(rt: HostRuntime) -> ExitCode {
    match status(&rt) {
        Ok(status) | Err(status) => ExitCode::from(status),
    }
}

/// The status of the answer, or 7 where there was no memory for the arguments.
fn status(rt: &HostRuntime) -> Result<u8, u8> {
    let arguments = arguments_given(rt.alloc(), env::args(rt))?;
    let arguments = views(rt.alloc(), &arguments)?;
    let mut source = FileSource::new(rt);
    let mut sink = StdoutSink::new(rt);
    Ok(run_reach(rt.alloc(), &arguments, &mut source, &mut sink))
}
