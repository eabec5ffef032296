//! The program that judges netlists of pipelines in NULL Convention Logic: `main` calls `process`, which takes the arguments,
//! the system's files and standard output, and ends with the status of `answer`. That calls `run`, and is proved for every
//! source and sink. The stored run ends with the status 1.
//!
//! The tests call `process` with a runtime of their own, and `run` with sources and sinks that fail, with judges of their own,
//! or very often.
#![tactic(auto)]

mod answering;
#[cfg(test)]
mod asking;
#[cfg(test)]
mod device_tests;
#[cfg(test)]
mod parallel_tests;
#[cfg(test)]
mod process_tests;

use answering::process;
use std::process::ExitCode;

fn main(rt: HostRuntime) -> ExitCode {
    process(&rt)
}
