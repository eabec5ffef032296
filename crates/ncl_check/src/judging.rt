//! With what stages are judged.
use std::alloc::Global;

/// What judges each stage of a pipeline, and the threads and the memory with which it does.
#[derive(Drop)]
pub struct Judging<'a, R, J> {
    pub rt: &'a R,
    pub alloc: Global,
    pub judge: &'a J,
}
