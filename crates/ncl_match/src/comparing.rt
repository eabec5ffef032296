//! The comparison of all outputs.
ghost use Rattle.std.specs.Prelude.{◌≤◌, length, IfOk};
ghost use Rattle.ncl_blif.specs.Model.{AreModels};
ghost use Rattle.ncl_match.specs.Circuit.{circuit_of};
ghost use Rattle.ncl_match.specs.Answer.{HaveWidths, IsAnswer, IsBitAnswer};

use crate::answer::{BitAnswer, CompareFault, Compared, RunAnswer};
use crate::asking::Question;
use crate::halves::compare_halves;
use crate::preparing::Sides;
use crate::widths::have_widths;
use ncl_base::Memory;
use ncl_blif::Model;
use ncl_shape::Pipeline;
use std::alloc::Global;
use std::thread::Threads;

/// What compares one output.
pub trait CompareBit {
    /// The answer to an output of two sides whose words have the same numbers of bits, where its tables may have at most
    /// `limit` beads. Outputs count from 1. An error is want of memory.
    fn compare_bit(
        &self,
        alloc: Global,
        sides: &Sides,
        limit: u32,
        bit: u32,
    ) -> Result<BitAnswer, Memory>
        requires models { AreModels sides.now.models }
        requires limit { 1 ≤ limit }
        requires widths { HaveWidths (circuit_of sides.now.pipeline) sides.now.models }
        requires bit { (1 ≤ bit) × (bit ≤ length sides.now.pipeline.outputs) }
        ensures { IfOk result (IsBitAnswer (circuit_of sides.now.pipeline) sides.now.models limit bit) };
}

/// Whether a pipeline and models have the same function, by at most so many threads: the first output whose tables have
/// more beads than the limit, or the least word at which the functions differ and the first bit that differs there.
///
/// The outputs are split in halves, each compared by a thread of its own where one can be started, until there are
/// `parts` runs of them. The data cells of the pipeline and the covers of the models are put in order once for all of them,
/// which is linear in the pipeline and `n log n` in the models, and each output goes over both once. An error other than
/// the limit is want of memory.
pub fn compare<R: Threads + Sync, B: CompareBit + Sync>(
    rt: &R,
    alloc: Global,
    bits: &B,
    pipeline: &Pipeline,
    models: &[Model],
    limit: u32,
    parts: u32,
) -> Result<Compared, CompareFault>
    requires models { AreModels models.now }
    requires limit { 1 ≤ limit }
    requires parts { (1 ≤ parts) × (parts ≤ 16) }
    ensures { IsAnswer (circuit_of pipeline.now) models.now limit result }
{
    pipeline.facts();
    if !have_widths(pipeline, models) {
        return Ok(Compared::Widths);
    }
    let Ok(sides) = Sides::of(alloc, pipeline, models) else {
        return Err(CompareFault::Memory);
    };
    let outputs = pipeline.outputs().len() as u32;
    let asked = Question { bits, sides, limit };
    match compare_halves(rt, alloc, &asked, 0, outputs, parts) {
        Ok(RunAnswer::Same) => Ok(Compared::Same),
        Ok(RunAnswer::Differ { word, output }) => Ok(Compared::Differ { word, bit: output }),
        Ok(RunAnswer::Full(output)) => Err(CompareFault::Full(output)),
        Err(Memory) => Err(CompareFault::Memory),
    }
}
