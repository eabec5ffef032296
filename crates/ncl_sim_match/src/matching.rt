//! What `match` replies to a pipeline and models.
ghost use Rattle.std.specs.Prelude.{◌≤◌, IfOk};
ghost use Rattle.ncl_blif.specs.Model.{AreModels};
ghost use Rattle.ncl_match.specs.Circuit.{circuit_of};
ghost use Rattle.ncl_reply.specs.Replies.{Gives};
ghost use Rattle.ncl_sim_match.specs.Matching.{IsMatched};

use crate::match_text::{differ_text, widths_text};
use ncl_base::Memory;
use ncl_blif::Model;
use ncl_check::PARTS;
use ncl_match::{Bits, CompareFault, Compared, compare};
use ncl_reply::Reply;
use ncl_report::limit_text;
use ncl_shape::Pipeline;
use std::alloc::Global;
use std::thread::Threads;

/// Compares a pipeline with models, each output by a decision diagram of its own, and replies with what is found. Up to
/// four threads run.
pub(crate) fn match_models<R: Threads + Sync>(
    rt: &R,
    alloc: Global,
    pipeline: &Pipeline,
    models: &[Model],
    limit: u32,
) -> Result<Reply, Memory>
    requires models { AreModels models.now }
    requires limit { 1 ≤ limit }
    ensures { IfOk result (Gives (IsMatched (circuit_of pipeline.now) models.now limit)) }
{
    match compare(rt, alloc, &Bits, pipeline, models, limit, PARTS) {
        Ok(Compared::Same) => Ok(Reply::Fixed(0, b"same\n")),
        Ok(Compared::Differ { word, bit }) => {
            Ok(Reply::Made(1, differ_text(alloc, &word, bit)?))
        }
        Ok(Compared::Widths) => Ok(Reply::Made(1, widths_text(alloc, pipeline, models)?)),
        Err(CompareFault::Full(output)) => {
            let text = limit_text(alloc, b"limit output ", output, limit)?;
            Ok(Reply::Made(6, text))
        }
        Err(CompareFault::Memory) => Err(Memory),
    }
}
