//! The judgement of a pipeline's stages.
ghost use Rattle.std.specs.Prelude.{◌≡◌, ◌≤◌, [], ◌∷◌, IfOk, MatchResult};
ghost use Rattle.std.specs.Option.{ForSome};
ghost use Rattle.ncl_verdict.specs.Judgement.{judgement, of_stage, stopped_at};

use crate::acceptance::is_accepted;
use crate::ready::Ready;
use crate::sharing::{Heard, hear};
use crate::verdict::Verdict;
use ncl_base::Memory;
use ncl_shape::{Pipeline, Stage};
use std::alloc::Global;
use std::thread::Threads;

/// The judgement of one stage with at most `limit` nodes: its first fault with the least word that shows it, or
/// that it is sound, or that at some variant it has more nodes. An error is want of memory.
///
/// A stage whose nets depend on few bits, and in which the gates that read a net observe it, is accepted by one operation on
/// diagrams for each cell and three for each pin at most. For any other, for each input bit and each cell it evaluates the
/// cells that the change reaches, at most all of them, each by one operation.
pub fn judge_stage(alloc: Global, stage: &Stage, limit: u32) -> Result<Verdict, Memory>
    requires { 1 ≤ limit }
    ensures { IfOk result (λ verdict. verdict ≡ judgement limit (stage.now ∷ [])) }
{
    match refusal(alloc, stage, limit)? {
        Some(verdict) => Ok(verdict),
        None => Ok(Verdict::Accepted),
    }
}

/// The judgement of a pipeline, each of whose stages may have at most `limit` nodes: that of its first stage, in
/// their order, that is not sound or has more; accepted where there is none. An error is want of memory.
///
/// The stages are judged one after another, each as by `judge_stage`, up to the first that isn't accepted; it costs what
/// these cost together.
pub fn judge(alloc: Global, pipeline: &Pipeline, limit: u32) -> Result<Verdict, Memory>
    requires { 1 ≤ limit }
    ensures { IfOk result (λ verdict. verdict ≡ judgement limit pipeline.now.stages) }
{
    for stage in pipeline.stages() {
        if let Some(verdict) = refusal(alloc, stage, limit)? {
            return Ok(verdict);
        }
    }
    Ok(Verdict::Accepted)
}

/// The judgement of one stage by at most `parts` threads: the answer of `judge_stage`. An error is want of memory.
///
/// Where variants have to be asked of a large stage, each thread asks its part of them, over functions of Base of its own.
pub fn judge_stage_par<R: Threads + Sync>(
    rt: &R,
    alloc: Global,
    stage: &Stage,
    limit: u32,
    parts: u32,
) -> Result<Verdict, Memory>
    requires { 1 ≤ limit }
    ensures { IfOk result (λ verdict. verdict ≡ judgement limit (stage.now ∷ [])) }
{
    match refusal_par(rt, alloc, stage, limit, parts)? {
        Some(verdict) => Ok(verdict),
        None => Ok(Verdict::Accepted),
    }
}

/// What is said of a stage that is not sound, or has too many nodes.
fn refusal(alloc: Global, stage: &Stage, limit: u32) -> Result<Option<Verdict>, Memory>
    requires { 1 ≤ limit }
    ensures { IfOk result (λ answer. answer ≡ of_stage (stopped_at limit) stage.now) }
{
    match begun(alloc, stage, limit)? {
        Ok(ready) => ready.said(alloc),
        Err(answer) => Ok(answer),
    }
}

/// The same, by at most so many threads.
fn refusal_par<R: Threads + Sync>(
    rt: &R,
    alloc: Global,
    stage: &Stage,
    limit: u32,
    parts: u32,
) -> Result<Option<Verdict>, Memory>
    requires { 1 ≤ limit }
    ensures { IfOk result (λ answer. answer ≡ of_stage (stopped_at limit) stage.now) }
{
    match begun(alloc, stage, limit)? {
        Ok(ready) => said_par(rt, alloc, ready, parts),
        Err(answer) => Ok(answer),
    }
}

/// What is said of a stage that is ready for its variants, by at most so many threads.
fn said_par<R: Threads + Sync>(
    rt: &R,
    alloc: Global,
    ready: Ready,
    parts: u32,
) -> Result<Option<Verdict>, Memory>
    ensures { IfOk result (λ answer. answer ≡ of_stage (stopped_at ready.entry.limit) ready.entry.stage) }
{
    match heard(rt, alloc, &ready, parts) {
        Some(answer) => answer,
        None => ready.said(alloc),
    }
}

/// What is said of it where the threads asked all variants.
fn heard<R: Threads + Sync>(
    rt: &R,
    alloc: Global,
    ready: &Ready,
    parts: u32,
) -> Option<Result<Option<Verdict>, Memory>>
    ensures { ForSome result (λ answer. IfOk answer (λ said. said ≡ of_stage (stopped_at ready.now.limit) ready.now.stage)) }
{
    ready.facts();
    match hear(rt, alloc, ready, parts) {
        Ok(Heard::Nothing) => Some(Ok(None)),
        Ok(Heard::Said(verdict)) => Some(Ok(Some(verdict))),
        Ok(Heard::Open) => None,
        Err(fault) => Some(Err(fault)),
    }
}

/// What is said of a stage where no variant after Base has to be asked for it; else the stage that is ready for that.
fn begun<'a>(
    alloc: Global,
    stage: &'a Stage,
    limit: u32,
) -> Result<Result<Ready<'a>, Option<Verdict>>, Memory>
    requires { 1 ≤ limit }
    ensures { IfOk result (λ answer. MatchResult answer
        (λ ready. (ready.stage ≡ stage.now) × (ready.limit ≡ limit))
        (λ said. said ≡ of_stage (stopped_at limit) stage.now)) }
{
    let mut ready = match Ready::of(alloc, stage, limit)? {
        Ok(ready) => ready,
        Err(verdict) => return Ok(Err(Some(verdict))),
    };
    if is_accepted(alloc, &mut ready)? {
        return Ok(Err(None));
    }
    Ok(Ok(ready))
}
