//! The judgement of a pipeline's stages by several threads.
ghost use Rattle.std.specs.Prelude.{◌≡◌, ◌+◌, ◌<◌, ◌≤◌, ◌^◌, ◌++◌, ℕ, List, [], ◌∷◌, IfOk, length};
ghost use Rattle.std.specs.Thread.{IsSync};
ghost use Rattle.ncl_shape.specs.Stage.{StageData};
ghost use Rattle.ncl_verdict.specs.Judgement.{judgement, Answers};

use crate::judging::judge_stage_par;
use crate::run::Run;
use crate::verdict::Verdict;
use ncl_base::Memory;
use ncl_shape::{Pipeline, Stage};
use std::alloc::Global;
use std::sync::atomic::AtomicUsize;
use std::thread::{Threads, join};

/// What judges one stage.
pub trait Judge {
    /// The judgement of a stage that may have at most `limit` nodes, by at most `parts` threads. An error is want of memory.
    fn judge_one<R: Threads + Sync>(
        &self,
        rt: &R,
        alloc: Global,
        stage: &Stage,
        limit: u32,
        parts: u32,
    ) -> Result<Verdict, Memory>
        requires limit { 1 ≤ limit }
        requires sync { IsSync R.row }
        ensures { IfOk result (λ verdict. verdict ≡ judgement limit (stage.now ∷ [])) };
}

/// Judges each stage by `judge_stage_par`.
#[derive(Clone, Copy, Debug)]
pub struct Stages;

impl Judge for Stages {
    fn judge_one<R: Threads + Sync>(
        &self,
        rt: &R,
        alloc: Global,
        stage: &Stage,
        limit: u32,
        parts: u32,
    ) -> Result<Verdict, Memory> {
        judge_stage_par(rt, alloc, stage, limit, parts)
    }
}

/// The judgement of a pipeline, each of whose stages may have at most `limit` nodes, by at most `parts` threads: that
/// of its first stage, in their order, that is not sound or has more nodes; accepted where there is none. It is the
/// answer of `judge`. An error is want of memory.
///
/// The stages are split in halves, each judged by a thread of its own where one can be started, until there are `parts`
/// runs of them; where there are fewer stages, the threads that are left share the variants of one. It costs what the judge
/// takes for each stage. A stage that comes after one that is known to be refused is not begun any more; one that is being
/// judged is judged to its end.
pub fn judge_par<R: Threads + Sync, J: Judge + Sync>(
    rt: &R,
    alloc: Global,
    judge: &J,
    pipeline: &Pipeline,
    limit: u32,
    parts: u32,
) -> Result<Verdict, Memory>
    requires limit { 1 ≤ limit }
    requires parts { (1 ≤ parts) × (parts ≤ 16) }
    ensures { IfOk result (λ verdict. verdict ≡ judgement limit pipeline.now.stages) }
{
    let stages = pipeline.stages();
    let refused = AtomicUsize::new(usize::MAX);
    let run = Run::of(stages, 0, limit, &refused);
    match judge_halves(rt, alloc, judge, &run, parts)? {
        Some(verdict) => Ok(verdict),
        None => judge_each(rt, alloc, judge, stages, limit),
    }
}

/// The judgement of a run of stages, by at most so many threads; none where a stage before some of them is known to be refused.
#[cycle(calls)]
fn judge_halves<R: Threads + Sync, J: Judge + Sync>(
    rt: &R,
    alloc: Global,
    judge: &J,
    run: &Run,
    parts: u32,
) -> Result<Option<Verdict>, Memory>
    ensures { IfOk result (Answers run.now.limit run.now.stages) }
{
    let stages = run.stages();
    if parts < 2 || stages.len() < 2 {
        return judge_run(rt, alloc, judge, run, parts);
    }
    let (front, back) = stages.split_at(stages.len() / 2);
    let place = run.place();
    let middle = place + front.len();
    let limit = run.limit();
    let refused = run.refused();
    let few = parts / 2;
    let many = parts - few;
    let (first, second) = join(
        rt,
        || -> Result<Option<Verdict>, Memory>
            requires { IsSync R.row × IsSync J.row × (1 ≤ limit) × (place + length front.now < 2 ^ 64) }
            ensures { IfOk result (Answers limit front.entry.now) }
        {
            judge_halves(
                rt,
                alloc,
                judge,
                &Run::of(front, place, limit, refused),
                few,
            )
        },
        || -> Result<Option<Verdict>, Memory>
            requires { IsSync R.row × IsSync J.row × (1 ≤ limit) × (middle + length back.now < 2 ^ 64) }
            ensures { IfOk result (Answers limit back.entry.now) }
        {
            judge_halves(
                rt,
                alloc,
                judge,
                &Run::of(back, middle, limit, refused),
                many,
            )
        },
    );
    match first? {
        Some(verdict) => with_later(verdict, second),
        None => Ok(None),
    }
}

/// The judgement of stages by that of the first of them and the answer to those after.
fn with_later(
    first: Verdict,
    later: Result<Option<Verdict>, Memory>,
) -> Result<Option<Verdict>, Memory>
    ensures { (limit : ℕ) (front back : List StageData) → first ≡ judgement limit front → IfOk later (Answers limit back)
        → IfOk result (Answers limit (front ++ back)) }
{
    match first {
        Verdict::Accepted => later,
        verdict => Ok(Some(verdict)),
    }
}

/// The judgement of a run of stages, one after another; none where a stage before one of them is known to be refused. It notes
/// the first that it finds refused. Asks the judge once for each stage, up to that one.
pub(crate) fn judge_run<R: Threads + Sync, J: Judge>(
    rt: &R,
    alloc: Global,
    judge: &J,
    run: &Run,
    parts: u32,
) -> Result<Option<Verdict>, Memory>
    ensures { IfOk result (Answers run.now.limit run.now.stages) }
{
    let stages = run.stages();
    let limit = run.limit();
    for (number, stage) in stages.iter().enumerate() {
        if run.is_refused_before(number) {
            return Ok(None);
        }
        match judge.judge_one(rt, alloc, stage, limit, parts)? {
            Verdict::Accepted => {}
            verdict => {
                run.refuse(number);
                return Ok(Some(verdict));
            }
        }
    }
    Ok(Some(Verdict::Accepted))
}

/// The judgement of some stages one after another. Asks the judge once for each, up to the first that isn't accepted.
fn judge_each<R: Threads + Sync, J: Judge>(
    rt: &R,
    alloc: Global,
    judge: &J,
    stages: &[Stage],
    limit: u32,
) -> Result<Verdict, Memory>
    requires { 1 ≤ limit }
    ensures { IfOk result (λ verdict. verdict ≡ judgement limit stages.now) }
{
    for stage in stages {
        match judge.judge_one(rt, alloc, stage, limit, 1)? {
            Verdict::Accepted => {}
            verdict => return Ok(verdict),
        }
    }
    Ok(Verdict::Accepted)
}
