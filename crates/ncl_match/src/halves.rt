//! Runs of outputs, split in halves for several threads.
ghost use Rattle.std.specs.Prelude.{◌+◌, ◌<◌, IfOk};
ghost use Rattle.std.specs.Thread.{IsSync};
ghost use Rattle.ncl_match.specs.Question.{CanRun, RunAnswers};

use crate::answer::RunAnswer;
use crate::asking::Ask;
use crate::joining::{joined, run_of};
use ncl_base::Memory;
use std::alloc::Global;
use std::thread::{Threads, join};

/// The answer to the outputs after `low` up to `high`, by at most so many threads.
#[cycle(calls)]
pub(crate) fn compare_halves<R: Threads + Sync, Q: Ask + Sync>(
    rt: &R,
    alloc: Global,
    asked: &Q,
    low: u32,
    high: u32,
    parts: u32,
) -> Result<RunAnswer, Memory>
    requires { CanRun (Q.question asked.now) low high }
    ensures { IfOk result (RunAnswers (Q.question asked.now) low high) }
{
    if parts < 2 || high - low < 2 {
        return compare_run(alloc, asked, low, high);
    }
    let middle = low + (high - low) / 2;
    let few = parts / 2;
    let many = parts - few;
    let (first, second) = join(
        rt,
        || -> Result<RunAnswer, Memory>
            requires { IsSync R.row × IsSync Q.row × CanRun (Q.question asked.now) low middle }
            ensures { IfOk result (RunAnswers (Q.question asked.entry.now) low middle) }
        { compare_halves(rt, alloc, asked, low, middle, few) },
        || -> Result<RunAnswer, Memory>
            requires { IsSync R.row × IsSync Q.row × CanRun (Q.question asked.now) middle high }
            ensures { IfOk result (RunAnswers (Q.question asked.entry.now) middle high) }
        { compare_halves(rt, alloc, asked, middle, high, many) },
    );
    let first = first?;
    let second = second?;
    Ok(joined(first, second))
}

/// The answer to the outputs after `low` up to `high`, one after another. Asks once for each output.
fn compare_run<Q: Ask>(alloc: Global, asked: &Q, low: u32, high: u32) -> Result<RunAnswer, Memory>
    requires { CanRun (Q.question asked.now) low high }
    ensures { IfOk result (RunAnswers (Q.question asked.now) low high) }
{
    let mut told = RunAnswer::Same;
    for output in low..high {
        let answer = asked.ask(alloc, output + 1)?;
        told = joined(told, run_of(answer, output + 1));
    }
    Ok(told)
}
