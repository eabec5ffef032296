//! The simulator.
ghost use Rattle.std.specs.Prelude.{◌≡◌, ◌≤◌, ◌*◌, ◌^◌, All, IfOk, length, map};
ghost use Rattle.ncl_faults.specs.Faults.{IsSound};
ghost use Rattle.ncl_machine.specs.Run.{AreWordsOf};
ghost use Rattle.ncl_sim.specs.Running.{Tells};
ghost use Rattle.ncl_sim.specs.TimedRun.{DeliversAll, IsTimedRun, most_steps, takes_in};
ghost use Rattle.ncl_delay.specs.declared.fired.Fired.{Fired as FiredStep};
ghost use Rattle.ncl_sim.specs.declared.trace.Taken.{Taken as TakenPair};
ghost use Rattle.ncl_sim.specs.declared.trace.End.TheVariants.{Quiet};

use crate::course::Course;
use crate::run::Run;
use crate::trace::{End, Taken, Trace};
use ncl_base::{Items, Memory, Word};
use ncl_delay::{Delays, Fired, MOST_WORDS};
use ncl_machine::{Item, Pair};
use ncl_shape::Pipeline;
use std::alloc::Global;

/// The same pair. Linear in its bits.
fn copied(pair: &Pair) -> Result<Pair, Memory>
    ensures { IfOk result (λ copy. copy ≡ pair.now) }
{
    let rail0 = pair.rail0.clone()?;
    let rail1 = pair.rail1.clone()?;
    Ok(Pair { rail0, rail1 })
}

/// The pairs that the sink took, each with the time of its step. Linear in the steps and the pairs.
fn delivered(alloc: Global, steps: &[Fired], pairs: &[Pair]) -> Result<Vec<Taken>, Memory>
    requires { length (takes_in steps.now) ≡ length pairs.now }
    ensures times { IfOk result (λ taken. map (λ (x : TakenPair). x.time) taken.items ≡ map (λ (f : FiredStep). f.time) (takes_in steps.now)) }
    ensures pairs { IfOk result (λ taken. map (λ (x : TakenPair). x.pair) taken.items ≡ pairs.now) }
{
    let mut taken = Vec::with_capacity(alloc, pairs.len())?;
    for fired in steps {
        if let Item::Take = fired.item {
            let pair = copied(&pairs[taken.len()])?;
            taken.push(Taken {
                time: fired.time,
                pair,
            })?;
        }
    }
    Ok(taken)
}

/// The trace of a run, with how it ended. Linear in the steps.
fn trace_of(alloc: Global, run: Run, end: End) -> Result<Trace, Memory>
    requires { length (takes_in run.steps.items) ≡ length run.state.delivered }
    ensures { IfOk result (Tells run end) }
{
    let taken = delivered(alloc, &run.steps, run.state.delivered())?;
    let Run {
        state: _,
        agenda: _,
        steps,
    } = run;
    Ok(Trace {
        steps: Items::from_vec(steps),
        delivered: Items::from_vec(taken),
        end,
    })
}

/// The trace of the run of a course over some words. `most` is the most steps of a run.
fn run_of(alloc: Global, course: &Course, words: &[Word], most: u64) -> Result<Trace, Memory>
    requires words { AreWordsOf course.now.pipeline words.now }
    requires most { most ≡ most_steps course.now.pipeline words.now }
    requires few { most ≤ 2 ^ 43 }
    ensures { IfOk result (IsTimedRun course.now.pipeline course.now.delays words.now) }
{
    let mut run = Run::begin(alloc, course, words)?;
    let end = run.finish(course, most)?;
    trace_of(alloc, run, end)
}

/// Runs a pipeline over some words, each of the width of the first bank, with delays: each item steps when it has been
/// enabled for its delay, and of those that are due at one time the one of the least number first.
///
/// Answers the steps, what was delivered and how the run ends. Fails where memory is refused. A pipeline of sound stages
/// ends quiet, with every word delivered that is due, at any delays: those that its banks hold at reset, the last bank's
/// first, and then those offered.
///
/// It takes memory for a row of each cell and for the steps, of which there are at most twice as many as words due times
/// nets. After each step it looks at what reads the net that has changed. A look at a cell reads the cell's row, the values
/// of five nets, and whether the cell waits. What begins to wait takes constant time where it is due within 63 units of
/// time, or else the logarithm of how many items wait.
pub fn simulate(
    alloc: Global,
    pipeline: &Pipeline,
    delays: &Delays,
    words: &[Word],
) -> Result<Trace, Memory>
    requires few { length words.now ≤ MOST_WORDS }
    requires wide { AreWordsOf pipeline.now words.now }
    ensures run { IfOk result (IsTimedRun pipeline.now delays.now words.now) }
    ensures quiet { All IsSound pipeline.now.stages → IfOk result (λ trace. trace.end ≡ Quiet) }
    ensures delivered { All IsSound pipeline.now.stages → IfOk result (DeliversAll pipeline.now words.now) }
{
    pipeline.facts();
    let course = Course::of(alloc, pipeline, delays)?;
    let nets = pipeline.netlist().nets().len();
    let due = pipeline.data_banks() + words.len();
    let most = 2 * due as u64 * nets as u64;
    run_of(alloc, &course, words, most)
}
