//! Whether an input brings a word that shows a fault.
ghost use Rattle.std.specs.Prelude.{◌≡◌, ◌<◌, ◌≤◌, ◌-◌, All, IfOk, length, true};
ghost use Rattle.ncl_shape.specs.Stage.{nets_of};
ghost use Rattle.ncl_faults.specs.Faults.{IsSound};
ghost use Rattle.ncl_verdict.specs.Judgement.{verdict_of};
ghost use Rattle.ncl_hazard.specs.Trying.{HasNoDataBank};
ghost use Rattle.ncl_hazard.specs.Why.{brings};
ghost use Rattle.ncl_reaching.specs.Answers.{Answers, IsFaultShown, IsRunTold, Means};
ghost use Rattle.ncl_reaching.specs.Asking.{IsFaultOf, fault_of};
ghost use Rattle.ncl_reaching.specs.Breaking.{BringsFault};
ghost use Rattle.ncl_reaching.specs.Evaluating.{word_on};

use crate::asking::ask;
use crate::breaking::{Way, WrongRun, breaking_run};
use crate::chain::{follow, source};
use crate::evaluating::word_on;
use crate::fault::{Fault, Found};
use crate::telling::verdict_of;
use ncl_base::{Memory, Word};
use ncl_shape::{Pipeline, Stage};
use ncl_space::SpaceFault;
use ncl_verdict::{Verdict, judge_stage};
use std::alloc::Global;

/// Whether an input of a pipeline brings to some stage a word at which the stage shows a fault. Stages count from 1.
#[derive(Debug, Drop)]
pub enum Reached {
    /// No input does, to any stage.
    Never,
    /// The least input, as a binary number, that brings to a stage a word which shows its first fault; the verdict tells the stage,
    /// the fault and the word. The run, over this input alone, goes wrong; it is told where no bank is reset to DATA.
    Shown {
        input: Word,
        verdict: Verdict,
        run: Option<WrongRun>,
    },
    /// The functions of a question about the stage have more nodes than the limit.
    Limit {
        stage: u32,
    },
}

/// Whether an input of a pipeline brings to some stage a word at which the stage shows a fault: of the first stage of which one
/// does, the first fault in the order of the judgement, with the least input.
///
/// A stage that is accepted by itself is asked nothing more, so a pipeline that `judge` accepts costs what that costs, and a copy
/// of its gates. Any other is asked over the inputs of the pipeline, by diagrams with at most `limit` nodes: for each input bit
/// of the stage twice, and for each gate of it once, it goes over the gates of the stages up to this one that the change reaches.
/// The run is found in time linear in nets, cells and pins, but where an output has no rail, in some rounds over all cells. An error is
/// want of memory.
pub fn reach(alloc: Global, pipeline: &Pipeline, limit: u32) -> Result<Reached, Memory>
    requires { 1 ≤ limit }
    ensures answers { IfOk result (Answers pipeline.now limit) }
    ensures means { IfOk result (Means pipeline.now) }
{
    pipeline.facts();
    let mut chain = source(alloc, pipeline)?;
    for stage in pipeline.stages() {
        chain = follow(alloc, chain, stage)?;
        if is_sound(alloc, stage, limit)? {
            continue;
        }
        let found = match ask(alloc, &chain, stage, limit) {
            Ok(found) => found,
            Err(SpaceFault::Full) => {
                return Ok(Reached::Limit {
                    stage: stage.number,
                });
            }
            Err(SpaceFault::Memory) => return Err(Memory),
        };
        if let Some(found) = found {
            return shown(alloc, pipeline, &chain, stage, found);
        }
    }
    Ok(Reached::Never)
}

/// Whether a stage by itself is accepted, with at most so many nodes.
fn is_sound(alloc: Global, stage: &Stage, limit: u32) -> Result<bool, Memory>
    requires { 1 ≤ limit }
    ensures { IfOk result (λ answer. answer ≡ true → IsSound stage.now) }
{
    let verdict = judge_stage(alloc, stage, limit)?;
    Ok(matches!(verdict, Verdict::Accepted))
}

/// The answer of a fault that is found of a stage at the end of a chain.
fn shown(
    alloc: Global,
    pipeline: &Pipeline,
    chain: &Stage,
    stage: &Stage,
    found: Found,
) -> Result<Reached, Memory>
    requires fault { IsFaultOf stage.now (fault_of found.fault) }
    requires wide { length found.input ≡ length chain.now.inputs }
    requires within { All (λ net. net < length pipeline.now.netlist.nets) (nets_of chain.now.inputs chain.now.cells) }
    requires number { 1 ≤ stage.now.number }
    requires word { word_on chain.now found.input stage.now.inputs ≡ brings pipeline.now.stages (stage.now.number - 1) found.input }
    requires brought { HasNoDataBank pipeline.now → BringsFault pipeline.now (stage.now.number - 1) found.input (fault_of found.fault) }
    ensures { IfOk result (IsFaultShown pipeline.now (stage.now.number - 1) (fault_of found.fault) found.input (verdict_of stage.now (fault_of found.fault) (word_on chain.now found.input stage.now.inputs))) }
{
    stage.facts();
    let nets = pipeline.netlist().nets().len();
    let word = word_on(alloc, chain, nets, &found.input, stage.inputs.items())?;
    let way = Way {
        pipeline,
        before: stage.number as usize - 1,
        input: &found.input,
    };
    let run = run_told(alloc, &way, found.fault, &word)?;
    let verdict = verdict_of(stage, found.fault, word);
    Ok(Reached::Shown {
        input: found.input,
        verdict,
        run,
    })
}

/// The run that is told of a fault that an input brings to the stage after so many others, where no bank is reset to DATA.
fn run_told(alloc: Global, way: &Way, fault: Fault, word: &Word) -> Result<Option<WrongRun>, Memory>
    requires brought { HasNoDataBank way.now.pipeline.now → BringsFault way.now.pipeline.now way.now.before way.now.input.now (fault_of fault) }
    requires word { word.now ≡ brings way.now.pipeline.now.stages way.now.before way.now.input.now }
    ensures { IfOk result (IsRunTold way.now.pipeline.now way.now.before way.now.input.now (fault_of fault)) }
{
    if way.pipeline.data_banks() != 0 {
        return Ok(None);
    }
    let run = breaking_run(alloc, way, fault, word)?;
    Ok(Some(run))
}
