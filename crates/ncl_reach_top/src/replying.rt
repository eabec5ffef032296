//! What is replied to the bytes of a netlist.
ghost use Rattle.std.specs.Prelude.{◌≡◌, ◌<◌, ◌≤◌, ◌++◌, Some, None, IfOk, OnOk, IsFalse, IsTrue, codes, decimal, length};
ghost use Rattle.ncl_netlist.specs.Netlist.{NetlistData};
ghost use Rattle.ncl_check.specs.Headline.{IsDelayInsensitiveText};
ghost use Rattle.ncl_check.specs.declared.reply.Outcome.TheVariants.{Accepted, Refused};
ghost use Rattle.ncl_check.specs.Reply.{verdict_on};
ghost use Rattle.ncl_verdict.specs.declared.verdict.Verdict.TheVariants.{Accepted as AllSound};
ghost use Rattle.ncl_lines.specs.Line.{line, cell_name};
ghost use Rattle.ncl_reaching.specs.Answers.{Answers, GoesWrongBy};
ghost use Rattle.ncl_reaching.specs.declared.reaching.Reached.TheVariants.{Limit as PastLimit, Never as NoFault, Shown as FaultShown};
ghost use Rattle.ncl_reach_top.specs.Reply.{IsPipelineReply, IsReachReply, IsWrongForInput, NamesItemsOf, end_line, line_on, run_lines, with_input};

use ncl_base::{Memory, Word};
use ncl_check::{Outcome, Reply, netlist_in, pipeline_in, refused};
use ncl_lines::{line_of, push_number, push_steps, push_word, verdict_text};
use ncl_netlist::CellId;
use ncl_reaching::{Reached, WrongRun, reach};
use ncl_shape::Pipeline;
use ncl_verdict::{Verdict, judge};
use std::alloc::Global;

/// What `ncl_reach` replies to the bytes of a file: the first thing that keeps them from being the text of a pipeline; or whether
/// an input brings to some stage a word at which that stage shows a fault, asked by diagrams with at most `limit` nodes.
///
/// An acceptance says that the circuit works at every gate delay: clause `headline`. A refusal says that it doesn't, and names an
/// input: clause `refusal`. Where banks hold words at reset and no input brings a fault, the pipeline is accepted if each stage is
/// sound at all words, and else nothing is known of it. Costs as reading the bytes, finding the shape and `reach` do.
pub fn reply(alloc: Global, bytes: &[u8], limit: u32) -> Result<Reply, Memory>
    requires { 1 ≤ limit }
    ensures reply { IfOk result (λ reply. IsReachReply limit bytes.now reply.outcome reply.text.items) }
    ensures headline { IfOk result (λ reply. reply.outcome ≡ Accepted → IsDelayInsensitiveText bytes.now) }
    ensures refusal { IfOk result (λ reply. reply.outcome ≡ Refused → IsWrongForInput limit bytes.now reply.text.items) }
{
    let netlist = match netlist_in(alloc, bytes) {
        Ok(netlist) => netlist,
        Err(refusal) => return refused(refusal),
    };
    match pipeline_in(alloc, &netlist) {
        Ok(pipeline) => answered(alloc, &pipeline, limit),
        Err(refusal) => refused(refusal),
    }
}

/// The reply to a pipeline.
fn answered(alloc: Global, pipeline: &Pipeline, limit: u32) -> Result<Reply, Memory>
    requires { 1 ≤ limit }
    ensures { IfOk result (λ reply. IsPipelineReply limit pipeline.now reply.outcome reply.text.items) }
{
    match reach(alloc, pipeline, limit)? {
        Reached::Never => never(alloc, pipeline, limit),
        Reached::Shown {
            input,
            verdict,
            run,
        } => {
            let wrong = Wrong {
                input,
                verdict,
                run,
            };
            shown(alloc, pipeline, &wrong, limit)
        }
        Reached::Limit { stage } => past_limit(alloc, pipeline, stage, limit),
    }
}

/// The reply to a pipeline of which no input brings a fault. Where a bank holds a word at reset each stage is judged by itself.
fn never(alloc: Global, pipeline: &Pipeline, limit: u32) -> Result<Reply, Memory>
    requires limit { 1 ≤ limit }
    requires answers { Answers pipeline.now limit NoFault }
    ensures { IfOk result (λ reply. IsPipelineReply limit pipeline.now reply.outcome reply.text.items) }
{
    if pipeline.data_banks() == 0 {
        return accepted(alloc, pipeline, limit);
    }
    if is_sound(alloc, pipeline, limit)? {
        return accepted(alloc, pipeline, limit);
    }
    let text = line_of(alloc, b"held words: no input brings a fault", b"")?;
    Ok(Reply {
        outcome: Outcome::Unjudged,
        text,
    })
}

/// The reply to a pipeline that is accepted.
fn accepted(alloc: Global, pipeline: &Pipeline, limit: u32) -> Result<Reply, Memory>
    ensures { (why : IsPipelineReply limit pipeline.now Accepted (line_on limit pipeline.now AllSound)) → IfOk result (λ reply. IsPipelineReply limit pipeline.now reply.outcome reply.text.items) }
{
    let text = verdict_text(alloc, pipeline, &Verdict::Accepted, limit)?;
    Ok(Reply {
        outcome: Outcome::Accepted,
        text,
    })
}

/// Whether each stage by itself is accepted, with at most so many nodes.
fn is_sound(alloc: Global, pipeline: &Pipeline, limit: u32) -> Result<bool, Memory>
    requires { 1 ≤ limit }
    ensures yes { IfOk result (λ sound. IsTrue sound → verdict_on limit pipeline.now ≡ AllSound) }
    ensures no { IfOk result (λ sound. IsFalse sound → verdict_on limit pipeline.now ≡ AllSound → ⊥) }
{
    match judge(alloc, pipeline, limit)? {
        Verdict::Accepted => Ok(true),
        _ => Ok(false),
    }
}

/// What `reach` tells of an input that brings to a stage a word which shows a fault.
#[derive(Drop)]
struct Wrong {
    input: Word,
    verdict: Verdict,
    run: Option<WrongRun>,
}

/// The reply to a pipeline of which an input brings to a stage a word that shows a fault: the line of that verdict, the input at
/// its end, and the run, if one is told. Linear in the lines.
fn shown(alloc: Global, pipeline: &Pipeline, wrong: &Wrong, limit: u32) -> Result<Reply, Memory>
    requires answers { Answers pipeline.now limit (FaultShown wrong.now.input wrong.now.verdict wrong.now.run) }
    requires wrong { GoesWrongBy pipeline.now wrong.now.input wrong.now.verdict wrong.now.run }
    ensures { IfOk result (λ reply. IsPipelineReply limit pipeline.now reply.outcome reply.text.items) }
{
    pipeline.facts();
    let line = verdict_text(alloc, pipeline, &wrong.verdict, limit)?;
    let mut text = behind(line, &wrong.input)?;
    if let Some(run) = &wrong.run {
        push_run(&mut text, pipeline, &wrong.verdict, run)?;
    }
    Ok(Reply {
        outcome: Outcome::Refused,
        text,
    })
}

/// Appends the lines of a run that goes wrong. Linear in them.
fn push_run(
    text: &mut Vec<u8>,
    pipeline: &Pipeline,
    verdict: &Verdict,
    run: &WrongRun,
) -> Result<(), Memory>
    requires { NamesItemsOf pipeline.now run.now }
    ensures { OnOk result (text.new.items ≡ text.old.items ++ run_lines pipeline.now.netlist verdict.now (Some run.now)) }
{
    push_steps(text, pipeline, run.steps.items())?;
    match run.lost {
        Some(cell) => push_lost(text, pipeline, cell),
        None => push_end(text, verdict),
    }
}

/// Appends the line of a cell that loses its excitation.
fn push_lost(text: &mut Vec<u8>, pipeline: &Pipeline, cell: CellId) -> Result<(), Memory>
    requires { cell.0 < length pipeline.now.netlist.cells }
    ensures { OnOk result (text.new.items ≡ text.old.items ++ line (codes "lost: cell " ++ cell_name pipeline.now.netlist cell.0)) }
{
    let cell = &pipeline.netlist().cells()[cell.0 as usize];
    text.extend_from_slice(b"lost: cell ")?;
    text.extend_from_slice(cell.name.bytes())?;
    text.extend_from_slice(b"\n")?;
    Ok(())
}

/// Appends the line of an output that is illegal, or of a bank that stays full.
fn push_end(text: &mut Vec<u8>, verdict: &Verdict) -> Result<(), Memory>
    ensures { (n : NetlistData) → OnOk result (text.new.items ≡ text.old.items ++ end_line n verdict.now None) }
{
    match verdict {
        Verdict::BothRails { output, .. } => push_numbered(text, b"illegal: output ", *output),
        Verdict::NoRail { stage, .. } => push_numbered(text, b"stops: bank ", *stage),
        _ => Ok(()),
    }
}

/// Appends a line that ends with a number.
fn push_numbered(text: &mut Vec<u8>, front: &[u8], number: u32) -> Result<(), Memory>
    ensures { OnOk result (text.new.items ≡ text.old.items ++ line (front.now ++ decimal number)) }
{
    text.extend_from_slice(front)?;
    push_number(text, number as u64)?;
    text.extend_from_slice(b"\n")?;
    Ok(())
}

/// A line with an input at its end, before the line feed. Linear in the input.
fn behind(line: Vec<u8>, input: &Word) -> Result<Vec<u8>, Memory>
    ensures { IfOk result (λ text. text.items ≡ with_input line.items input.now) }
{
    let mut text = line;
    text.truncate(text.len().saturating_sub(1));
    text.extend_from_slice(b", input ")?;
    push_word(&mut text, input)?;
    text.extend_from_slice(b"\n")?;
    Ok(text)
}

/// The reply to a pipeline of which a question has more nodes than the limit.
fn past_limit(alloc: Global, pipeline: &Pipeline, stage: u32, limit: u32) -> Result<Reply, Memory>
    requires { Answers pipeline.now limit (PastLimit stage) }
    ensures { IfOk result (λ reply. IsPipelineReply limit pipeline.now reply.outcome reply.text.items) }
{
    let text = verdict_text(alloc, pipeline, &Verdict::Limit { stage }, limit)?;
    Ok(Reply {
        outcome: Outcome::Unjudged,
        text,
    })
}
