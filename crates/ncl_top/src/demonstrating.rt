//! What `demo` replies.
ghost use Rattle.std.specs.Prelude.{◌≡◌, ◌≤◌, ◌++◌, ℕ, IfOk};
ghost use Rattle.ncl_verdict.specs.declared.verdict.Verdict.TheVariants.{Accepted as IsAccepted, Limit as PassesLimit};
ghost use Rattle.ncl_check.specs.Reply.{verdict_on};
ghost use Rattle.ncl_command.specs.declared.command.TheConstants.{MOST_NODES as LIMIT};
ghost use Rattle.ncl_reply.specs.Replies.{Gives};
ghost use Rattle.ncl_top.specs.Demonstrating.{IsDemoNetlist, IsDemoPipeline, IsDemoReply};

use ncl_base::Memory;
use ncl_check::{Judging, PARTS};
use ncl_command::MOST_NODES;
use ncl_compile::{CompileFault, compile};
use ncl_delay::Delays;
use ncl_demo::{demo_models, demo_words};
use ncl_netlist::Netlist;
use ncl_reply::Reply;
use ncl_report::{demo_text, verdict_text};
use ncl_shape::{Pipeline, ShapeFault, shape};
use ncl_sim::simulate;
use ncl_verdict::{Judge, Verdict, judge_par};
use ncl_writer::write_netlist;
use std::alloc::Global;
use std::thread::Threads;

/// The adder of so many bits, as the pipeline that is shown.
#[derive(Drop)]
struct Demo<'a> {
    bits: u32,
    pipeline: Pipeline<'a>,
}

/// Makes the adder of so many bits, compiles and judges it, runs it over eight words in which every item takes the time
/// 1, and replies with its size, the words with their sums, and how the run ends; where a stage passes the usual limit
/// of nodes, with the verdict and the netlist.
///
/// Costs what compiling, the check and the run cost.
pub(crate) fn demonstrate<R: Threads + Sync, J: Judge + Sync>(
    judging: &Judging<'_, R, J>,
    bits: u32,
) -> Result<Reply, Memory>
    requires { (1 ≤ bits) × (bits ≤ 32) }
    ensures { IfOk result (Gives (IsDemoReply bits)) }
{
    let netlist = demo_netlist(judging.alloc, bits)?;
    let demo = demo_of(judging.alloc, &netlist, bits)?;
    judged(judging, &demo)
}

/// The netlist that is compiled from the models of the adder of so many bits.
fn demo_netlist(alloc: Global, bits: u32) -> Result<Netlist, Memory>
    requires { (1 ≤ bits) × (bits ≤ 32) }
    ensures { IfOk result (IsDemoNetlist bits) }
{
    let models = demo_models(alloc, bits)?;
    match compile(alloc, &models) {
        Ok(netlist) => Ok(netlist),
        Err(CompileFault::Memory) => Err(Memory),
        Err(_) => unreachable!(),
    }
}

/// The demo of so many bits, of the pipeline of that netlist.
fn demo_of<'a>(alloc: Global, netlist: &'a Netlist, bits: u32) -> Result<Demo<'a>, Memory>
    requires { IsDemoNetlist bits netlist.now }
    ensures demo { IfOk result (λ demo. IsDemoPipeline demo.bits demo.pipeline) }
    ensures bits { IfOk result (λ demo. demo.bits ≡ bits) }
{
    match shape(alloc, netlist) {
        Ok(pipeline) => Ok(Demo { bits, pipeline }),
        Err(fault) => match fault {
            ShapeFault::Memory => Err(Memory),
            _ => unreachable!(),
        },
    }
}

/// The reply to the demo, once its pipeline is judged.
fn judged<R: Threads + Sync, J: Judge + Sync>(
    judging: &Judging<'_, R, J>,
    demo: &Demo<'_>,
) -> Result<Reply, Memory>
    requires bits { (1 ≤ demo.now.bits) × (demo.now.bits ≤ 32) }
    requires pipeline { IsDemoPipeline demo.now.bits demo.now.pipeline }
    ensures { IfOk result (Gives (IsDemoReply demo.now.bits)) }
{
    let verdict = judge_par(
        judging.rt,
        judging.alloc,
        judging.judge,
        &demo.pipeline,
        MOST_NODES,
        PARTS,
    )?;
    match &verdict {
        Verdict::Accepted => shown(judging.alloc, demo),
        Verdict::Limit { .. } => too_large(judging.alloc, demo, &verdict),
        _ => unreachable!(),
    }
}

/// The reply to a demo whose pipeline is accepted: its run.
fn shown(alloc: Global, demo: &Demo<'_>) -> Result<Reply, Memory>
    requires bits { (1 ≤ demo.now.bits) × (demo.now.bits ≤ 32) }
    requires pipeline { IsDemoPipeline demo.now.bits demo.now.pipeline }
    requires accepted { verdict_on LIMIT demo.now.pipeline ≡ IsAccepted }
    ensures { IfOk result (Gives (IsDemoReply demo.now.bits)) }
{
    let words = demo_words(alloc, demo.bits)?;
    let delays = Delays::unit(alloc);
    let trace = simulate(alloc, &demo.pipeline, &delays, &words)?;
    let text = demo_text(alloc, demo.bits, &demo.pipeline, &trace, &words)?;
    Ok(Reply::Made(0, text))
}

/// The reply to a demo of whose pipeline a stage passes the limit of nodes: the verdict and the netlist.
fn too_large(alloc: Global, demo: &Demo<'_>, verdict: &Verdict) -> Result<Reply, Memory>
    requires pipeline { IsDemoPipeline demo.now.bits demo.now.pipeline }
    requires limit { (stage : ℕ) × (verdict.now ≡ PassesLimit stage) × (verdict_on LIMIT demo.now.pipeline ≡ PassesLimit stage) }
    ensures { IfOk result (Gives (IsDemoReply demo.now.bits)) }
{
    let line = verdict_text(alloc, &demo.pipeline, verdict, MOST_NODES)?;
    let netlist = write_netlist(alloc, demo.pipeline.netlist())?;
    Ok(Reply::Made(6, joined(line, &netlist)?))
}

/// A text with another after it. Costs a copy of the other, and of both where the text has no room.
fn joined(mut text: Vec<u8>, more: &[u8]) -> Result<Vec<u8>, Memory>
    ensures { IfOk result (λ joined. joined.items ≡ text.items ++ more.now) }
{
    text.extend_from_slice(more)?;
    Ok(text)
}
