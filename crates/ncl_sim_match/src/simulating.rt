//! What `sim` replies to a pipeline, delays and words.
ghost use Rattle.std.specs.Prelude.{◌≡◌, ◌≤◌, IfOk, length};
ghost use Rattle.ncl_machine.specs.Run.{AreWordsOf};
ghost use Rattle.ncl_delay.specs.declared.word_text.TheConstants.{MOST_WORDS};
ghost use Rattle.ncl_reader.specs.GraphicNames.{HasGraphicNames};
ghost use Rattle.ncl_reply.specs.Replies.{Gives};
ghost use Rattle.ncl_sim_match.specs.Simulating.{IsRunReply, end_status};

use ncl_base::{Memory, Word};
use ncl_delay::Delays;
use ncl_reply::Reply;
use ncl_report::trace_text;
use ncl_shape::Pipeline;
use ncl_sim::{End, simulate};
use ncl_vcd::dump;
use std::alloc::Global;

/// The reply to words that are offered to a pipeline with delays: its run, told by a value change dump or by its lines.
pub(crate) fn run_reply(
    alloc: Global,
    pipeline: &Pipeline,
    delays: &Delays,
    words: &[Word],
    vcd: bool,
) -> Result<Reply, Memory>
    requires names { HasGraphicNames pipeline.now.netlist }
    requires few { length words.now ≤ MOST_WORDS }
    requires wide { AreWordsOf pipeline.now words.now }
    ensures { IfOk result (Gives (IsRunReply pipeline.now delays.now words.now vcd)) }
{
    pipeline.facts();
    let trace = simulate(alloc, pipeline, delays, words)?;
    let due = pipeline.data_banks() + words.len();
    let is_whole = trace.delivered.items().len() == due;
    let status = end_status(trace.end, is_whole);
    if vcd {
        let text = dump(alloc, pipeline, words, trace.steps.items())?;
        return Ok(Reply::Made(status, text));
    }
    let text = trace_text(alloc, pipeline, &trace, due)?;
    Ok(Reply::Made(status, text))
}

/// The status of a run that ends so, and has delivered as many words as are due, or not.
fn end_status(end: End, is_whole: bool) -> u8
    ensures { result ≡ end_status end is_whole }
{
    match end {
        End::Quiet if is_whole => 0,
        End::Quiet | End::Hazard { .. } => 1,
        End::Over => 8,
    }
}
