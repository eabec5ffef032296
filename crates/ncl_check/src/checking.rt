//! The check of a netlist.
ghost use Rattle.std.specs.Prelude.{◌≡◌, ◌≤◌, IfOk};
ghost use Rattle.ncl_check.specs.Reply.{IsCheckReply, IsVerdictText, outcome_of, verdict_on};
ghost use Rattle.ncl_check.specs.Headline.{IsDelayInsensitiveText};
ghost use Rattle.ncl_check.specs.Refusal.{IsWrongText};
ghost use Rattle.ncl_check.specs.declared.reply.Outcome.TheVariants.{Accepted, Refused};

use crate::explaining::why_text;
use crate::judging::Judging;
use crate::no_pipeline::refused;
use crate::reply::{Outcome, Reply};
use crate::text::{netlist_in, pipeline_in};
use ncl_base::Memory;
use ncl_lines::verdict_text;
use ncl_shape::Pipeline;
use ncl_verdict::{Judge, judge_par};
use std::thread::Threads;

/// The most threads that judge stages of one pipeline.
pub const PARTS: u32 = 4;

/// What `check` replies to the bytes of a file: the first thing that keeps them from being a netlist, the
/// first rule of shape that the netlist breaks, or the judgement of its pipeline, each of whose stages may have
/// at most `limit` nodes of diagrams; and, with `why`, a run that shows the orphan that a judgement names.
///
/// An acceptance says that the circuit works at every gate delay: clause `headline`. A refusal says that it doesn't,
/// where an input brings the word that is told to its stage: clause `refusal`. Fails where memory is refused, and then
/// only. Linear in the bytes and cells but for look-ups of names and the judgement, which goes
/// through each stage once, and again from each of its bits and gates on. The stages are judged by up to four threads.
pub fn check<R: Threads + Sync, J: Judge + Sync>(
    judging: &Judging<'_, R, J>,
    bytes: &[u8],
    limit: u32,
    why: bool,
) -> Result<Reply, Memory>
    requires { 1 ≤ limit }
    ensures reply { IfOk result (λ reply. IsCheckReply limit why bytes.now reply.outcome reply.text.items) }
    ensures headline { IfOk result (λ reply. reply.outcome ≡ Accepted → IsDelayInsensitiveText bytes.now) }
    ensures refusal { IfOk result (λ reply. reply.outcome ≡ Refused → IsWrongText limit bytes.now reply.text.items) }
{
    let netlist = match netlist_in(judging.alloc, bytes) {
        Ok(netlist) => netlist,
        Err(refusal) => return refused(refusal),
    };
    match pipeline_in(judging.alloc, &netlist) {
        Ok(pipeline) => judged(judging, &pipeline, limit, why),
        Err(refusal) => refused(refusal),
    }
}

/// The reply to a pipeline: its judgement, and, with `why`, what explains an orphan.
fn judged<R: Threads + Sync, J: Judge + Sync>(
    judging: &Judging<'_, R, J>,
    pipeline: &Pipeline,
    limit: u32,
    why: bool,
) -> Result<Reply, Memory>
    requires { 1 ≤ limit }
    ensures outcome { IfOk result (λ reply. reply.outcome ≡ outcome_of (verdict_on limit pipeline.now)) }
    ensures text { IfOk result (λ reply. IsVerdictText why limit pipeline.now reply.text.items) }
{
    pipeline.facts();
    let verdict = judge_par(
        judging.rt,
        judging.alloc,
        judging.judge,
        pipeline,
        limit,
        PARTS,
    )?;
    let outcome = Outcome::of(&verdict);
    let mut text = verdict_text(judging.alloc, pipeline, &verdict, limit)?;
    if !why {
        return Ok(Reply { outcome, text });
    }
    let lines = why_text(judging.alloc, pipeline, &verdict, limit)?;
    text.extend_from_slice(&lines)?;
    Ok(Reply { outcome, text })
}
