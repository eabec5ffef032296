//! The line that tells a verdict on a pipeline.
ghost use Rattle.std.specs.Prelude.{◌≡◌, ◌+◌, ◌<◌, ◌^◌, ◌++◌, IfOk, codes, decimal, length};
ghost use Rattle.ncl_lines.specs.Line.{line};
ghost use Rattle.ncl_lines.specs.VerdictText.{verdict_line, refusal, NamesCellOf};

use crate::line::{limit_text, push_word};
use itoa::Buffer;
use ncl_base::{Memory, Word};
use ncl_shape::Pipeline;
use ncl_verdict::Verdict;
use std::alloc::Global;

/// The line that tells a verdict on a pipeline, of which each stage was judged with at most `limit` nodes.
/// Fails where memory is refused. Linear in the line.
pub fn verdict_text(
    alloc: Global,
    pipeline: &Pipeline<'_>,
    verdict: &Verdict,
    limit: u32,
) -> Result<Vec<u8>, Memory>
    requires { NamesCellOf pipeline.now.netlist verdict.now }
    ensures { IfOk result (λ text. text.items ≡ verdict_line pipeline.now.netlist (length pipeline.now.stages) limit verdict.now) }
{
    let mut digits = Buffer::new();
    let netlist = pipeline.netlist();
    match verdict {
        Verdict::Accepted => accepted(alloc, pipeline.stages().len(), netlist.cells().len()),
        Verdict::BothRails {
            stage,
            output,
            word,
        } => {
            let output = digits.format(*output).as_bytes();
            refusal(alloc, *stage, b"both rails, output ", output, word)
        }
        Verdict::NoRail {
            stage,
            output,
            word,
        } => {
            let output = digits.format(*output).as_bytes();
            refusal(alloc, *stage, b"no rail, output ", output, word)
        }
        Verdict::Incomplete { stage, bit, word } => {
            let bit = digits.format(*bit).as_bytes();
            refusal(alloc, *stage, b"incomplete, bit ", bit, word)
        }
        Verdict::Orphan { stage, cell, word } => {
            let cell = &netlist.cells()[cell.0 as usize];
            refusal(alloc, *stage, b"orphan, cell ", cell.name.bytes(), word)
        }
        Verdict::Limit { stage } => limit_text(alloc, b"limit stage ", *stage, limit),
    }
}

/// The line for an accepted netlist, which has one bank more than stages.
fn accepted(alloc: Global, stages: usize, cells: usize) -> Result<Vec<u8>, Memory>
    requires { stages < 2 ^ 32 }
    ensures { IfOk result (λ text. text.items
        ≡ line (codes "accepted banks=" ++ decimal (stages + 1) ++ codes " stages=" ++ decimal stages
        ++ codes " cells=" ++ decimal cells)) }
{
    let mut digits = Buffer::new();
    let mut text = Vec::from_slice(alloc, b"accepted banks=")?;
    text.extend_from_slice(digits.format(stages + 1).as_bytes())?;
    text.extend_from_slice(b" stages=")?;
    text.extend_from_slice(digits.format(stages).as_bytes())?;
    text.extend_from_slice(b" cells=")?;
    text.extend_from_slice(digits.format(cells).as_bytes())?;
    text.extend_from_slice(b"\n")?;
    Ok(text)
}

/// The line for a stage with a fault.
fn refusal(
    alloc: Global,
    stage: u32,
    fault: &[u8],
    place: &[u8],
    word: &Word,
) -> Result<Vec<u8>, Memory>
    ensures { IfOk result (λ text. text.items ≡ refusal stage fault.now place.now word.now) }
{
    let mut digits = Buffer::new();
    let mut text = Vec::from_slice(alloc, b"refused stage ")?;
    text.extend_from_slice(digits.format(stage).as_bytes())?;
    text.extend_from_slice(b": ")?;
    text.extend_from_slice(fault)?;
    text.extend_from_slice(place)?;
    text.extend_from_slice(b", word ")?;
    push_word(&mut text, word)?;
    text.extend_from_slice(b"\n")?;
    Ok(text)
}
