//! The lines that tell a demo.
ghost use Rattle.std.specs.Prelude.{◌≡◌, ◌++◌, IfOk, OnOk};
ghost use Rattle.ncl_report.specs.DemoText.{demo_lines, pair_line, size_line, word_lines};
ghost use Rattle.ncl_report.specs.TraceText.{NamesItemOf};

use crate::traces::{push_end_line, push_marks};
use ncl_base::{Memory, Word};
use ncl_lines::{push_number, push_word};
use ncl_shape::Pipeline;
use ncl_sim::{Taken, Trace};
use std::alloc::Global;

/// The lines that tell a demo of so many bits, whose pipeline is accepted: how large it is, each word that was offered
/// with what was delivered for it, and how the run ends. Fails where memory is refused. Linear in the lines.
pub fn demo_text(
    alloc: Global,
    bits: u32,
    pipeline: &Pipeline<'_>,
    trace: &Trace,
    offered: &[Word],
) -> Result<Vec<u8>, Memory>
    requires { NamesItemOf pipeline.now trace.now.end }
    ensures { IfOk result (λ text. text.items ≡ demo_lines bits pipeline.now trace.now offered.now) }
{
    let mut text = size_text(alloc, bits, pipeline)?;
    push_words(&mut text, offered, trace.delivered.items())?;
    push_end_line(&mut text, pipeline, trace, offered.len())?;
    Ok(text)
}

/// The line that tells how large an accepted adder of so many bits is.
fn size_text(alloc: Global, bits: u32, pipeline: &Pipeline<'_>) -> Result<Vec<u8>, Memory>
    ensures { IfOk result (λ text. text.items ≡ size_line bits pipeline.now) }
{
    let stages = pipeline.stages().len() as u64;
    let mut text = Vec::from_slice(alloc, b"demo ")?;
    push_number(&mut text, bits as u64)?;
    text.extend_from_slice(b" banks=")?;
    push_number(&mut text, stages + 1)?;
    text.extend_from_slice(b" stages=")?;
    push_number(&mut text, stages)?;
    text.extend_from_slice(b" cells=")?;
    push_number(&mut text, pipeline.netlist().cells().len() as u64)?;
    text.extend_from_slice(b" accepted\n")?;
    Ok(text)
}

/// Appends a line for each word that was offered and has its delivery. Linear in the lines.
fn push_words(text: &mut Vec<u8>, offered: &[Word], delivered: &[Taken]) -> Result<(), Memory>
    ensures { OnOk result (text.new.items ≡ text.old.items ++ word_lines offered.now delivered.now) }
{
    for place in 0..offered.len().min(delivered.len()) {
        push_pair(text, &offered[place], &delivered[place])?;
    }
    Ok(())
}

/// Appends the line of a word that was offered and of what was delivered for it.
fn push_pair(text: &mut Vec<u8>, word: &Word, taken: &Taken) -> Result<(), Memory>
    ensures { OnOk result (text.new.items ≡ text.old.items ++ pair_line (word.now, taken.now)) }
{
    push_word(text, word)?;
    text.extend_from_slice(b" ")?;
    push_marks(text, &taken.pair)?;
    text.extend_from_slice(b"\n")?;
    Ok(())
}
