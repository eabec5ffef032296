//! The lines that tell what a comparison finds.
ghost use Rattle.std.specs.Prelude.{◌≡◌, IfOk};
ghost use Rattle.ncl_match.specs.Circuit.{circuit_of};
ghost use Rattle.ncl_sim_match.specs.Matching.{differ_line, widths_line};

use itoa::Buffer;
use ncl_base::{Memory, Word};
use ncl_blif::Model;
use ncl_match::{first_width, last_width};
use ncl_report::push_word;
use ncl_shape::Pipeline;
use std::alloc::Global;

/// The line for words that have not the same numbers of bits. Fails where memory is refused.
pub(crate) fn widths_text(
    alloc: Global,
    pipeline: &Pipeline,
    models: &[Model],
) -> Result<Vec<u8>, Memory>
    ensures { IfOk result (λ text. text.items ≡ widths_line (circuit_of pipeline.now) models.now) }
{
    let mut digits = Buffer::new();
    let mut text = Vec::from_slice(alloc, b"widths differ: netlist ")?;
    text.extend_from_slice(digits.format(pipeline.inputs().len()).as_bytes())?;
    text.extend_from_slice(b" to ")?;
    text.extend_from_slice(digits.format(pipeline.outputs().len()).as_bytes())?;
    text.extend_from_slice(b", blif ")?;
    text.extend_from_slice(digits.format(first_width(models)).as_bytes())?;
    text.extend_from_slice(b" to ")?;
    text.extend_from_slice(digits.format(last_width(models)).as_bytes())?;
    text.extend_from_slice(b"\n")?;
    Ok(text)
}

/// The line for functions that differ at a word in an output, from 1. Fails where memory is refused. Linear in the word.
pub(crate) fn differ_text(alloc: Global, word: &Word, output: u32) -> Result<Vec<u8>, Memory>
    ensures { IfOk result (λ text. text.items ≡ differ_line word.now output) }
{
    let mut digits = Buffer::new();
    let mut text = Vec::from_slice(alloc, b"differ at word ")?;
    push_word(&mut text, word)?;
    text.extend_from_slice(b", output ")?;
    text.extend_from_slice(digits.format(output).as_bytes())?;
    text.extend_from_slice(b"\n")?;
    Ok(text)
}
