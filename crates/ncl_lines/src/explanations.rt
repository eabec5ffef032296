//! The lines that tell why a cell is an orphan.
ghost use Rattle.std.specs.Prelude.{◌≡◌, ◌<◌, ◌++◌, All, IfOk, OnOk, codes, decimal, length};
ghost use Rattle.ncl_machine.specs.Held.{InRange};
ghost use Rattle.ncl_lines.specs.Line.{line};
ghost use Rattle.ncl_lines.specs.WhyText.{NamesItemsOf, explained_lines, item_words, shown_lines, step_line, step_lines};

use crate::line::{line_of, push_number, push_word};
use itoa::Buffer;
use ncl_base::{Memory, Word};
use ncl_hazard::Explained;
use ncl_machine::Item;
use ncl_netlist::CellId;
use ncl_shape::Pipeline;
use std::alloc::Global;

/// The line for a pipeline of which no run is told, since banks hold words at reset.
pub fn untold_text(alloc: Global) -> Result<Vec<u8>, Memory>
    ensures { IfOk result (λ text. text.items ≡ line (codes "why: not told for data banks")) }
{
    line_of(alloc, b"why: not told for data banks", b"")
}

/// The line for an explanation that has more nodes than the limit.
pub fn past_limit_text(alloc: Global, limit: u32) -> Result<Vec<u8>, Memory>
    ensures { IfOk result (λ text. text.items ≡ line (codes "why: more than " ++ decimal limit ++ codes " nodes")) }
{
    let mut digits = Buffer::new();
    let mut text = Vec::from_slice(alloc, b"why: more than ")?;
    text.extend_from_slice(digits.format(limit).as_bytes())?;
    text.extend_from_slice(b" nodes")?;
    text.extend_from_slice(b"\n")?;
    Ok(text)
}

/// The lines of an explanation: an input and a run over it, step by step, in whose last the cell loses its excitation; or
/// that there is none. Fails where memory is refused. Linear in the lines.
pub fn explained_text(
    alloc: Global,
    pipeline: &Pipeline<'_>,
    cell: CellId,
    told: &Explained,
) -> Result<Vec<u8>, Memory>
    requires cell { cell.0 < length pipeline.now.netlist.cells }
    requires items { NamesItemsOf pipeline.now told.now }
    ensures { IfOk result (λ text. text.items ≡ explained_lines pipeline.now.netlist cell told.now) }
{
    match told {
        Explained::NoWord => line_of(alloc, b"why: no input brings a word that shows it", b""),
        Explained::Shown { input, run } => shown_text(alloc, pipeline, cell, input, run.items()),
    }
}

/// The lines of an input and a run over it. Linear in them.
fn shown_text(
    alloc: Global,
    pipeline: &Pipeline<'_>,
    cell: CellId,
    input: &Word,
    run: &[Item],
) -> Result<Vec<u8>, Memory>
    requires cell { cell.0 < length pipeline.now.netlist.cells }
    requires items { All (InRange pipeline.now) run.now }
    ensures { IfOk result (λ text. text.items ≡ shown_lines pipeline.now.netlist cell input.now run.now) }
{
    let mut text = Vec::from_slice(alloc, b"why: word ")?;
    push_word(&mut text, input)?;
    text.extend_from_slice(b"\n")?;
    push_steps(&mut text, pipeline, run)?;
    let cell = &pipeline.netlist().cells()[cell.0 as usize];
    text.extend_from_slice(b"lost: cell ")?;
    text.extend_from_slice(cell.name.bytes())?;
    text.extend_from_slice(b"\n")?;
    Ok(text)
}

/// Appends a line for each step. Linear in the lines.
pub fn push_steps(text: &mut Vec<u8>, pipeline: &Pipeline<'_>, run: &[Item]) -> Result<(), Memory>
    requires { All (InRange pipeline.now) run.now }
    ensures { OnOk result (text.new.items ≡ text.old.items ++ step_lines pipeline.now.netlist 1 run.now) }
{
    for (place, item) in run.iter().enumerate() {
        push_step(text, pipeline, place as u64 + 1, *item)?;
    }
    Ok(())
}

/// Appends the line of a step of this number.
fn push_step(
    text: &mut Vec<u8>,
    pipeline: &Pipeline<'_>,
    number: u64,
    item: Item,
) -> Result<(), Memory>
    requires { InRange pipeline.now item }
    ensures { OnOk result (text.new.items ≡ text.old.items ++ step_line pipeline.now.netlist number item) }
{
    text.extend_from_slice(b"step ")?;
    push_number(text, number)?;
    text.extend_from_slice(b": ")?;
    push_item(text, pipeline, item)?;
    text.extend_from_slice(b"\n")?;
    Ok(())
}

/// Appends what happens in a step. A bit counts from 1.
fn push_item(text: &mut Vec<u8>, pipeline: &Pipeline<'_>, item: Item) -> Result<(), Memory>
    requires { InRange pipeline.now item }
    ensures { OnOk result (text.new.items ≡ text.old.items ++ item_words pipeline.now.netlist item) }
{
    // The inputs come with their number, which is small.
    let _ = pipeline.inputs();
    match item {
        Item::Cell(cell) => {
            let cell = &pipeline.netlist().cells()[cell.0 as usize];
            text.extend_from_slice(b"cell ")?;
            text.extend_from_slice(cell.name.bytes())?;
        }
        Item::Raise(bit) => {
            text.extend_from_slice(b"raise ")?;
            push_number(text, bit as u64 + 1)?;
        }
        Item::Lower(bit) => {
            text.extend_from_slice(b"lower ")?;
            push_number(text, bit as u64 + 1)?;
        }
        Item::Take => text.extend_from_slice(b"take")?,
        Item::Ready => text.extend_from_slice(b"ready")?,
    }
    Ok(())
}
