//! The lines that tell a run.
ghost use Rattle.std.specs.Prelude.{◌≡◌, ◌+◌, ◌<◌, ◌++◌, ◌==◌, IfOk, OnOk, codes, decimal};
ghost use Rattle.ncl_machine.specs.Held.{InRange};
ghost use Rattle.ncl_sim.specs.TimedRun.{last_time};
ghost use Rattle.ncl_report.specs.TraceText.{NamesItemOf, counts, end_line, end_words, mark_of, marks, quiet_word, taken_line, taken_lines, trace_lines, who};

use ncl_base::Memory;
use ncl_delay::Fired;
use ncl_lines::push_number;
use ncl_machine::{Item, Pair};
use ncl_netlist::Netlist;
use ncl_shape::Pipeline;
use ncl_sim::{End, Taken, Trace};
use std::alloc::Global;

/// The lines that tell a run in which so many words are due: a line for each word that was delivered, with its time and
/// its bits, and a line for the end, with its time, the number of steps and how many words were delivered. Fails where
/// memory is refused. Linear in the lines.
pub fn trace_text(
    alloc: Global,
    pipeline: &Pipeline<'_>,
    trace: &Trace,
    due: usize,
) -> Result<Vec<u8>, Memory>
    requires { NamesItemOf pipeline.now trace.now.end }
    ensures { IfOk result (λ text. text.items ≡ trace_lines pipeline.now trace.now due) }
{
    let mut text = taken_text(alloc, trace.delivered.items())?;
    push_end_line(&mut text, pipeline, trace, due)?;
    Ok(text)
}

/// Appends the line that tells how a run ends in which so many words are due. Linear in the line.
pub(crate) fn push_end_line(
    text: &mut Vec<u8>,
    pipeline: &Pipeline<'_>,
    trace: &Trace,
    due: usize,
) -> Result<(), Memory>
    requires { NamesItemOf pipeline.now trace.now.end }
    ensures { OnOk result (text.new.items ≡ text.old.items ++ end_line pipeline.now trace.now due) }
{
    let steps = trace.steps.items();
    let delivered = trace.delivered.items().len();
    push_end(
        text,
        pipeline,
        trace.end,
        last_time(steps),
        delivered == due,
    )?;
    push_counts(text, steps.len(), delivered, due)?;
    text.extend_from_slice(b"\n")?;
    Ok(())
}

/// A line for each word that was delivered. Linear in the lines.
fn taken_text(alloc: Global, delivered: &[Taken]) -> Result<Vec<u8>, Memory>
    ensures { IfOk result (λ text. text.items ≡ taken_lines 1 delivered.now) }
{
    let mut text = Vec::new(alloc);
    for (place, taken) in delivered.iter().enumerate() {
        push_taken(&mut text, place as u64 + 1, taken)?;
    }
    Ok(text)
}

/// Appends the line that tells a word of this number.
fn push_taken(text: &mut Vec<u8>, number: u64, taken: &Taken) -> Result<(), Memory>
    ensures { OnOk result (text.new.items ≡ text.old.items ++ taken_line number taken.now) }
{
    text.extend_from_slice(b"word ")?;
    push_number(text, number)?;
    text.extend_from_slice(b" at ")?;
    push_number(text, taken.time)?;
    text.extend_from_slice(b": ")?;
    push_marks(text, &taken.pair)?;
    text.extend_from_slice(b"\n")?;
    Ok(())
}

/// Appends the bits of a pair of rails. Linear in its bits.
pub(crate) fn push_marks(text: &mut Vec<u8>, pair: &Pair) -> Result<(), Memory>
    ensures { OnOk result (text.new.items ≡ text.old.items ++ marks pair.now.rail0 pair.now.rail1) }
{
    let (zero, one) = (pair.rail0.bits(), pair.rail1.bits());
    for place in 0..zero.len().min(one.len()) {
        text.push(mark(zero[place], one[place]))?;
    }
    Ok(())
}

/// A bit by its rails.
fn mark(zero: bool, one: bool) -> u8
    ensures { result ≡ mark_of zero one }
{
    match (zero, one) {
        (false, true) => b'1',
        (true, false) => b'0',
        (true, true) => b'X',
        (false, false) => b'-',
    }
}

/// The time of the last step, and 0 where there is none.
fn last_time(steps: &[Fired]) -> u64
    ensures { result ≡ last_time 0 steps.now }
{
    match steps.last() {
        Some(fired) => fired.time,
        None => 0,
    }
}

/// Appends what tells the end of a run but its counts: how it ends, and when.
fn push_end(
    text: &mut Vec<u8>,
    pipeline: &Pipeline<'_>,
    end: End,
    last: u64,
    is_whole: bool,
) -> Result<(), Memory>
    requires { NamesItemOf pipeline.now end }
    ensures { OnOk result (text.new.items ≡ text.old.items ++ end_words pipeline.now.netlist end last is_whole) }
{
    match end {
        End::Quiet => push_quiet(text, last, is_whole),
        End::Hazard { item, time } => push_hazard(text, pipeline, item, time),
        End::Over => Ok(text.extend_from_slice(b"over after ")?),
    }
}

/// Appends that nothing can move, and since when.
fn push_quiet(text: &mut Vec<u8>, last: u64, is_whole: bool) -> Result<(), Memory>
    ensures { OnOk result (text.new.items ≡ text.old.items ++ quiet_word is_whole ++ codes " at " ++ decimal last ++ codes " after ") }
{
    let word: &[u8] = if is_whole { b"quiet" } else { b"stalled" };
    text.extend_from_slice(word)?;
    text.extend_from_slice(b" at ")?;
    push_number(text, last)?;
    text.extend_from_slice(b" after ")?;
    Ok(())
}

/// Appends that an item was lost, which, and when.
fn push_hazard(
    text: &mut Vec<u8>,
    pipeline: &Pipeline<'_>,
    item: Item,
    time: u64,
) -> Result<(), Memory>
    requires { InRange pipeline.now item }
    ensures { OnOk result (text.new.items
        ≡ text.old.items ++ codes "hazard at " ++ decimal time ++ codes ": " ++ who pipeline.now.netlist item ++ codes ", after ") }
{
    text.extend_from_slice(b"hazard at ")?;
    push_number(text, time)?;
    text.extend_from_slice(b": ")?;
    push_who(text, pipeline, item)?;
    text.extend_from_slice(b", after ")?;
    Ok(())
}

/// Appends which item of a pipeline this is. A bit counts from 1.
fn push_who(text: &mut Vec<u8>, pipeline: &Pipeline<'_>, item: Item) -> Result<(), Memory>
    requires { InRange pipeline.now item }
    ensures { OnOk result (text.new.items ≡ text.old.items ++ who pipeline.now.netlist item) }
{
    // The inputs come with their number, which is small.
    let _ = pipeline.inputs();
    match item {
        Item::Cell(cell) => {
            let cell = &pipeline.netlist().cells()[cell.0 as usize];
            text.extend_from_slice(b"cell ")?;
            text.extend_from_slice(cell.name.bytes())?;
        }
        Item::Raise(bit) | Item::Lower(bit) => {
            text.extend_from_slice(b"source bit ")?;
            push_number(text, bit as u64 + 1)?;
        }
        Item::Take | Item::Ready => text.extend_from_slice(b"sink")?,
    }
    Ok(())
}

/// Appends the counts of a run.
fn push_counts(text: &mut Vec<u8>, steps: usize, delivered: usize, due: usize) -> Result<(), Memory>
    ensures { OnOk result (text.new.items ≡ text.old.items ++ counts steps delivered due) }
{
    push_number(text, steps as u64)?;
    text.extend_from_slice(b" steps, delivered ")?;
    push_number(text, delivered as u64)?;
    text.extend_from_slice(b" of ")?;
    push_number(text, due as u64)?;
    Ok(())
}
