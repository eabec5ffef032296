//! A model by names made a model by numbers, or its fault.
ghost use Rattle.std.specs.Prelude.{◌≡◌, ℕ, ◌<◌, ◌^◌, ◌⊎◌, Option, Some, None, length, map, true, false, not, All, IfOk, IfErr, MatchOption, find};
ghost use Rattle.std.specs.List.{list_any, range_with_len};
ghost use Rattle.std.specs.Option.{option_map};
ghost use Rattle.ncl_blif.specs.declared.fault.BlifFault.TheVariants.{Memory as OutOfMemory};
ghost use Rattle.ncl_blif.specs.Numbered.{is_driven, signal_number, numbered_cover, without_rows, rowless_covers, numbered_model};
ghost use Rattle.ncl_blif.specs.Answer.{lesser, reads_undriven, undriven_line, IsCyclic, IsFirstCycle, IsFaultless, IsModelFault};

use crate::dependence::dependencies;
use crate::draft::Draft;
use crate::draft_cover::{DraftCover, DraftOutput};
use crate::fault::BlifFault;
use crate::model::{Cover, Model};
use ncl_base::{Items, Memory, Name};
use std::alloc::Global;

/// Whether a signal has a driver. One look-up.
fn has_driver(draft: &Draft, signal: &[u8]) -> bool
    ensures { result ≡ is_driven draft.now signal.now }
{
    draft.number(signal).is_some()
}

/// The lesser of two line numbers that may be missing.
fn lesser_line(first: Option<u32>, second: Option<u32>) -> Option<u32>
    ensures { result ≡ lesser first second }
{
    match (first, second) {
        (None, line) => line,
        (line, None) => line,
        (Some(a), Some(b)) => Some(a.min(b)),
    }
}

/// The line of the first output without a driver. A look-up for each output.
fn undriven_output(draft: &Draft) -> Option<u32>
    ensures { result ≡ option_map (λ output. output.line) (find (λ output. not (is_driven draft.now output.signal)) draft.now.outputs) }
{
    let undriven = |output: &&DraftOutput| !has_driver(draft, output.signal());
    draft
        .outputs()
        .iter()
        .find(undriven)
        .map(|output| output.line())
}

/// Whether some signal has no driver. A look-up for each.
fn any_undriven(draft: &Draft, signals: &[&[u8]]) -> bool
    ensures { result ≡ list_any (λ signal. not (is_driven draft.now signal.now)) signals.now }
{
    signals.iter().any(|signal| !has_driver(draft, signal))
}

/// Whether a cover reads a signal without a driver. A look-up for each signal that it reads.
fn has_undriven(draft: &Draft, cover: &DraftCover) -> bool
    ensures { result ≡ reads_undriven draft.now cover.now }
{
    any_undriven(draft, cover.ins())
}

/// The line of the first cover that reads a signal without a driver. A look-up for each signal that a cover reads.
fn undriven_cover(draft: &Draft) -> Option<u32>
    ensures { result ≡ option_map (λ cover. cover.line) (find (reads_undriven draft.now) draft.now.covers) }
{
    let undriven = |cover: &&DraftCover| has_undriven(draft, cover);
    draft
        .covers()
        .iter()
        .find(undriven)
        .map(|cover| cover.line())
}

/// The first line that reads a signal without a driver. A look-up for each output and each signal that a
/// cover reads.
fn first_undriven(draft: &Draft) -> Option<u32>
    ensures { result ≡ undriven_line draft.now }
{
    lesser_line(undriven_output(draft), undriven_cover(draft))
}

/// The number of a signal that has a driver. One look-up.
fn number_in(draft: &Draft, signal: &[u8]) -> u32
    requires { is_driven draft.now signal.now ≡ true }
    ensures { result ≡ signal_number draft.now signal.now }
{
    match draft.number(signal) {
        Some(number) => number,
        None => unreachable!(),
    }
}

/// The numbers of signals that have drivers, in order. A look-up for each.
fn numbers_in(alloc: Global, draft: &Draft, signals: &[&[u8]]) -> Result<Items<u32>, Memory>
    requires { All (λ signal. is_driven draft.now signal.now ≡ true) signals.now }
    ensures { IfOk result (λ numbers. numbers ≡ map (λ signal. signal_number draft.now signal.now) signals.now) }
{
    let mut numbers = Vec::new(alloc);
    for signal in signals {
        numbers.push(number_in(draft, signal))?;
    }
    Ok(Items::from_vec(numbers))
}

/// A cover by numbers, without its rows. A look-up for each signal.
fn numbered(alloc: Global, draft: &Draft, cover: &DraftCover) -> Result<Cover, Memory>
    requires reads { reads_undriven draft.now cover.now ≡ false }
    requires drives { is_driven draft.now cover.now.out ≡ true }
    ensures { IfOk result (λ made. made ≡ without_rows (numbered_cover draft.now cover.now)) }
{
    Ok(Cover {
        ins: numbers_in(alloc, draft, cover.ins())?,
        out: number_in(draft, cover.out()),
        on: cover.on(),
        rows: Items::from_vec(Vec::new(alloc)),
    })
}

/// The numbers of the outputs, in order. A look-up for each.
fn numbered_outputs(alloc: Global, draft: &Draft) -> Result<Items<u32>, Memory>
    requires { All (λ output. is_driven draft.now output.signal ≡ true) draft.now.outputs }
    ensures { IfOk result (λ numbers. numbers ≡ map (λ output. signal_number draft.now output.signal) draft.now.outputs) }
{
    let mut numbers = Vec::new(alloc);
    for output in draft.outputs() {
        numbers.push(number_in(draft, output.signal()))?;
    }
    Ok(Items::from_vec(numbers))
}

/// The covers by numbers, in order, without their rows. A look-up for each signal of a cover.
fn numbered_covers(alloc: Global, draft: &Draft) -> Result<Vec<Cover>, Memory>
    requires { All (λ cover. reads_undriven draft.now cover ≡ false) draft.now.covers }
    ensures { IfOk result (λ covers. covers.items ≡ rowless_covers draft.now) }
{
    let mut covers = Vec::with_capacity(alloc, draft.covers().len())?;
    for cover in draft.covers() {
        covers.push(numbered(alloc, draft, cover)?)?;
    }
    Ok(covers)
}

/// The covers by numbers with the rows of the draft, which are moved. Linear in the covers.
fn with_rows(draft: Draft, covers: Vec<Cover>) -> Items<Cover>
    requires { covers.items ≡ rowless_covers draft }
    ensures { result ≡ map (numbered_cover draft.entry) draft.entry.covers }
{
    let mut covers = covers;
    let mut place = 0usize;
    for cover in draft.into_covers() {
        covers[place].rows = cover.into_rows();
        place += 1;
    }
    Items::from_vec(covers)
}

/// The numbers from 0 on, as many as there are inputs. Linear in their number.
fn first_numbers(alloc: Global, count: u32) -> Result<Items<u32>, Memory>
    ensures { IfOk result (λ numbers. numbers ≡ range_with_len 0 count) }
{
    let mut numbers = Vec::new(alloc);
    for number in 0..count {
        numbers.push(number)?;
    }
    Ok(Items::from_vec(numbers))
}

/// The name, the inputs and the outputs of the model of a draft, by numbers. A look-up for each output, and linear in
/// the inputs.
fn head_by_numbers(alloc: Global, draft: &Draft) -> Result<(Name, Items<u32>, Items<u32>), Memory>
    requires driven { undriven_line draft.now ≡ None }
    requires few { length draft.now.inputs < 2 ^ 32 }
    ensures { IfOk result (λ head. (head.0 ≡ draft.now.name) × (head.1 ≡ range_with_len 0 (length draft.now.inputs))
        × (head.2 ≡ map (λ output. signal_number draft.now output.signal) draft.now.outputs)) }
{
    let name = Name::from_bytes(alloc, draft.name())?;
    let inputs = first_numbers(alloc, draft.inputs() as u32)?;
    Ok((name, inputs, numbered_outputs(alloc, draft)?))
}

/// The model of a draft and its covers by numbers, which have no rows yet. A look-up for each output, and
/// linear in the inputs and the covers.
fn by_numbers(alloc: Global, draft: Draft, covers: Vec<Cover>) -> Result<Model, Memory>
    requires driven { undriven_line draft ≡ None }
    requires few { length draft.inputs < 2 ^ 32 }
    requires covers { covers.items ≡ rowless_covers draft }
    ensures { IfOk result (λ model. model ≡ numbered_model draft.entry) }
{
    let (name, inputs, outputs) = head_by_numbers(alloc, &draft)?;
    Ok(Model {
        name,
        inputs,
        outputs,
        covers: with_rows(draft, covers),
    })
}

/// The line of the first cover whose output depends on itself, in a draft and its covers by numbers, which
/// need no rows.
///
/// `n log n` in the covers and the signals that they read.
fn first_cycle(alloc: Global, draft: &Draft, numbered: &[Cover]) -> Result<Option<u32>, Memory>
    requires numbered { numbered.now ≡ rowless_covers draft.now }
    requires few { length draft.now.covers < 2 ^ 32 }
    ensures { IfOk result (λ line. MatchOption line ((place : ℕ) → IsCyclic draft.now place → ⊥) (IsFirstCycle draft.now)) }
{
    let covers = draft.covers();
    let dependencies = dependencies(alloc, numbered)?;
    let Some(place) = dependencies.first_on_cycle(alloc)? else {
        return Ok(None);
    };
    Ok(Some(covers[place as usize].line()))
}

/// The covers of a draft by numbers, without their rows, or the fault of its model, the number of which is given: no
/// bits, a signal without a driver, or a cycle, asked in this order.
///
/// `n log n` in the signals that the draft names.
fn faultless_covers(alloc: Global, draft: &Draft, number: u32) -> Result<Vec<Cover>, BlifFault>
    requires { length draft.now.covers < 2 ^ 32 }
    ensures read { IfOk result (λ covers. IsFaultless draft.now × (covers.items ≡ rowless_covers draft.now)) }
    ensures refused { IfErr result (λ fault. (fault ≡ OutOfMemory) ⊎ IsModelFault number draft.now fault) }
{
    if draft.inputs() == 0 || draft.outputs().is_empty() {
        return Err(BlifFault::NoBits(number));
    }
    if let Some(line) = first_undriven(draft) {
        return Err(BlifFault::Undriven(line));
    }
    let covers = numbered_covers(alloc, draft)?;
    if let Some(line) = first_cycle(alloc, draft, &covers)? {
        return Err(BlifFault::Cycle(line));
    }
    Ok(covers)
}

/// The model of a draft, the number of which is given, or its fault.
///
/// `n log n` in the signals that the draft names, and at most linear in its rows, which are moved.
pub(crate) fn finish(alloc: Global, draft: Draft, number: u32) -> Result<Model, BlifFault>
    requires few_inputs { length draft.inputs < 2 ^ 32 }
    requires few_covers { length draft.covers < 2 ^ 32 }
    ensures read { IfOk result (λ model. IsFaultless draft.entry × (model ≡ numbered_model draft.entry)) }
    ensures refused { IfErr result (λ fault. (fault ≡ OutOfMemory) ⊎ IsModelFault number draft.entry fault) }
{
    let covers = faultless_covers(alloc, &draft, number)?;
    Ok(by_numbers(alloc, draft, covers)?)
}
