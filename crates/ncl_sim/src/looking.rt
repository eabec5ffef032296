//! Looks at what a step may have touched.
ghost use Rattle.std.specs.Prelude.{◌≡◌, ◌+◌, ◌<◌, ◌≤◌, ◌^◌, All, IfOk, None, OnOk, [], length};
ghost use Rattle.ncl_machine.specs.State.{reset};
ghost use Rattle.ncl_machine.specs.Held.{IsFor, InRange, meaning};
ghost use Rattle.ncl_sim.specs.Numbers.{rises};
ghost use Rattle.ncl_sim.specs.Candidates.{candidate, number_count};
ghost use Rattle.ncl_sim.specs.Queue.{IsTracked, least_of, look_at, looks, loses, lower};
ghost use Rattle.ncl_sim.specs.Rows.{IsDelayAt};

use crate::agenda::Agenda;
use crate::course::Course;
use ncl_base::Memory;
use ncl_machine::State;
use ncl_netlist::CellId;
use ncl_shape::{Item, Pipeline};
use std::alloc::Global;

/// How many numbers there are: one for each cell, for each bit of the inputs, and for the sink.
pub(crate) fn number_count(pipeline: &Pipeline) -> u32
    ensures { result ≡ number_count pipeline.now }
{
    let cells = pipeline.netlist().cells().len();
    let bits = pipeline.inputs().len();
    (cells + bits + 1) as u32
}

/// The one item of a number that can be enabled in a state.
pub(crate) fn candidate(pipeline: &Pipeline, state: &State, number: u32) -> Item
    requires made { IsFor pipeline.now state.now }
    requires within { number < number_count pipeline.now }
    ensures candidate { result ≡ candidate pipeline.now (meaning state.now) number }
    ensures within { InRange pipeline.now result }
{
    let cells = pipeline.netlist().cells().len();
    let place = number as usize;
    if place < cells {
        return Item::Cell(CellId(number));
    }
    let bit = place - cells;
    if bit < pipeline.inputs().len() {
        if state.falling() {
            Item::Lower(bit)
        } else {
            Item::Raise(bit)
        }
    } else if state.value(pipeline.ki()) {
        Item::Take
    } else {
        Item::Ready
    }
}

/// Whether the net of an enabled item rises.
fn rises(pipeline: &Pipeline, state: &State, item: Item) -> bool
    requires made { IsFor pipeline.now state.now }
    requires within { InRange pipeline.now item }
    ensures { result ≡ rises pipeline.now (meaning state.now).value item }
{
    match item {
        Item::Cell(cell) => !state.value(pipeline.netlist().cells()[cell.0 as usize].out),
        Item::Raise(_) | Item::Ready => true,
        Item::Lower(_) | Item::Take => false,
    }
}

/// The delay of the item of a number, where that is enabled, found by asking the netlist: that of a bit or of the sink, which
/// have no row. Stays out of line, since most looks are at cells.
#[inline(never)]
fn delay_asked(course: &Course, state: &State, number: u32) -> Option<u32>
    requires made { IsFor course.now.pipeline state.now }
    requires within { number < number_count course.now.pipeline }
    ensures { IsDelayAt course.now.pipeline course.now.delays (meaning state.now) number result }
{
    let pipeline = course.pipeline();
    let item = candidate(pipeline, state, number);
    if !state.enabled(pipeline, item) {
        return None;
    }
    Some(
        course
            .delays()
            .of(pipeline, item, rises(pipeline, state, item)),
    )
}

/// The delay of the item of a number, where that is enabled: by its row, where it is of a cell.
#[inline(always)]
fn delay_of(course: &Course, state: &State, number: u32) -> Option<u32>
    requires made { IsFor course.now.pipeline state.now }
    requires within { number < number_count course.now.pipeline }
    ensures { IsDelayAt course.now.pipeline course.now.delays (meaning state.now) number result }
{
    course.facts();
    let rows = course.rows();
    let place = number as usize;
    if place < rows.len() {
        let row = &rows[place];
        return row.delay(state);
    }
    delay_asked(course, state, number)
}

/// Looks at a number, after a step or at the start: it begins to wait where its item is enabled and doesn't wait.
/// Answers whether it was lost, which is where it waits and its item isn't enabled. Takes the time to let the number wait.
#[inline(always)]
pub(crate) fn look(
    agenda: &mut Agenda,
    course: &Course,
    state: &State,
    time: u64,
    number: u32,
) -> Result<bool, Memory>
    requires made { IsFor course.now.pipeline state.now }
    requires count { length agenda.old ≡ number_count course.now.pipeline }
    requires within { number < number_count course.now.pipeline }
    requires time { time ≤ 2 ^ 63 }
    ensures waits { OnOk result (agenda.new ≡ look_at course.now.pipeline course.now.delays (meaning state.now) time agenda.old number) }
    ensures lost { IfOk result (λ lost. lost ≡ loses course.now.pipeline (meaning state.now) agenda.old number) }
{
    let waits = agenda.is_waiting(number);
    let Some(delay) = delay_of(course, state, number) else {
        return Ok(waits);
    };
    if !waits {
        agenda.wait(number, time + u64::from(delay))?;
    }
    Ok(false)
}

/// The lesser of a number and one that may be there.
fn lower(least: Option<u32>, number: u32) -> Option<u32>
    ensures { result ≡ lower least number }
{
    match least {
        None => Some(number),
        Some(least) => Some(least.min(number)),
    }
}

/// Looks at some numbers, and answers the least that was lost.
pub(crate) fn look_all(
    agenda: &mut Agenda,
    course: &Course,
    state: &State,
    time: u64,
    numbers: &[u32],
) -> Result<Option<u32>, Memory>
    requires made { IsFor course.now.pipeline state.now }
    requires count { length agenda.old ≡ number_count course.now.pipeline }
    requires within { All (λ number. number < number_count course.now.pipeline) numbers.now }
    requires time { time ≤ 2 ^ 63 }
    ensures waits { OnOk result (agenda.new ≡ looks course.now.pipeline course.now.delays (meaning state.now) time agenda.old numbers.now) }
    ensures lost { IfOk result (λ lost. lost ≡ least_of (loses course.now.pipeline (meaning state.now) agenda.old) None numbers.now) }
{
    let mut lost = None;
    for number in numbers {
        if look(agenda, course, state, time, *number)? {
            lost = lower(lost, *number);
        }
    }
    Ok(lost)
}

/// What waits at reset: the items that are enabled then. Linear in cells and bits.
pub(crate) fn started(alloc: Global, course: &Course, state: &State) -> Result<Agenda, Memory>
    requires made { IsFor course.now.pipeline state.now }
    requires reset { meaning state.now ≡ reset course.now.pipeline state.now.offered }
    ensures { IfOk result (IsTracked course.now.pipeline course.now.delays state.now.offered []) }
{
    let count = number_count(course.pipeline());
    let mut agenda = Agenda::new(alloc, count as usize)?;
    for number in 0..count {
        look(&mut agenda, course, state, 0, number)?;
    }
    Ok(agenda)
}
