//! What a look at a cell needs of it.
ghost use Rattle.std.specs.Prelude.{◌≡◌, ◌<◌, ◌≤◌, IfOk, Some, length, slice_get};
ghost use Rattle.ncl_gates.specs.NextWord.{place_of_values, value_of};
ghost use Rattle.ncl_machine.specs.Held.{meaning};
ghost use Rattle.ncl_sim.specs.declared.rows.Row.{Row as RowData};
ghost use Rattle.ncl_sim.specs.Rows.{AreRowsOf, HasNetsBelow, IsDelayOfRow, IsRowOf, next_by_row, pin_or_output};

use ncl_base::Memory;
use ncl_delay::{Delays, Edges};
use ncl_machine::State;
use ncl_netlist::{Cell, CellId, NetId};
use ncl_shape::{Item, Pipeline};
use std::alloc::Global;

/// What a look at a cell needs of it, in 32 bytes.
#[derive(Clone, Copy)]
pub(crate) struct Row {
    /// The next values of the cell, as `CellKind::next_word` has them.
    pub(crate) word: u32,
    /// The nets at the input pins in pin order. The output stands for those that the cell doesn't have.
    pub(crate) first: NetId,
    pub(crate) second: NetId,
    pub(crate) third: NetId,
    pub(crate) fourth: NetId,
    pub(crate) output: NetId,
    pub(crate) delays: Edges,
}

/// The net at an input pin of a cell, or its output where it has no such pin.
fn pin_or_output(cell: &Cell, pin: usize) -> NetId
    ensures { result ≡ pin_or_output cell.now pin }
{
    let ins = cell.ins.as_slice();
    if pin < ins.len() {
        return ins[pin];
    }
    cell.out
}

/// A value as a number.
fn number_of(value: bool) -> u32
    ensures number { result ≡ value_of value }
    ensures few { result ≤ 1 }
{
    u32::from(value)
}

/// The place of the values of four pins and an output in a word of next values.
fn place_of(first: bool, second: bool, third: bool, fourth: bool, output: bool) -> u32
    ensures place { result ≡ place_of_values first second third fourth output }
    ensures within { result < 32 }
{
    number_of(first)
        + 2 * number_of(second)
        + 4 * number_of(third)
        + 8 * number_of(fourth)
        + 16 * number_of(output)
}

impl Row {
    /// The row of a cell with these delays.
    fn new(cell: &Cell, delays: Edges) -> Row
        ensures { IsRowOf delays cell.now result }
    {
        Row {
            word: cell.kind.next_word(),
            first: pin_or_output(cell, 0),
            second: pin_or_output(cell, 1),
            third: pin_or_output(cell, 2),
            fourth: pin_or_output(cell, 3),
            output: cell.out,
            delays,
        }
    }

    /// The next value of the cell.
    fn next(&self, state: &State) -> bool
        requires { HasNetsBelow (length state.now.values) self.now }
        ensures { result ≡ next_by_row (meaning state.now).value self.now }
    {
        let place = place_of(
            state.value(self.first),
            state.value(self.second),
            state.value(self.third),
            state.value(self.fourth),
            state.value(self.output),
        );
        (self.word >> place) & 1 == 1
    }

    /// The delay of the cell, where it is excited. Reads the values of five nets.
    pub(crate) fn delay(&self, state: &State) -> Option<u32>
        requires { HasNetsBelow (length state.now.values) self.now }
        ensures { IsDelayOfRow (meaning state.now).value self.now result }
    {
        let high = state.value(self.output);
        if self.next(state) == high {
            return None;
        }
        let Edges { rise, fall } = self.delays;
        Some(if high { fall } else { rise })
    }
}

/// The net that the item of a number changes: that of its row where it has one. A look at the cell has read the row, so it is
/// nearer at hand than the cell, and what follows needn't wait for the cell.
pub(crate) fn net_by_row(rows: &[Row], number: u32, net: NetId) -> NetId
    requires { (row : RowData) → slice_get rows.now number ≡ Some row → row.output ≡ net }
    ensures { result ≡ net }
{
    let place = number as usize;
    if place < rows.len() {
        let row = &rows[place];
        return row.output;
    }
    net
}

/// The rows of the cells of a pipeline with these delays, in the order of their numbers. Linear in the cells.
pub(crate) fn rows_of(
    alloc: Global,
    pipeline: &Pipeline,
    delays: &Delays,
) -> Result<Vec<Row>, Memory>
    ensures { IfOk result (λ rows. AreRowsOf pipeline.now delays.now rows.items) }
{
    let cells = pipeline.netlist().cells();
    let mut rows = Vec::with_capacity(alloc, cells.len())?;
    for (k, cell) in cells.iter().enumerate() {
        let item = Item::Cell(CellId(k as u32));
        let edges = Edges {
            rise: delays.of(pipeline, item, true),
            fall: delays.of(pipeline, item, false),
        };
        rows.push(Row::new(cell, edges))?;
    }
    Ok(rows)
}
