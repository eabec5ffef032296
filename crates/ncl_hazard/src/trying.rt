//! Items that are tried in turn, and the run of those that happen.
ghost use Rattle.std.specs.Prelude.{◌≡◌, ◌≢◌, ◌<◌, ◌++◌, ◌∷◌, [], true, false, All, OnOk, IfOk, length};
ghost use Rattle.ncl_shape.specs.declared.item.Item.TheVariants.{Cell as Fire};
ghost use Rattle.ncl_machine.specs.Held.{IsFor, InRange, meaning};
ghost use Rattle.ncl_machine.specs.Steps.{enabled};
ghost use Rattle.ncl_hazard.specs.Trying.{turned, tried, happened, Loses};

use ncl_base::Memory;
use ncl_machine::State;
use ncl_netlist::CellId;
use ncl_shape::{Item, Pipeline};
use std::alloc::Global;

/// Tries an item: it happens where it is enabled, and then it is the next of the run. Takes the time of the cell's own pins, but
/// `Take` that of the outputs.
fn attempt(
    pipeline: &Pipeline,
    state: &mut State,
    run: &mut Vec<Item>,
    item: Item,
) -> Result<(), Memory>
    requires made { IsFor pipeline.now state.old }
    requires item { InRange pipeline.now item }
    ensures made { IsFor pipeline.now state.new }
    ensures turned { OnOk result (meaning state.new ≡ turned pipeline.now (meaning state.old) item) }
    ensures run { OnOk result (run.new.items ≡ run.old.items ++ happened pipeline.now (meaning state.old) (item ∷ [])) }
{
    if state.enabled(pipeline, item) {
        match state.step(pipeline, item) {
            Ok(()) => {}
            Err(_) => return Err(Memory),
        }
        run.push(item)?;
    }
    Ok(())
}

/// Tries items in turn: those that happen come after others of a run. Linear in the items, and in the outputs for each `Take`.
pub fn try_items(
    pipeline: &Pipeline,
    state: &mut State,
    run: &mut Vec<Item>,
    items: &[Item],
) -> Result<(), Memory>
    requires made { IsFor pipeline.now state.old }
    requires items { All (InRange pipeline.now) items.now }
    ensures made { IsFor pipeline.now state.new }
    ensures tried { OnOk result (meaning state.new ≡ tried pipeline.now (meaning state.old) items.now) }
    ensures run { OnOk result (run.new.items ≡ run.old.items ++ happened pipeline.now (meaning state.old) items.now) }
{
    for item in items {
        attempt(pipeline, state, run, *item)?;
    }
    Ok(())
}

/// The run that loses the excitation of a cell, of items that are tried in turn from a state: once the first of them were
/// tried the cell is excited, and once the others were it isn't. The state is that after the run.
///
/// Linear in the items.
pub fn losing_run(
    alloc: Global,
    pipeline: &Pipeline,
    state: &mut State,
    cell: CellId,
    coming: &[Item],
    going: &[Item],
) -> Result<Vec<Item>, Memory>
    requires made { IsFor pipeline.now state.old }
    requires cell { cell.0 < length pipeline.now.netlist.cells }
    requires coming { All (InRange pipeline.now) coming.now }
    requires going { All (InRange pipeline.now) going.now }
    requires others { All (λ item. item ≢ Fire cell) going.now }
    requires comes { enabled pipeline.now (tried pipeline.now (meaning state.old) coming.now) (Fire cell) ≡ true }
    requires goes { enabled pipeline.now (tried pipeline.now (meaning state.old) (coming.now ++ going.now)) (Fire cell) ≡ false }
    ensures { IfOk result (λ run. Loses pipeline.now (meaning state.old) cell run.items) }
{
    let mut run = Vec::new(alloc);
    try_items(pipeline, state, &mut run, coming)?;
    for next in going {
        attempt(pipeline, state, &mut run, *next)?;
        if !state.enabled(pipeline, Item::Cell(cell)) {
            return Ok(run);
        }
    }
    unreachable!()
}
