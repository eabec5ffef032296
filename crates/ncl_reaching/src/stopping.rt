//! A run to a stop.
ghost use Rattle.std.specs.Prelude.{OnOk};
ghost use Rattle.ncl_cell_rules.specs.CellOrder.{IsCellOrder};
ghost use Rattle.ncl_machine.specs.Held.{IsFor, meaning};
ghost use Rattle.ncl_reaching.specs.Breaking.{GoesToStop};

use ncl_base::Memory;
use ncl_hazard::{all_items, try_items};
use ncl_machine::{Item, State};
use ncl_shape::Pipeline;
use std::alloc::Global;

/// Goes on with a run until nothing can happen: all items are tried in turn, again and again, until none of them happens.
///
/// Each round is linear in cells and bits. Each but the last makes the run longer, and no run goes on for ever. The cells stand in
/// an order in which a gate comes after those that drive its pins, so what has come into a bank goes through the gates of its
/// stage in one round.
pub(crate) fn push_stop(
    alloc: Global,
    pipeline: &Pipeline,
    state: &mut State,
    run: &mut Vec<Item>,
    order: &[u32],
) -> Result<(), Memory>
    requires made { IsFor pipeline.now state.old }
    requires order { IsCellOrder pipeline.now.netlist order.now }
    ensures { OnOk result (GoesToStop pipeline.now (meaning state.old) run.old.items run.new.items) }
{
    pipeline.facts();
    let items = all_items(alloc, pipeline, order)?;
    loop {
        let before = run.len();
        try_items(pipeline, state, run, &items)?;
        if run.len() == before {
            return Ok(());
        }
    }
}
