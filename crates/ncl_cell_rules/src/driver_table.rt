//! Which cell drives each net.
ghost use Rattle.std.specs.Prelude.{IfOk};
ghost use Rattle.ncl_cell_rules.specs.GateGraph.{AreDrivers};

use ncl_base::Memory;
use ncl_netlist::Netlist;
use std::alloc::Global;

/// For each net the place of the cell that drives it, and `None` at an input port. Linear in nets and cells.
pub(crate) fn drivers(alloc: Global, netlist: &Netlist) -> Result<Vec<Option<u32>>, Memory>
    ensures { IfOk result (λ drivers. AreDrivers netlist.now drivers.items) }
{
    let mut drivers = vec![in alloc; None; netlist.nets().len()]?;
    for (place, cell) in netlist.cells().iter().enumerate() {
        drivers[cell.out.0 as usize] = Some(place as u32);
    }
    Ok(drivers)
}
