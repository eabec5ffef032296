//! Cells that stand in order as the netlist has them.
ghost use Rattle.std.specs.Prelude.{◌≡◌, ℕ, ◌<◌, ◌^◌, All, IfOk, Some, length};
ghost use Rattle.std.specs.Bool.{OnTrue};
ghost use Rattle.std.specs.List.{range_with_len};
ghost use Rattle.ncl_netlist.specs.declared.ids.NetId.{NetId};
ghost use Rattle.ncl_cell_rules.specs.Origin.{IsGate};
ghost use Rattle.ncl_cell_rules.specs.GateGraph.{AreDrivers};
ghost use Rattle.ncl_cell_rules.specs.CellOrder.{IsDrivenBefore, StandsLater};

use ncl_base::Memory;
use ncl_gates::CellKind;
use ncl_netlist::{Cell, NetId, Netlist};
use std::alloc::Global;

/// Whether a driver, if there is one, stands before a place.
fn is_before(driver: Option<u32>, place: usize) -> bool
    ensures { OnTrue result ((j : ℕ) → driver ≡ Some j → j < place) }
{
    match driver {
        Some(driver) => (driver as usize) < place,
        None => true,
    }
}

/// Whether the cells that drive some nets stand before a place. Linear in the nets.
fn are_before(drivers: &[Option<u32>], nets: &[NetId], place: usize) -> bool
    requires { All (λ (net : NetId). net.0 < length drivers.now) nets.now }
    ensures { OnTrue result (All (IsDrivenBefore drivers.now place) nets.now) }
{
    for net in nets {
        if !is_before(drivers[net.0 as usize], place) {
            return false;
        }
    }
    true
}

/// Whether a cell at a place, if it is a gate cell, stands after those that drive its pins. Linear in its pins.
fn stands_later(drivers: &[Option<u32>], cell: &Cell, place: usize) -> bool
    requires { All (λ (net : NetId). net.0 < length drivers.now) cell.now.ins.items }
    ensures { OnTrue result (IsGate cell.now → All (IsDrivenBefore drivers.now place) cell.now.ins.items) }
{
    match cell.kind {
        CellKind::Gate(_) => are_before(drivers, cell.ins.as_slice(), place),
        CellKind::Register | CellKind::RegisterData | CellKind::Ack => true,
    }
}

/// Whether each gate cell stands after those that drive its pins. Linear in cells and pins.
pub(crate) fn are_in_order(netlist: &Netlist, drivers: &[Option<u32>]) -> bool
    requires { AreDrivers netlist.now drivers.now }
    ensures { OnTrue result ((k : ℕ) → StandsLater netlist.now drivers.now k) }
{
    for (place, cell) in netlist.cells().iter().enumerate() {
        if !stands_later(drivers, cell, place) {
            return false;
        }
    }
    true
}

/// So many places from 0 on. Linear in their number.
pub(crate) fn first_places(alloc: Global, count: usize) -> Result<Vec<u32>, Memory>
    requires { count < 2 ^ 32 }
    ensures { IfOk result (λ places. places.items ≡ range_with_len 0 count) }
{
    let mut places = Vec::with_capacity(alloc, count)?;
    for place in 0..count as u32 {
        places.push(place)?;
    }
    Ok(places)
}
