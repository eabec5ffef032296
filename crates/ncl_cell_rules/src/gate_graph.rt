//! The gate cells as a graph.
ghost use Rattle.std.specs.Prelude.{◌≡◌, ◌<◌, All, IfOk, length};
ghost use Rattle.std.specs.List.{filter_map};
ghost use Rattle.ncl_netlist.specs.declared.ids.NetId.{NetId};
ghost use Rattle.ncl_cell_rules.specs.GateGraph.{AreDrivers, arcs, driver_at, gate_graph};

use ncl_base::{Items, Memory};
use ncl_gates::CellKind;
use ncl_graph::Graph;
use ncl_netlist::{Cell, NetId, Netlist};
use std::alloc::Global;

/// The places of the cells that drive some nets, in their order; an input port has none. Linear in the nets.
fn drivers_of(alloc: Global, drivers: &[Option<u32>], nets: &[NetId]) -> Result<Vec<u32>, Memory>
    requires { All (λ (net : NetId). net.0 < length drivers.now) nets.now }
    ensures { IfOk result (λ places. places.items ≡ filter_map (λ (net : NetId). driver_at drivers.now net.0) nets.now) }
{
    let mut places = Vec::new(alloc);
    for net in nets {
        if let Some(place) = drivers[net.0 as usize] {
            places.push(place)?;
        }
    }
    Ok(places)
}

/// The cells that drive the pins of a gate cell; none for every other cell.
fn arcs_of(alloc: Global, drivers: &[Option<u32>], cell: &Cell) -> Result<Items<u32>, Memory>
    requires { All (λ (net : NetId). net.0 < length drivers.now) cell.now.ins.items }
    ensures { IfOk result (λ places. places ≡ arcs drivers.now cell.now) }
{
    match cell.kind {
        CellKind::Gate(_) => Ok(Items::from_vec(drivers_of(alloc, drivers, cell.ins.as_slice())?)),
        CellKind::Register | CellKind::RegisterData | CellKind::Ack => {
            Ok(Items::from_vec(Vec::new(alloc)))
        }
    }
}

/// The graph in which each gate cell leads to the cells that drive its pins. Linear in cells and pins.
pub(crate) fn gate_graph(
    alloc: Global,
    netlist: &Netlist,
    drivers: &[Option<u32>],
) -> Result<Graph, Memory>
    requires { AreDrivers netlist.now drivers.now }
    ensures { IfOk result (λ graph. graph ≡ gate_graph netlist.now drivers.now) }
{
    let mut successors = Vec::with_capacity(alloc, netlist.cells().len())?;
    for cell in netlist.cells() {
        successors.push(arcs_of(alloc, drivers, cell)?)?;
    }
    Ok(Graph::new(Items::from_vec(successors)))
}
