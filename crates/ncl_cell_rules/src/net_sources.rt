//! Where each net comes from.
ghost use Rattle.std.specs.Prelude.{◌≡◌, All, IfOk, length};
ghost use Rattle.ncl_netlist.specs.declared.ids.NetId.{NetId};
ghost use Rattle.ncl_cell_rules.specs.Origin.{AcksBank, IsAck, IsCell, IsGate};
ghost use Rattle.ncl_cell_rules.specs.Sources.{IsSourceOf, source_at};
ghost use Rattle.ncl_cell_rules.specs.GateGraph.{AreDrivers};
ghost use Rattle.ncl_cell_rules.specs.CellOrder.{AreSources, IsCellOrder};
ghost use Rattle.ncl_cell_rules.specs.Origins.{ArePaired};

use crate::pairing::register_behind;
use crate::source::{Source, source_of_nets};
use ncl_base::Memory;
use ncl_gates::CellKind;
use ncl_netlist::{Cell, NetId, Netlist};
use std::alloc::Global;

/// The bank of an acknowledge cell: the request of the register cell that drives its pin A.
fn bank_of_ack(netlist: &Netlist, drivers: &[Option<u32>], cell: &Cell) -> NetId
    requires in_netlist { IsCell netlist.now cell.now }
    requires ack { IsAck cell.now }
    requires drivers { AreDrivers netlist.now drivers.now }
    requires paired { ArePaired netlist.now }
    ensures { AcksBank netlist.now result.0 cell.now }
{
    match register_behind(netlist, drivers, cell.ins[0]) {
        Some((_, bank)) => bank,
        None => unreachable!(),
    }
}

/// The source of the net that a cell drives, from those of the nets that a gate cell reads. A register cell's is
/// its bank, and an acknowledge cell's the bank of the register cell on its pin A.
fn source_of_cell(
    netlist: &Netlist,
    drivers: &[Option<u32>],
    sources: &[Source],
    cell: &Cell,
) -> Source
    requires in_netlist { IsCell netlist.now cell.now }
    requires drivers { AreDrivers netlist.now drivers.now }
    requires paired { ArePaired netlist.now }
    requires sized { length sources.now ≡ length netlist.now.nets }
    requires known { IsGate cell.now → All (λ (net : NetId). IsSourceOf netlist.now net.0 (source_at sources.now net.0)) cell.now.ins.items }
    ensures { IsSourceOf netlist.now cell.now.out.0 result }
{
    match cell.kind {
        CellKind::Gate(_) => source_of_nets(netlist, sources, cell.ins.as_slice()),
        CellKind::Register | CellKind::RegisterData => Source::Rail(cell.ins[1]),
        CellKind::Ack => Source::Ack(bank_of_ack(netlist, drivers, cell)),
    }
}

/// The source of each net, found in an order in which each gate cell stands after those that drive its pins.
/// Linear in nets and pins.
pub(crate) fn net_sources(
    alloc: Global,
    netlist: &Netlist,
    drivers: &[Option<u32>],
    order: &[u32],
) -> Result<Vec<Source>, Memory>
    requires drivers { AreDrivers netlist.now drivers.now }
    requires paired { ArePaired netlist.now }
    requires order { IsCellOrder netlist.now order.now }
    ensures { IfOk result (λ sources. AreSources netlist.now sources.items) }
{
    let mut sources = vec![in alloc; Source::Port; netlist.nets().len()]?;
    for place in order {
        let cell = &netlist.cells()[*place as usize];
        sources[cell.out.0 as usize] = source_of_cell(netlist, drivers, sources.as_slice(), cell);
    }
    Ok(sources)
}
