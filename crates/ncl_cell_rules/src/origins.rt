//! The first five rules of shape, and what they leave known.
ghost use Rattle.std.specs.Prelude.{◌≡◌, ◌<◌, false, IfErr, IfOk, OnOk, length};
ghost use Rattle.std.specs.List.{slice_index_or};
ghost use Rattle.ncl_cell_rules.specs.Free.{IsFree};
ghost use Rattle.ncl_cell_rules.specs.GateGraph.{AreDrivers, driver_at};
ghost use Rattle.ncl_cell_rules.specs.Sources.{source_at};
ghost use Rattle.ncl_cell_rules.specs.Tables.{first_at};
ghost use Rattle.ncl_cell_rules.specs.CellOrder.{IsCellOrder};
ghost use Rattle.ncl_cell_rules.specs.Origins.{AreOffCycles, AreOrigins, ArePaired, ArePortsRead, IsCellFault, IsOrderFault};

use crate::ack_pins::ack_pins;
use crate::data_banks::data_banks;
use crate::driver_table::drivers;
use crate::fault::CellFault;
use crate::first_registers::first_registers;
use crate::gate_graph::gate_graph;
use crate::mixing::first_mixed;
use crate::net_sources::net_sources;
use crate::pairing::first_unpaired;
use crate::ports_read::first_unread;
use crate::reading::{gate_reads, reads};
use crate::source::Source;
use crate::standing::{are_in_order, first_places};
use crate::tying::first_loose;
use ncl_base::Memory;
use ncl_netlist::{CellId, NetId, Netlist};
use std::alloc::Global;
use std::marker::Model;

/// What is known of a netlist that keeps the first three rules of shape, in tables with an entry for each net.
///
/// Only `find_origins` makes one.
#[derive(Debug, Drop)]
pub struct Origins<'a> {
    netlist: &'a Netlist,
    drivers: Vec<Option<u32>>,
    firsts: Vec<Option<u32>>,
    data_banks: Vec<bool>,
    order: Vec<u32>,
    sources: Vec<Source>,
}

impl<'a> Model for Origins<'a> {
    ghost use Rattle.ncl_cell_rules.specs.Origins.{OriginsData, AreOrigins};

    ghost Value = { OriginsData };

    ghost view = { λ a. record { netlist = a.netlist.now; drivers = a.drivers.items; firsts = a.firsts.items; data_banks = a.data_banks.items; order = a.order.items; sources = a.sources.items } };

    ghost invariant = { λ a. AreOrigins a.netlist.now (record { netlist = a.netlist.now; drivers = a.drivers.items; firsts = a.firsts.items; data_banks = a.data_banks.items; order = a.order.items; sources = a.sources.items }) };
}

impl<'a> Origins<'a> {
    /// The netlist.
    pub fn netlist(&self) -> &'a Netlist
        ensures netlist { result.now ≡ self.now.netlist }
        ensures origins { AreOrigins self.now.netlist self.now }
    {
        self.netlist
    }

    /// Where a net comes from.
    pub fn source(&self, net: NetId) -> Source
        requires { net.0 < length self.now.netlist.nets }
        ensures source { result ≡ source_at self.now.sources net.0 }
        ensures origins { AreOrigins self.now.netlist self.now }
    {
        self.sources[net.0 as usize]
    }

    /// The place of the cell that drives a net; `None` at an input port.
    pub fn driver(&self, net: NetId) -> Option<u32>
        requires { net.0 < length self.now.netlist.nets }
        ensures driver { result ≡ driver_at self.now.drivers net.0 }
        ensures origins { AreOrigins self.now.netlist self.now }
    {
        self.drivers[net.0 as usize]
    }

    /// For each net the place of the cell that drives it; `None` at an input port.
    pub fn drivers(&self) -> &[Option<u32>]
        ensures drivers { result.now ≡ self.now.drivers }
        ensures origins { AreOrigins self.now.netlist self.now }
    {
        &self.drivers
    }

    /// The place of the first register cell of the bank of a request; `None` where the net is no request.
    pub fn first(&self, request: NetId) -> Option<u32>
        requires { request.0 < length self.now.netlist.nets }
        ensures first { result ≡ first_at self.now.firsts request.0 }
        ensures origins { AreOrigins self.now.netlist self.now }
    {
        self.firsts[request.0 as usize]
    }

    /// All cells by their places, each gate cell after those that drive its pins, and each cell once.
    pub fn order(&self) -> &[u32]
        ensures order { result.now ≡ self.now.order }
        ensures origins { AreOrigins self.now.netlist self.now }
    {
        &self.order
    }

    /// Whether a net is the request of a bank that is reset to DATA.
    pub fn is_data_bank(&self, request: NetId) -> bool
        requires { request.0 < length self.now.netlist.nets }
        ensures data { result ≡ slice_index_or self.now.data_banks request.0 false }
        ensures origins { AreOrigins self.now.netlist self.now }
    {
        self.data_banks[request.0 as usize]
    }

    /// That the tables are those of the netlist. Costs nothing.
    pub fn facts(&self)
        ensures { AreOrigins self.now.netlist self.now }
    {
        let _ = &self.netlist;
    }
}

/// An order of all cells in which each gate cell stands after those that drive its pins, or the first gate cell on a
/// cycle. Linear in cells and pins. Takes no memory but the order's where the cells stand so in the netlist, and then a
/// search in depth would find the same order.
fn cell_order(
    alloc: Global,
    netlist: &Netlist,
    drivers: &[Option<u32>],
) -> Result<Vec<u32>, CellFault>
    requires { AreDrivers netlist.now drivers.now }
    ensures order { IfOk result (λ order. IsCellOrder netlist.now order.items) }
    ensures off_cycles { OnOk result (AreOffCycles netlist.now) }
    ensures fault { IfErr result (IsOrderFault netlist.now) }
{
    if are_in_order(netlist, drivers) {
        return Ok(first_places(alloc, netlist.cells().len())?);
    }
    let graph = gate_graph(alloc, netlist, drivers)?;
    if let Some(order) = graph.order(alloc)? {
        return Ok(order);
    }
    match graph.first_on_cycle(alloc)? {
        Some(place) => Err(CellFault::Cycle(CellId(place))),
        None => unreachable!(),
    }
}

/// The tables of a netlist whose cells pair up, from their order.
fn tables<'a>(
    alloc: Global,
    netlist: &'a Netlist,
    drivers: Vec<Option<u32>>,
    order: Vec<u32>,
) -> Result<Origins<'a>, Memory>
    requires drivers { AreDrivers netlist.now drivers.items }
    requires paired { ArePaired netlist.now }
    requires order { IsCellOrder netlist.now order.items }
    ensures { IfOk result (λ origins. origins.netlist ≡ netlist.now) }
{
    let firsts = first_registers(alloc, netlist)?;
    let data_banks = data_banks(alloc, netlist)?;
    let sources = net_sources(alloc, netlist, &drivers, &order)?;
    Ok(Origins {
        netlist,
        drivers,
        firsts,
        data_banks,
        order,
        sources,
    })
}

/// That each input port is read.
fn check_ports(alloc: Global, netlist: &Netlist) -> Result<(), CellFault>
    ensures read { OnOk result (ArePortsRead netlist.now) }
    ensures fault { IfErr result (IsCellFault netlist.now) }
{
    match first_unread(netlist, &reads(alloc, netlist)?) {
        Some(net) => Err(CellFault::UnusedPort(net)),
        None => Ok(()),
    }
}

/// That register and acknowledge cells pair up, which is tried where the first two rules hold.
fn check_pairs(alloc: Global, netlist: &Netlist, drivers: &[Option<u32>]) -> Result<(), CellFault>
    requires drivers { AreDrivers netlist.now drivers.now }
    requires read { ArePortsRead netlist.now }
    requires off_cycles { AreOffCycles netlist.now }
    ensures paired { OnOk result (ArePaired netlist.now) }
    ensures fault { IfErr result (IsCellFault netlist.now) }
{
    match first_unpaired(netlist, drivers, &ack_pins(alloc, netlist)?) {
        Some(cell) => Err(CellFault::Unpaired(cell)),
        None => Ok(()),
    }
}

/// That no cell is mixed and none is loose, which is tried where the first three rules hold.
fn check_cells(alloc: Global, origins: &Origins) -> Result<(), CellFault>
    requires read { ArePortsRead origins.now.netlist }
    requires off_cycles { AreOffCycles origins.now.netlist }
    requires paired { ArePaired origins.now.netlist }
    ensures free { OnOk result (IsFree origins.now.netlist) }
    ensures fault { IfErr result (IsCellFault origins.now.netlist) }
{
    if let Some(cell) = first_mixed(origins) {
        return Err(CellFault::Mixed(cell));
    }
    match first_loose(origins, &gate_reads(alloc, origins.netlist())?) {
        Some(cell) => Err(CellFault::Loose(cell)),
        None => Ok(()),
    }
}

/// What is known of the nets of a netlist that keeps the first five rules of shape, or the first of these rules that
/// it breaks, at its first port or cell.
///
/// Linear in nets and pins, without recursion. The one other error is want of memory.
pub fn find_origins(alloc: Global, netlist: &Netlist) -> Result<Origins<'_>, CellFault>
    ensures netlist { IfOk result (λ origins. origins.netlist ≡ netlist.now) }
    ensures origins { IfOk result (AreOrigins netlist.now) }
    ensures free { OnOk result (IsFree netlist.now) }
    ensures fault { IfErr result (IsCellFault netlist.now) }
{
    check_ports(alloc, netlist)?;
    let drivers = drivers(alloc, netlist)?;
    let order = cell_order(alloc, netlist, &drivers)?;
    check_pairs(alloc, netlist, &drivers)?;
    let origins = tables(alloc, netlist, drivers, order)?;
    check_cells(alloc, &origins)?;
    Ok(origins)
}
