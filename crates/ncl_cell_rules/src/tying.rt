//! The fifth rule of shape: nothing of a completion tree is left unread.
ghost use Rattle.std.specs.Prelude.{ℕ, ◌<◌, ◌↔◌, IsTrue, MatchOption};
ghost use Rattle.ncl_cell_rules.specs.Origin.{IsCell, IsOutputPort};
ghost use Rattle.ncl_cell_rules.specs.Rules.{IsTied};
ghost use Rattle.ncl_cell_rules.specs.Free.{AtCell, FailsFirst};
ghost use Rattle.ncl_cell_rules.specs.Tables.{AreGateReads};
ghost use Rattle.ncl_cell_rules.specs.Origins.{AreUnmixed};

use crate::origins::Origins;
use crate::source::Source;
use ncl_netlist::{Cell, CellId, NetId, Netlist};

/// Whether a net is an output port.
pub fn is_output_port(netlist: &Netlist, net: NetId) -> bool
    ensures { IsTrue result ↔ IsOutputPort netlist.now net.0 }
{
    match netlist.ports().get(net.0 as usize) {
        Some(port) => port.output,
        None => false,
    }
}

/// Whether the output of an acknowledge or completion cell is read by a gate cell, or is a request, or is an output
/// port. Other cells have nothing to keep.
fn is_tied(origins: &Origins, gate_reads: &[bool], cell: &Cell) -> bool
    requires in_netlist { IsCell origins.now.netlist cell.now }
    requires unmixed { AreUnmixed origins.now.netlist }
    requires gate_reads { AreGateReads origins.now.netlist gate_reads.now }
    ensures { IsTrue result ↔ IsTied origins.now.netlist cell.now }
{
    let netlist = origins.netlist();
    if cell.kind.is_register() {
        return true;
    }
    let Source::Ack(_) = origins.source(cell.out) else {
        return true;
    };
    if gate_reads[cell.out.0 as usize] {
        return true;
    }
    if origins.first(cell.out).is_some() {
        return true;
    }
    is_output_port(netlist, cell.out)
}

/// The first acknowledge or completion cell that is left unread. Linear in the cells.
#[tactic(auto, using(crate::proofs::TableSteps::after_last))]
pub(crate) fn first_loose(origins: &Origins, gate_reads: &[bool]) -> Option<CellId>
    requires unmixed { AreUnmixed origins.now.netlist }
    requires gate_reads { AreGateReads origins.now.netlist gate_reads.now }
    ensures { MatchOption result ((k : ℕ) → AtCell IsTied origins.now.netlist k) (λ c. FailsFirst (AtCell IsTied origins.now.netlist) c.0) }
{
    for (place, cell) in origins.netlist().cells().iter().enumerate() {
        if !is_tied(origins, gate_reads, cell) {
            return Some(CellId(place as u32));
        }
    }
    None
}
