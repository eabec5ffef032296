//! The fourth rule of shape: what a cell reads has one origin, and a bank is reset to DATA in all its bits or in none.
ghost use Rattle.std.specs.Prelude.{◌≡◌, ℕ, ◌<◌, ◌↔◌, IsTrue, MatchOption, length};
ghost use Rattle.ncl_gates.specs.declared.cell_kind.CellKind.TheVariants.{Gate};
ghost use Rattle.ncl_cell_rules.specs.Origin.{IsAck, IsCell, IsInputPort, IsRegister, IsTreeKind};
ghost use Rattle.ncl_cell_rules.specs.Rules.{IsAckOfOne, IsFromOneAck, IsFromOneRail, IsGateOfOne, IsRegisterOfOne, IsUnmixed, ReadsData};
ghost use Rattle.ncl_cell_rules.specs.Free.{AtCell, FailsFirst};
ghost use Rattle.ncl_cell_rules.specs.Origins.{IsAsFirst};

use crate::origins::Origins;
use crate::pairing::{is_data_behind, register_behind};
use crate::source::{Source, same_source};
use ncl_gates::{CellKind, Kind};
use ncl_netlist::{Cell, CellId, NetId};

/// Whether a gate may stand in a completion tree.
fn is_tree_kind(kind: Kind) -> bool
    ensures { IsTrue result ↔ IsTreeKind kind }
{
    matches!(kind, Kind::Th22 | Kind::Th33 | Kind::Th44)
}

/// Whether a gate cell reads the rails of one bank, or is a completion cell of one bank.
fn is_gate_of_one(origins: &Origins, cell: &Cell, kind: Kind) -> bool
    requires in_netlist { IsCell origins.now.netlist cell.now }
    requires gate { cell.now.kind ≡ Gate kind }
    ensures { IsTrue result ↔ IsGateOfOne origins.now.netlist kind cell.now }
{
    origins.facts();
    match origins.source(cell.out) {
        Source::Rail(_) => true,
        Source::Ack(_) => is_tree_kind(kind),
        Source::Port | Source::Many => false,
    }
}

/// Whether a net is an input port, as it is where no cell drives it.
fn is_input_port(origins: &Origins, net: NetId) -> bool
    requires inside { net.0 < length origins.now.netlist.nets }
    ensures { IsTrue result ↔ IsInputPort origins.now.netlist net.0 }
{
    origins.driver(net).is_none()
}

/// Whether a net is an input port, or comes from the acknowledge cells of one bank.
fn is_from_one_ack(origins: &Origins, net: NetId) -> bool
    requires inside { net.0 < length origins.now.netlist.nets }
    ensures { IsTrue result ↔ IsFromOneAck origins.now.netlist net.0 }
{
    is_input_port(origins, net) || matches!(origins.source(net), Source::Ack(_))
}

/// Whether a net is an input port, or comes from the rails of one bank.
fn is_from_one_rail(origins: &Origins, net: NetId) -> bool
    requires inside { net.0 < length origins.now.netlist.nets }
    ensures { IsTrue result ↔ IsFromOneRail origins.now.netlist net.0 }
{
    is_input_port(origins, net) || matches!(origins.source(net), Source::Rail(_))
}

/// Whether the rail that a register cell reads comes from where that of the first register cell of its bank does.
fn is_as_first(origins: &Origins, cell: &Cell) -> bool
    requires in_netlist { IsCell origins.now.netlist cell.now }
    requires register { IsRegister cell.now }
    ensures { IsTrue result ↔ IsAsFirst origins.now.netlist origins.now.sources cell.now }
{
    let cells = origins.netlist().cells();
    let Some(place) = origins.first(cell.ins[1]) else {
        return false;
    };
    let first = &cells[place as usize];
    let source = origins.source(cell.ins[0]);
    let first_source = origins.source(first.ins[0]);
    same_source(source, first_source)
}

/// Whether a register cell reads one rail, one acknowledge and a reset port, and its rail comes from where those of
/// its bank come from.
fn is_register_of_one(origins: &Origins, cell: &Cell) -> bool
    requires in_netlist { IsCell origins.now.netlist cell.now }
    requires register { IsRegister cell.now }
    ensures { IsTrue result ↔ IsRegisterOfOne origins.now.netlist cell.now }
{
    origins.facts();
    let reset = is_input_port(origins, cell.ins[2]);
    let request = is_from_one_ack(origins, cell.ins[1]);
    let rail = is_from_one_rail(origins, cell.ins[0]);
    reset & request & rail & is_as_first(origins, cell)
}

/// Whether an acknowledge cell reads a register cell that is reset to 1.
fn reads_data(origins: &Origins, cell: &Cell) -> bool
    requires in_netlist { IsCell origins.now.netlist cell.now }
    requires ack { IsAck cell.now }
    ensures { IsTrue result ↔ ReadsData origins.now.netlist cell.now }
{
    if is_data_behind(origins.netlist(), origins.drivers(), cell.ins[0]) {
        return true;
    }
    is_data_behind(origins.netlist(), origins.drivers(), cell.ins[1])
}

/// Whether an acknowledge cell reads a register cell that is reset to 1, or is of a bank that is not reset to DATA.
fn is_ack_of_one(origins: &Origins, cell: &Cell) -> bool
    requires in_netlist { IsCell origins.now.netlist cell.now }
    requires ack { IsAck cell.now }
    ensures { IsTrue result ↔ IsAckOfOne origins.now.netlist cell.now }
{
    let Some((_, bank)) = register_behind(origins.netlist(), origins.drivers(), cell.ins[0]) else {
        return true;
    };
    if !origins.is_data_bank(bank) {
        return true;
    }
    reads_data(origins, cell)
}

/// Whether what a gate or register cell reads has one origin, and whether an acknowledge cell of a bank that is reset
/// to DATA reads a cell that is reset to 1.
fn is_unmixed(origins: &Origins, cell: &Cell) -> bool
    requires in_netlist { IsCell origins.now.netlist cell.now }
    ensures { IsTrue result ↔ IsUnmixed origins.now.netlist cell.now }
{
    match cell.kind {
        CellKind::Gate(kind) => is_gate_of_one(origins, cell, kind),
        CellKind::Register | CellKind::RegisterData => is_register_of_one(origins, cell),
        CellKind::Ack => is_ack_of_one(origins, cell),
    }
}

/// The first cell that breaks the rule. Linear in the cells.
#[tactic(auto, using(crate::proofs::TableSteps::after_last))]
pub(crate) fn first_mixed(origins: &Origins) -> Option<CellId>
    ensures { MatchOption result ((k : ℕ) → AtCell IsUnmixed origins.now.netlist k) (λ c. FailsFirst (AtCell IsUnmixed origins.now.netlist) c.0) }
{
    for (place, cell) in origins.netlist().cells().iter().enumerate() {
        if !is_unmixed(origins, cell) {
            return Some(CellId(place as u32));
        }
    }
    None
}
