//! The third rule of shape: register cells pair up to bits, each with its acknowledge cell.
ghost use Rattle.std.specs.Prelude.{ℕ, ◌<◌, ◌↔◌, IsTrue, IfSome, IfNone, MatchOption, length};
ghost use Rattle.ncl_cell_rules.specs.Origin.{IsAck, IsCell};
ghost use Rattle.ncl_cell_rules.specs.Rules.{IsPaired, ReadsOneBit};
ghost use Rattle.ncl_cell_rules.specs.Free.{AtCell, FailsFirst};
ghost use Rattle.ncl_cell_rules.specs.GateGraph.{AreDrivers, IsDataBehind, IsRegisterBehind};
ghost use Rattle.ncl_cell_rules.specs.Tables.{AreAckPins};

use ncl_gates::CellKind;
use ncl_netlist::{Cell, CellId, NetId, Netlist};

/// The place and the request of the register cell that drives a net; `None` where no register cell does.
pub fn register_behind(
    netlist: &Netlist,
    drivers: &[Option<u32>],
    net: NetId,
) -> Option<(u32, NetId)>
    requires inside { net.0 < length netlist.now.nets }
    requires drivers { AreDrivers netlist.now drivers.now }
    ensures some { IfSome result (λ found. IsRegisterBehind netlist.now net.0 found.0 found.1.0) }
    ensures none { IfNone result ((place request : ℕ) → IsRegisterBehind netlist.now net.0 place request → ⊥) }
{
    let Some(place) = drivers[net.0 as usize] else {
        return None;
    };
    let cell = &netlist.cells()[place as usize];
    if !cell.kind.is_register() {
        return None;
    }
    Some((place, cell.ins[1]))
}

/// Whether a register cell that is reset to 1 drives a net.
pub fn is_data_behind(netlist: &Netlist, drivers: &[Option<u32>], net: NetId) -> bool
    requires inside { net.0 < length netlist.now.nets }
    requires drivers { AreDrivers netlist.now drivers.now }
    ensures { IsTrue result ↔ IsDataBehind netlist.now net.0 }
{
    let Some(place) = drivers[net.0 as usize] else {
        return false;
    };
    let cell = &netlist.cells()[place as usize];
    cell.kind.is_data_register()
}

/// Whether two different register cells of one bank drive the pins of an acknowledge cell, one of which at most is
/// reset to 1.
fn reads_one_bit(netlist: &Netlist, drivers: &[Option<u32>], cell: &Cell) -> bool
    requires in_netlist { IsCell netlist.now cell.now }
    requires ack { IsAck cell.now }
    requires drivers { AreDrivers netlist.now drivers.now }
    ensures { IsTrue result ↔ ReadsOneBit netlist.now cell.now }
{
    let Some((zero, bank)) = register_behind(netlist, drivers, cell.ins[0]) else {
        return false;
    };
    let Some((one, other)) = register_behind(netlist, drivers, cell.ins[1]) else {
        return false;
    };
    if zero == one {
        return false;
    }
    if bank != other {
        return false;
    }
    !is_data_behind(netlist, drivers, cell.ins[0]) | !is_data_behind(netlist, drivers, cell.ins[1])
}

/// Whether the output of a register cell is on one pin of all acknowledge cells, and an acknowledge cell reads one
/// bit. Other cells have nothing to keep.
fn is_paired(netlist: &Netlist, drivers: &[Option<u32>], ack_pins: &[u32], cell: &Cell) -> bool
    requires in_netlist { IsCell netlist.now cell.now }
    requires drivers { AreDrivers netlist.now drivers.now }
    requires ack_pins { AreAckPins netlist.now ack_pins.now }
    ensures { IsTrue result ↔ IsPaired netlist.now cell.now }
{
    match cell.kind {
        CellKind::Gate(_) => true,
        CellKind::Register | CellKind::RegisterData => ack_pins[cell.out.0 as usize] == 1,
        CellKind::Ack => reads_one_bit(netlist, drivers, cell),
    }
}

/// The first register or acknowledge cell that isn't one of a pair. Linear in the cells.
#[tactic(auto, using(crate::proofs::TableSteps::after_last))]
pub(crate) fn first_unpaired(
    netlist: &Netlist,
    drivers: &[Option<u32>],
    ack_pins: &[u32],
) -> Option<CellId>
    requires drivers { AreDrivers netlist.now drivers.now }
    requires ack_pins { AreAckPins netlist.now ack_pins.now }
    ensures { MatchOption result ((k : ℕ) → AtCell IsPaired netlist.now k) (λ c. FailsFirst (AtCell IsPaired netlist.now) c.0) }
{
    for (place, cell) in netlist.cells().iter().enumerate() {
        if !is_paired(netlist, drivers, ack_pins, cell) {
            return Some(CellId(place as u32));
        }
    }
    None
}
