//! The bits of the banks.
ghost use Rattle.std.specs.Prelude.{◌≡◌, ◌<◌, IfOk, length, map};
ghost use Rattle.std.specs.List.{AllZip};
ghost use Rattle.ncl_cell_rules.specs.Origin.{CellAt, IsAck};
ghost use Rattle.ncl_cell_rules.specs.Free.{IsFree};
ghost use Rattle.ncl_cell_rules.specs.GateGraph.{AreDrivers};
ghost use Rattle.ncl_shape.specs.FoundChain.{IsChainOf, requests_of};
ghost use Rattle.ncl_shape.specs.FoundParts.{IsStart};
ghost use Rattle.ncl_shape.specs.Shape.{AreBitsOf, IsBitOf};

use crate::bank::Bit;
use crate::bank_lists::{empty_lists, number_of, put};
use crate::chain::Chain;
use ncl_base::Memory;
use ncl_cell_rules::{Origins, is_data_behind, register_behind};
use ncl_gates::CellKind;
use ncl_netlist::{Cell, CellId, NetId, Netlist};
use std::alloc::Global;

/// The value to which the bit is reset whose rails are two nets; `None` for NULL.
fn reset_value(netlist: &Netlist, drivers: &[Option<u32>], low: NetId, high: NetId) -> Option<bool>
    requires drivers { AreDrivers netlist.now drivers.now }
    requires low { low.0 < length netlist.now.nets }
    requires high { high.0 < length netlist.now.nets }
    ensures { IsStart netlist.now low.0 high.0 result }
{
    if is_data_behind(netlist, drivers, high) {
        return Some(true);
    }
    if is_data_behind(netlist, drivers, low) {
        return Some(false);
    }
    None
}

/// The bit of the acknowledge cell at a place, and its bank.
fn bit_of(netlist: &Netlist, drivers: &[Option<u32>], place: u32, cell: &Cell) -> (NetId, Bit)
    requires at { CellAt netlist.now place cell.now }
    requires ack { IsAck cell.now }
    requires drivers { AreDrivers netlist.now drivers.now }
    requires free { IsFree netlist.now }
    ensures bit { IsBitOf netlist.now result.0.0 result.1 }
    ensures place { result.1.ack.0 ≡ place }
{
    let (low, high) = (cell.ins[0], cell.ins[1]);
    let Some((zero, bank)) = register_behind(netlist, drivers, low) else {
        unreachable!();
    };
    let Some((one, _)) = register_behind(netlist, drivers, high) else {
        unreachable!();
    };
    let bit = Bit {
        rail0: CellId(zero),
        rail1: CellId(one),
        ack: CellId(place),
        start: reset_value(netlist, drivers, low, high),
    };
    (bank, bit)
}

/// The bits of each bank of a chain, in file order. Linear in the cells and banks.
pub(crate) fn bits_of_banks(
    alloc: Global,
    origins: &Origins,
    chain: &Chain,
) -> Result<Vec<Vec<Bit>>, Memory>
    requires free { IsFree origins.now.netlist }
    requires chain { IsChainOf origins.now.netlist chain.now }
    ensures { IfOk result (λ lists. AllZip (AreBitsOf origins.now.netlist) (requests_of chain.now) (map (λ l. l.items) lists.items)) }
{
    let netlist = origins.netlist();
    let mut lists = empty_lists(alloc, chain.banks.len())?;
    for (place, cell) in netlist.cells().iter().enumerate() {
        if let CellKind::Ack = cell.kind {
            let (bank, bit) = bit_of(netlist, origins.drivers(), place as u32, cell);
            put(&mut lists, number_of(chain, bank), bit)?;
        }
    }
    Ok(lists)
}
