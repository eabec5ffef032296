//! The gate cells of the stages.
ghost use Rattle.std.specs.Prelude.{◌≡◌, ℕ, IfOk, IfNone, IfSome, map};
ghost use Rattle.std.specs.List.{AllZip};
ghost use Rattle.ncl_gates.specs.declared.kind.Kind.{Kind};
ghost use Rattle.ncl_gates.specs.declared.cell_kind.CellKind.TheVariants.{Gate};
ghost use Rattle.ncl_cell_rules.specs.Origin.{ComesFrom, IsCell, RailOf};
ghost use Rattle.ncl_cell_rules.specs.Free.{IsFree};
ghost use Rattle.ncl_shape.specs.FoundChain.{IsChainOf, requests_of};
ghost use Rattle.ncl_shape.specs.FoundParts.{AreGatesOf};

use crate::bank_lists::{empty_lists, number_of, put};
use crate::chain::Chain;
use crate::stage::StageCell;
use ncl_base::Memory;
use ncl_cell_rules::{Origins, Source};
use ncl_gates::{CellKind, Kind};
use ncl_netlist::{Cell, CellId, NetId};
use std::alloc::Global;

/// A gate cell as a cell of a stage.
fn stage_cell(place: u32, kind: Kind, cell: &Cell) -> Result<StageCell, Memory>
    ensures place { IfOk result (λ g. g.cell.0 ≡ place) }
    ensures kind { IfOk result (λ g. g.kind ≡ kind) }
    ensures ins { IfOk result (λ g. g.ins.items ≡ cell.now.ins.items) }
    ensures out { IfOk result (λ g. g.out ≡ cell.now.out) }
{
    let ins = cell.ins.clone()?;
    Ok(StageCell {
        cell: CellId(place),
        kind,
        ins,
        out: cell.out,
    })
}

/// The bank whose rails a gate cell reads, and its gate; `None` for every other cell.
fn gate_of_bank(origins: &Origins, cell: &Cell) -> Option<(NetId, Kind)>
    requires in_netlist { IsCell origins.now.netlist cell.now }
    requires free { IsFree origins.now.netlist }
    ensures gate { IfSome result (λ found. cell.now.kind ≡ Gate found.1) }
    ensures reads { IfSome result (λ found. ComesFrom origins.now.netlist cell.now.out.0 (RailOf found.0.0)) }
    ensures none { IfNone result ((bank : ℕ) (kind : Kind) → cell.now.kind ≡ Gate kind → ComesFrom origins.now.netlist cell.now.out.0 (RailOf bank) → ⊥) }
{
    origins.facts();
    let CellKind::Gate(kind) = cell.kind else {
        return None;
    };
    let Source::Rail(bank) = origins.source(cell.out) else {
        return None;
    };
    Some((bank, kind))
}

/// For each bank of a chain the gate cells that read its rails, each after those that drive its pins.
/// Linear in the cells and banks.
pub(crate) fn gates_of_banks(
    alloc: Global,
    origins: &Origins,
    chain: &Chain,
) -> Result<Vec<Vec<StageCell>>, Memory>
    requires free { IsFree origins.now.netlist }
    requires chain { IsChainOf origins.now.netlist chain.now }
    ensures { IfOk result (λ lists. AllZip (AreGatesOf origins.now.netlist) (requests_of chain.now) (map (λ l. l.items) lists.items)) }
{
    let cells = origins.netlist().cells();
    let mut lists = empty_lists(alloc, chain.banks.len())?;
    for place in origins.order() {
        let cell = &cells[*place as usize];
        if let Some((bank, kind)) = gate_of_bank(origins, cell) {
            let gate = stage_cell(*place, kind, cell)?;
            put(&mut lists, number_of(chain, bank), gate)?;
        }
    }
    Ok(lists)
}
