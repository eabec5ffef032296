//! The cells of a bank, named by their places.
ghost use Rattle.std.specs.Prelude.{◌≡◌, ◌+◌, ◌*◌, ◌<◌, ◌≤◌, [], ◌∷◌, All, OnOk, IfOk, length, map};
ghost use Rattle.std.specs.List.{zip};
ghost use Rattle.ncl_tree.specs.PartNames.{most_parts};
ghost use Rattle.ncl_bank.specs.BankParts.{bank_pins};
ghost use Rattle.ncl_bank.specs.BankPlan.{AddsCells, register_with, ack_of, name_at, nets_of_gate, tree_cell_of, IsNetOf};

use crate::nets::copied;
use ncl_base::{Items, Memory, Name};
use ncl_gates::CellKind;
use ncl_netlist::{NamePair, PartCell};
use ncl_shape::StageCell;
use ncl_tree::cell_name;
use std::alloc::Global;

/// Adds a cell, whose name is made of the prefix and its place.
fn add_cell(
    cells: &mut Vec<PartCell>,
    prefix: &[u8],
    kind: CellKind,
    pins: Vec<Name>,
) -> Result<(), Memory>
    requires { length cells.old.items < most_parts }
    ensures { OnOk result (AddsCells prefix.now (record { kind = kind; pins = pins.items } ∷ [])
        cells.old.items cells.new.items) }
{
    let alloc = *cells.allocator();
    let name = cell_name(alloc, prefix, cells.len() as u32)?;
    cells.push(PartCell {
        kind,
        name,
        pins: Items::from_vec(pins),
    })?;
    Ok(())
}

/// Adds the register cell between two rails.
fn add_register(
    cells: &mut Vec<PartCell>,
    prefix: &[u8],
    from: &Name,
    request: &Name,
    rst: &Name,
    to: &Name,
) -> Result<(), Memory>
    requires { length cells.old.items < most_parts }
    ensures { OnOk result (AddsCells prefix.now
        (register_with (from.now ∷ request.now ∷ rst.now ∷ to.now ∷ []) ∷ [])
        cells.old.items cells.new.items) }
{
    let alloc = *cells.allocator();
    let pins = vec![in alloc; copied(from)?, copied(request)?, copied(rst)?, copied(to)?]?;
    add_cell(cells, prefix, CellKind::Register, pins)
}

/// Adds the two register cells of each bit. Linear in the bits.
pub(crate) fn add_registers(
    cells: &mut Vec<PartCell>,
    prefix: &[u8],
    ins: &[NamePair],
    outs: &[NamePair],
    request: &Name,
    rst: &Name,
) -> Result<(), Memory>
    requires { length cells.old.items + 2 * length ins.now ≤ most_parts }
    ensures { OnOk result (AddsCells prefix.now
        (map register_with (bank_pins ins.now outs.now request.now rst.now))
        cells.old.items cells.new.items) }
{
    for (from, to) in ins.iter().zip(outs) {
        add_register(cells, prefix, &from.zero, request, rst, &to.zero)?;
        add_register(cells, prefix, &from.one, request, rst, &to.one)?;
    }
    Ok(())
}

/// Adds the acknowledge cell of each bit, which drives the net at the place of the bit. Linear in the bits.
pub(crate) fn add_acks(
    cells: &mut Vec<PartCell>,
    prefix: &[u8],
    pairs: &[NamePair],
    nets: &[Name],
) -> Result<(), Memory>
    requires { length cells.old.items + length pairs.now ≤ most_parts }
    ensures { OnOk result (AddsCells prefix.now (map ack_of (zip pairs.now nets.now))
        cells.old.items cells.new.items) }
{
    let alloc = *cells.allocator();
    for (pair, net) in pairs.iter().zip(nets) {
        let pins = vec![in alloc; copied(&pair.zero)?, copied(&pair.one)?, copied(net)?]?;
        add_cell(cells, prefix, CellKind::Ack, pins)?;
    }
    Ok(())
}

/// The names of the nets at the pins of a gate. Linear in the pins.
fn pin_names(alloc: Global, gate: &StageCell, nets: &[Name]) -> Result<Vec<Name>, Memory>
    requires ins { All (IsNetOf nets.now) gate.now.ins.items }
    requires out { IsNetOf nets.now gate.now.out }
    ensures { IfOk result (λ names. names.items ≡ map (name_at nets.now) (nets_of_gate gate.now)) }
{
    let mut names = Vec::new(alloc);
    for net in gate.ins.as_slice() {
        names.push(copied(&nets[net.0 as usize])?)?;
    }
    names.push(copied(&nets[gate.out.0 as usize])?)?;
    Ok(names)
}

/// Adds the cell of each gate of the tree. Linear in the gates.
pub(crate) fn add_tree_cells(
    cells: &mut Vec<PartCell>,
    prefix: &[u8],
    gates: &[StageCell],
    nets: &[Name],
) -> Result<(), Memory>
    requires room { length cells.old.items + length gates.now ≤ most_parts }
    requires ins { All (λ gate. All (IsNetOf nets.now) gate.ins.items) gates.now }
    requires outs { All (λ gate. IsNetOf nets.now gate.out) gates.now }
    ensures { OnOk result (AddsCells prefix.now (map (tree_cell_of nets.now) gates.now)
        cells.old.items cells.new.items) }
{
    let alloc = *cells.allocator();
    for gate in gates {
        let pins = pin_names(alloc, gate, nets)?;
        add_cell(cells, prefix, CellKind::Gate(gate.kind), pins)?;
    }
    Ok(())
}
