//! The numbers of the nets, in order of first appearance.
ghost use Rattle.std.specs.Prelude.{◌≡◌, ℕ, ◌+◌, ◌*◌, ◌<◌, ◌≤◌, ◌^◌, ◌++◌, [], List, IfOk, OnOk, length, map, All};
ghost use Rattle.std.specs.List.{flat_map};
ghost use Rattle.indexmap.specs.IndexSet.{insert_key, insert_all};
ghost use Rattle.ncl_netlist.specs.Names.{same_name};
ghost use Rattle.ncl_netlist.specs.Parts.{HasAllPins, net_of, cell_of};

use crate::cell::Cell;
use crate::ids::NetId;
use crate::parts::PartCell;
use crate::port::Port;
use arrayvec::ArrayVec;
use indexmap::IndexSet;
use ncl_base::{Memory, Name};
use std::alloc::Global;

/// The number of the net of a name, which comes last where it is new.
///
/// It stays the same whatever names come later.
fn number_net(names: &mut IndexSet<Name>, name: Name) -> Result<NetId, Memory>
    requires { length names.old.keys + 1 < 2 ^ 32 }
    ensures names { IfOk result (λ _. names.new.keys ≡ insert_key same_name names.old.keys name) }
    ensures net { IfOk result
        (λ net. (more : List (List ℕ)) → net ≡ net_of (names.new.keys ++ more) name) }
{
    let (place, _) = names.insert_full(name)?;
    Ok(NetId(place as u32))
}

/// The numbers of the nets at the input pins. Linear in the bytes of the names.
fn number_inputs(
    names: &mut IndexSet<Name>,
    inputs: Vec<Name>,
) -> Result<ArrayVec<NetId, 4>, Memory>
    requires few { length inputs.items ≤ 4 }
    requires room { length names.old.keys + length inputs.items < 2 ^ 32 }
    ensures names { IfOk result
        (λ _. names.new.keys ≡ insert_all same_name names.old.keys inputs.items) }
    ensures nets { IfOk result (λ ins. (more : List (List ℕ)) →
        ins.items ≡ map (net_of (names.new.keys ++ more)) inputs.items) }
{
    let mut ins = ArrayVec::new();
    for input in inputs {
        ins.push(number_net(names, input)?);
    }
    Ok(ins)
}

/// The cell with the numbers of its nets.
fn number_cell(names: &mut IndexSet<Name>, cell: PartCell) -> Result<Cell, Memory>
    requires pins { HasAllPins cell }
    requires room { length names.old.keys + 5 < 2 ^ 32 }
    ensures names { IfOk result
        (λ _. names.new.keys ≡ insert_all same_name names.old.keys cell.pins) }
    ensures cell { IfOk result
        (λ c. (more : List (List ℕ)) → c ≡ cell_of (names.new.keys ++ more) cell) }
    ensures few { IfOk result (λ _. length names.new.keys ≤ length names.old.keys + 5) }
{
    let PartCell { kind, name, pins } = cell;
    let mut inputs = pins.into_vec();
    let output = inputs.pop().unwrap();
    let ins = number_inputs(names, inputs)?;
    let out = number_net(names, output)?;
    Ok(Cell {
        kind,
        name,
        ins,
        out,
    })
}

/// The cells with the numbers of their nets, whose names come after those that are there.
///
/// Linear in the bytes of the names.
fn number_cells(
    alloc: Global,
    names: &mut IndexSet<Name>,
    cells: Vec<PartCell>,
) -> Result<Vec<Cell>, Memory>
    requires pins { All HasAllPins cells.items }
    requires room { length names.old.keys + 5 * length cells.items < 2 ^ 32 }
    ensures names { IfOk result (λ _. names.new.keys
        ≡ insert_all same_name names.old.keys (flat_map (λ cell. cell.pins) cells.items)) }
    ensures cells { IfOk result (λ numbered. numbered.items ≡ map (cell_of names.new.keys) cells.items) }
{
    let mut numbered = Vec::with_capacity(alloc, cells.len())?;
    for cell in cells {
        numbered.push(number_cell(names, cell)?)?;
    }
    Ok(numbered)
}

/// Puts the names of the ports into a set that is empty. Linear in the bytes of the names, each of which is copied.
fn add_ports(alloc: Global, names: &mut IndexSet<Name>, ports: &[Port]) -> Result<(), Memory>
    requires { names.old.keys ≡ [] }
    ensures { OnOk result (names.new.keys ≡ insert_all same_name [] (map (λ port. port.name) ports.now)) }
{
    for port in ports {
        names.insert(Name::from_bytes(alloc, port.name.bytes())?)?;
    }
    Ok(())
}

/// The names of the ports, which are the first nets, with room for as many names of cells' nets as are told.
///
/// Linear in the bytes of the names, each of which is copied, and in the room.
fn number_ports(alloc: Global, ports: &[Port], others: usize) -> Result<IndexSet<Name>, Memory>
    requires { length ports.now + others < 2 ^ 32 }
    ensures { IfOk result
        (λ names. names.keys ≡ insert_all same_name [] (map (λ port. port.name) ports.now)) }
{
    let mut names: IndexSet<Name> = IndexSet::with_capacity(alloc, ports.len() + others)?;
    add_ports(alloc, &mut names, ports)?;
    Ok(names)
}

/// The names in the order of their numbers. Linear in the names.
fn into_nets(alloc: Global, names: IndexSet<Name>) -> Result<Vec<Name>, Memory>
    ensures { IfOk result (λ nets. nets.items ≡ names.keys) }
{
    Ok(names.into_iter().collect(alloc)?)
}

/// The names of the nets in the order of their numbers, and the cells with these numbers.
///
/// Near linear in the bytes of the names.
pub(crate) fn number_all(
    alloc: Global,
    ports: &[Port],
    cells: Vec<PartCell>,
) -> Result<(Vec<Name>, Vec<Cell>), Memory>
    requires pins { All HasAllPins cells.items }
    requires room { length ports.now + 5 * length cells.items < 2 ^ 32 }
    ensures nets { IfOk result (λ r. r.0.items ≡ insert_all same_name
        (insert_all same_name [] (map (λ port. port.name) ports.now)) (flat_map (λ cell. cell.pins) cells.items)) }
    ensures cells { IfOk result (λ r. r.1.items ≡ map (cell_of r.0.items) cells.items) }
{
    let mut names = number_ports(alloc, ports, cells.len())?;
    let numbered = number_cells(alloc, &mut names, cells)?;
    let nets = into_nets(alloc, names)?;
    Ok((nets, numbered))
}
