//! Names for the nets and cells of gates.
ghost use Rattle.std.specs.Prelude.{◌≡◌, length, map, All, IfOk};
ghost use Rattle.ncl_shape.specs.Stage.{rail_nets};
ghost use Rattle.ncl_tree.specs.NamePairs.{pair_names};
ghost use Rattle.ncl_rails.specs.Named.{IsNamed, CanBeNamed, name_of_net, name_of_pair, part_of_gate};

use ncl_base::{Items, Memory, Name};
use ncl_gates::CellKind;
use ncl_netlist::{NamePair, NetId, PartCell};
use ncl_shape::{Rails, StageCell};
use ncl_tree::{cell_name, net_name};
use std::alloc::Global;

/// The name of a net: the first nets have the names of the inputs, and those after them names of the prefix.
fn name_of_net(alloc: Global, ins: &[NamePair], prefix: &[u8], net: NetId) -> Result<Name, Memory>
    requires { IsNamed (length ins.now) net.0 }
    ensures { IfOk result (λ name. name ≡ name_of_net (pair_names ins.now) prefix.now net.0) }
{
    let place = net.0 as usize;
    match ins.get(place / 2) {
        Some(pair) if place % 2 == 0 => Name::from_bytes(alloc, pair.zero.bytes()),
        Some(pair) => Name::from_bytes(alloc, pair.one.bytes()),
        None => net_name(alloc, prefix, (place - 2 * ins.len()) as u32),
    }
}

/// The names of a pair of nets.
fn name_of_pair(
    alloc: Global,
    ins: &[NamePair],
    prefix: &[u8],
    pair: Rails,
) -> Result<NamePair, Memory>
    requires zero { IsNamed (length ins.now) pair.zero.0 }
    requires one { IsNamed (length ins.now) pair.one.0 }
    ensures { IfOk result (λ names. names ≡ name_of_pair (pair_names ins.now) prefix.now pair) }
{
    let zero = name_of_net(alloc, ins, prefix, pair.zero)?;
    let one = name_of_net(alloc, ins, prefix, pair.one)?;
    Ok(NamePair { zero, one })
}

/// The names of some pairs of nets. Linear in the pairs.
pub(crate) fn names_of_pairs(
    alloc: Global,
    ins: &[NamePair],
    prefix: &[u8],
    pairs: &[Rails],
) -> Result<Vec<NamePair>, Memory>
    requires { All (IsNamed (length ins.now)) (rail_nets pairs.now) }
    ensures { IfOk result (λ names. names.items ≡ map (name_of_pair (pair_names ins.now) prefix.now) pairs.now) }
{
    let mut names = Vec::new(alloc);
    for pair in pairs {
        names.push(name_of_pair(alloc, ins, prefix, *pair)?)?;
    }
    Ok(names)
}

/// A gate by names.
fn part_of_gate(
    alloc: Global,
    ins: &[NamePair],
    prefix: &[u8],
    gate: &StageCell,
) -> Result<PartCell, Memory>
    requires { CanBeNamed (length ins.now) gate.now }
    ensures { IfOk result (λ part. part ≡ part_of_gate (pair_names ins.now) prefix.now gate.now) }
{
    let mut pins = Vec::new(alloc);
    for net in gate.ins.as_slice() {
        pins.push(name_of_net(alloc, ins, prefix, *net)?)?;
    }
    pins.push(name_of_net(alloc, ins, prefix, gate.out)?)?;
    let name = cell_name(alloc, prefix, gate.cell.0)?;
    Ok(PartCell {
        kind: CellKind::Gate(gate.kind),
        name,
        pins: Items::from_vec(pins),
    })
}

/// Gates by names. Linear in the gates.
pub(crate) fn parts_of_gates(
    alloc: Global,
    ins: &[NamePair],
    prefix: &[u8],
    gates: &[StageCell],
) -> Result<Vec<PartCell>, Memory>
    requires { All (CanBeNamed (length ins.now)) gates.now }
    ensures { IfOk result (λ parts. parts.items ≡ map (part_of_gate (pair_names ins.now) prefix.now) gates.now) }
{
    let mut parts = Vec::new(alloc);
    for gate in gates {
        parts.push(part_of_gate(alloc, ins, prefix, gate)?)?;
    }
    Ok(parts)
}
