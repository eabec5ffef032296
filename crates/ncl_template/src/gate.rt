//! Single gates over two pairs.
ghost use Rattle.std.specs.Prelude.{◌≡◌, ◌+◌, ◌<◌, ◌≤◌, ◌^◌, length, map, IfOk};
ghost use Rattle.ncl_tree.specs.Gates.{nets_so_far};
ghost use Rattle.ncl_template.specs.PairGates.{wire_net, two_kind, two_pins, IsTwoGate, AddsGate};

use crate::table::TableRow;
use arrayvec::ArrayVec;
use ncl_base::Memory;
use ncl_gates::Kind;
use ncl_netlist::NetId;
use ncl_shape::Rails;
use ncl_tree::Gates;

/// The nets of the input pins of a gate, in order.
pub(crate) fn pins(nets: &[NetId]) -> ArrayVec<NetId, 4>
    requires { length nets.now ≤ 4 }
    ensures { result.items ≡ nets.now }
{
    let mut pins = ArrayVec::new();
    for net in nets {
        pins.push(*net);
    }
    pins
}

/// The gate that is set where a word of a set has its nets of both pairs high, and its input nets.
fn two_gate(set: TableRow, a: Rails, b: Rails) -> (Kind, ArrayVec<NetId, 4>)
    ensures kind { result.0 ≡ two_kind set.at_00 set.at_01 set.at_10 set.at_11 }
    ensures ins { result.1.items ≡ map (wire_net a b) (two_pins set.at_00 set.at_01 set.at_10 set.at_11) }
{
    match (set.at_00, set.at_01, set.at_10, set.at_11) {
        (false, false, false, false) => (Kind::Th22, pins(&[a.zero, a.one])),
        (true, false, false, false) => (Kind::Th22, pins(&[a.zero, b.zero])),
        (false, true, false, false) => (Kind::Th22, pins(&[a.zero, b.one])),
        (false, false, true, false) => (Kind::Th22, pins(&[a.one, b.zero])),
        (false, false, false, true) => (Kind::Th22, pins(&[a.one, b.one])),
        (true, true, false, false) => (Kind::Th33w2, pins(&[a.zero, b.zero, b.one])),
        (false, false, true, true) => (Kind::Th33w2, pins(&[a.one, b.zero, b.one])),
        (true, false, true, false) => (Kind::Th33w2, pins(&[b.zero, a.zero, a.one])),
        (false, true, false, true) => (Kind::Th33w2, pins(&[b.one, a.zero, a.one])),
        (true, false, false, true) => (Kind::Th24comp, pins(&[a.zero, b.one, a.one, b.zero])),
        (false, true, true, false) => (Kind::Th24comp, pins(&[a.zero, b.zero, a.one, b.one])),
        (true, true, true, false) => (Kind::ThAnd0, pins(&[a.zero, b.zero, a.one, b.one])),
        (true, true, false, true) => (Kind::ThAnd0, pins(&[a.zero, b.one, a.one, b.zero])),
        (true, false, true, true) => (Kind::ThAnd0, pins(&[a.one, b.zero, a.zero, b.one])),
        (false, true, true, true) => (Kind::ThAnd0, pins(&[a.one, b.one, a.zero, b.zero])),
        (true, true, true, true) => (Kind::Th24comp, pins(&[a.zero, a.one, b.zero, b.one])),
    }
}

/// Adds the gate that is set where a word of a set has its nets of both pairs high, and gives its net.
pub(crate) fn add_two_gate(
    gates: &mut Gates,
    set: TableRow,
    a: Rails,
    b: Rails,
) -> Result<NetId, Memory>
    requires { nets_so_far gates.old + 1 < 2 ^ 32 }
    ensures gate { IfOk result (AddsGate (IsTwoGate set a b) gates.old.cells gates.new.cells) }
    ensures few { nets_so_far gates.new ≤ nets_so_far gates.old + 1 }
    ensures first { gates.new.first ≡ gates.old.first }
{
    let (kind, ins) = two_gate(set, a, b);
    gates.add(kind, ins)
}
