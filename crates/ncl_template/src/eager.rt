//! The gates of a node that waits for some of its inputs.
ghost use Rattle.std.specs.Prelude.{◌≡◌, ◌+◌, ◌<◌, ◌^◌, ◌≤◌, [], IfOk, length};
ghost use Rattle.std.specs.List.{slice_index_or};
ghost use Rattle.ncl_decomp.specs.Split.{IsNarrow, cost_of_inputs};
ghost use Rattle.ncl_tree.specs.Gates.{nets_so_far};
ghost use Rattle.ncl_template.specs.Among.{AddsAmong};
ghost use Rattle.ncl_template.specs.Forms.{AreInner, IsForm, IsGateOf, AddsInner, AddsForm, no_net, pin_net};
ghost use Rattle.ncl_template.specs.PairGates.{AddsGate};
ghost use Rattle.ncl_template.specs.Template.{node_function};
ghost use Rattle.ncl_template.specs.Waits.{waits_at};

use crate::fitting::fitting;
use crate::form::{Form, FormGate, FormPin, MOST_INNER};
use crate::joint::joint_form;
use crate::template::add_template;
use crate::waits::Waits;
use arrayvec::ArrayVec;
use ncl_base::Memory;
use ncl_netlist::NetId;
use ncl_network::Node;
use ncl_shape::Rails;
use ncl_tree::Gates;

/// The net at a place, and net 0 past the end.
fn net_at(nets: &[NetId], place: usize) -> NetId
    ensures { result ≡ slice_index_or nets.now place no_net }
{
    match nets.get(place) {
        Some(net) => *net,
        None => NetId(0),
    }
}

/// The net on a pin.
fn pin_net(ins: &[Rails], inner: &[NetId], pin: FormPin) -> NetId
    ensures { result ≡ pin_net ins.now inner.now pin }
{
    let (place, rail) = match pin {
        FormPin::Zero(place) => (place, false),
        FormPin::One(place) => (place, true),
        FormPin::Inner(place) => return net_at(inner, place),
    };
    match ins.get(place) {
        Some(pair) => if rail { pair.one } else { pair.zero },
        None => NetId(0),
    }
}

/// Adds a gate of a form, and gives its net.
fn add_gate(
    gates: &mut Gates,
    gate: &FormGate,
    ins: &[Rails],
    inner: &[NetId],
) -> Result<NetId, Memory>
    requires few { length gate.now.pins.items ≤ 4 }
    requires room { nets_so_far gates.old + 1 < 2 ^ 32 }
    ensures gate { IfOk result (AddsGate (IsGateOf ins.now inner.now gate.now) gates.old.cells gates.new.cells) }
    ensures few { nets_so_far gates.new ≤ nets_so_far gates.old + 1 }
    ensures first { gates.new.first ≡ gates.old.first }
{
    let mut nets = ArrayVec::<NetId, 4>::new();
    for pin in gate.pins.as_slice() {
        nets.push(pin_net(ins, inner, *pin));
    }
    gates.add(gate.kind, nets)
}

/// Adds the inner gates of a form, and gives their nets.
fn add_inner(
    gates: &mut Gates,
    inner: &[FormGate],
    ins: &[Rails],
) -> Result<ArrayVec<NetId, MOST_INNER>, Memory>
    requires few { length inner.now ≤ MOST_INNER }
    requires are { AreInner (length ins.now) 0 inner.now }
    requires room { nets_so_far gates.old + 4 < 2 ^ 32 }
    ensures inner { IfOk result (λ nets. AddsInner ins.now [] inner.now gates.old.cells gates.new.cells nets.items) }
    ensures few { nets_so_far gates.new ≤ nets_so_far gates.old + 3 }
    ensures first { gates.new.first ≡ gates.old.first }
{
    let mut nets = ArrayVec::<NetId, MOST_INNER>::new();
    for gate in inner {
        let net = add_gate(gates, gate, ins, nets.as_slice())?;
        nets.push(net);
    }
    Ok(nets)
}

/// Adds the gates of a form over the pairs of the inputs, and gives the pair of its rails.
fn add_form(gates: &mut Gates, form: &Form, ins: &[Rails]) -> Result<Rails, Memory>
    requires is { IsForm (length ins.now) form.now }
    requires room { nets_so_far gates.old + 32 < 2 ^ 32 }
    ensures form { IfOk result (AddsForm ins.now form.now gates.old.cells gates.new.cells) }
    ensures first { gates.new.first ≡ gates.old.first }
{
    let inner = add_inner(gates, form.inner.as_slice(), ins)?;
    let nets = inner.as_slice();
    let zero = add_gate(gates, &form.zero, ins, nets)?;
    let one = add_gate(gates, &form.one, ins, nets)?;
    Ok(Rails { zero, one })
}

/// Adds the gates of a node that waits for some of its inputs at some words, over the pairs of what it reads, and gives the pair
/// that shows its bit: the first gates of the table that wait for these, by themselves or, for the first three of
/// four, together with the gates of the last; or those of `add_template`, which wait for all. At most 2 gates for two
/// inputs, 12 for three and 22 for four. Pairs may be equal, or each other's inverse.
///
/// Linear in the rows of the node. The only error is want of memory.
pub fn add_waiting(
    gates: &mut Gates,
    node: &Node,
    ins: &[Rails],
    waits: Waits,
) -> Result<Rails, Memory>
    requires narrow { IsNarrow node.now }
    requires as_many { length ins.now ≡ length node.now.ins }
    requires room { nets_so_far gates.old + 32 < 2 ^ 32 }
    ensures template { IfOk result (AddsAmong (node_function node.now) ins.now (waits_at waits) (cost_of_inputs (length node.now.ins)) gates.old.cells gates.new.cells) }
    ensures first { gates.new.first ≡ gates.old.first }
{
    if let Some(form) = fitting(node, waits) {
        let alone = add_form(gates, &form, ins)?;
        return Ok(alone);
    }
    if let Some(form) = joint_form(node, waits, gates.cells(), ins) {
        let beside = add_form(gates, &form, ins)?;
        return Ok(beside);
    }
    let all = add_template(gates, node, ins)?;
    Ok(all)
}
