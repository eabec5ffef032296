//! Joint waiting: a node that waits for its first inputs together with the gates of its last.
ghost use Rattle.std.specs.Prelude.{◌≡◌, ◌<◌, ◌≤◌, List, [], Bool, true, false, All, IfSome, length, map};
ghost use Rattle.ncl_template.specs.Template.{node_function};
ghost use Rattle.ncl_template.specs.Waits.{waits_once};
ghost use Rattle.ncl_template.specs.Forms.{IsFormPin, IsFormGate, pin_net, IsGateOf};
ghost use Rattle.ncl_template.specs.Joint.{IsGateAmong, AreJoined, joint_pin, joint_bit, WaitsJointly, FitsJointly};

use crate::fitting::{fitting, is_gate};
use crate::form::{Form, FormGate, FormPin, is_set, pin_bit};
use crate::waits::Waits;
use arrayvec::ArrayVec;
use ncl_decomp::table::word_of;
use ncl_netlist::NetId;
use ncl_network::{Node, Signal};
use ncl_shape::{Rails, StageCell};

/// The pin on which a net of some pairs is, if it is one.
fn pin_seen(ins: &[Rails], net: NetId) -> Option<FormPin>
    ensures { IfSome result (λ pin. (pin_net ins.now [] pin ≡ net) × IsFormPin (length ins.now) 0 pin) }
{
    for place in 0..ins.len() {
        if ins[place].zero == net {
            return Some(FormPin::Zero(place));
        }
        if ins[place].one == net {
            return Some(FormPin::One(place));
        }
    }
    None
}

/// The pins on which nets of some pairs are, if all are.
fn pins_seen(ins: &[Rails], nets: &[NetId]) -> Option<ArrayVec<FormPin, 4>>
    requires { length nets.now ≤ 4 }
    ensures nets { IfSome result (λ pins. map (pin_net ins.now []) pins.items ≡ nets.now) }
    ensures pins { IfSome result (λ pins. All (IsFormPin (length ins.now) 0) pins.items) }
{
    let mut pins: ArrayVec<FormPin, 4> = ArrayVec::new();
    for net in nets {
        let pin = pin_seen(ins, *net)?;
        pins.push(pin);
    }
    Some(pins)
}

/// A cell as a gate over some pairs, if it is one.
fn gate_seen(cell: &StageCell, ins: &[Rails]) -> Option<FormGate>
    ensures is { IfSome result (λ gate. IsGateOf ins.now [] gate cell.now) }
    ensures fit { IfSome result (IsFormGate (length ins.now) 0) }
{
    let nets = cell.ins.as_slice();
    if nets.len() != cell.kind.arity() {
        return None;
    }
    let pins = pins_seen(ins, nets)?;
    Some(FormGate {
        kind: cell.kind,
        pins,
    })
}

/// The gate over some pairs that drives a net, if one of some cells does that drive nets one after the other.
fn gate_of(cells: &[StageCell], ins: &[Rails], net: NetId) -> Option<FormGate>
    ensures { IfSome result (IsGateAmong cells.now ins.now net) }
{
    let first = cells.first()?.out.0;
    if net.0 < first {
        return None;
    }
    let place = (net.0 - first) as usize;
    if place >= cells.len() || cells[place].out != net {
        return None;
    }
    gate_seen(&cells[place], ins)
}

/// The two gates of the last input of a node.
#[derive(Drop)]
struct Last {
    zero: FormGate,
    one: FormGate,
}

/// A gate of a node that is tried beside those of its last input.
#[derive(Clone, Copy)]
struct Beside<'a> {
    last: &'a Last,
    gate: &'a FormGate,
    waits: Waits,
}

impl<'a> Beside<'a> {
    /// The bit on a pin where the first inputs show a word, but the one at a place is NULL.
    fn pin_bit(&self, word: &[bool], null: usize, pin: FormPin) -> bool
        requires { AreJoined self.now.last.now.zero self.now.last.now.one self.now.gate.now }
        ensures { result ≡ joint_pin self.now.last.now.zero self.now.last.now.one word.now null pin }
    {
        match pin {
            FormPin::Zero(place) => {
                if place == word.len() {
                    is_set(word, null, &[], &self.last.zero)
                } else {
                    pin_bit(word, null, &[], pin)
                }
            }
            FormPin::One(place) => {
                if place == word.len() {
                    is_set(word, null, &[], &self.last.one)
                } else {
                    pin_bit(word, null, &[], pin)
                }
            }
            FormPin::Inner(_) => false,
        }
    }

    /// Whether the gate is set where the first inputs show a word, but the one at a place is NULL.
    fn is_set(&self, word: &[bool], null: usize) -> bool
        requires { AreJoined self.now.last.now.zero self.now.last.now.one self.now.gate.now }
        ensures { result ≡ joint_bit self.now.last.now.zero self.now.last.now.one word.now null self.now.gate.now }
    {
        let mut values = ArrayVec::<bool, 4>::new();
        for pin in self.gate.pins.as_slice() {
            values.push(self.pin_bit(word, null, *pin));
        }
        self.gate.kind.set(&values)
    }

    /// Whether it waits at a word for an input, if it is to.
    fn waits_for(&self, word: &[bool], null: usize) -> bool
        requires { AreJoined self.now.last.now.zero self.now.last.now.one self.now.gate.now }
        ensures { result ≡ true → waits_once self.now.waits null ≡ true → joint_bit self.now.last.now.zero self.now.last.now.one word.now null self.now.gate.now ≡ false }
    {
        !self.waits.once(null) || !self.is_set(word, null)
    }

    /// Whether it waits at a word for those of the first inputs that it is to wait for.
    fn waits_at(&self, word: &[bool]) -> bool
        requires { AreJoined self.now.last.now.zero self.now.last.now.one self.now.gate.now }
        ensures { result ≡ true → WaitsJointly self.now.last.now.zero self.now.last.now.one (waits_once self.now.waits) self.now.gate.now word.now }
    {
        for null in 0..word.len() {
            if !self.waits_for(word, null) {
                return false;
            }
        }
        true
    }

    /// Whether it does at each word.
    fn waits_always(&self) -> bool
        requires { AreJoined self.now.last.now.zero self.now.last.now.one self.now.gate.now }
        ensures { result ≡ true → (word : List Bool) → length word ≡ 3 → WaitsJointly self.now.last.now.zero self.now.last.now.one (waits_once self.now.waits) self.now.gate.now word }
    {
        for number in 0..8 {
            if !self.waits_at(&word_of(number)[..3]) {
                return false;
            }
        }
        true
    }
}

/// Whether both gates of a form wait for some of three inputs beside those of a last input.
fn wait_beside(form: &Form, last: &Last, waits: Waits) -> bool
    requires zero { AreJoined last.now.zero last.now.one form.now.zero }
    requires one { AreJoined last.now.zero last.now.one form.now.one }
    ensures zero { result ≡ true → (word : List Bool) → length word ≡ 3 → WaitsJointly last.now.zero last.now.one (waits_once waits) form.now.zero word }
    ensures one { result ≡ true → (word : List Bool) → length word ≡ 3 → WaitsJointly last.now.zero last.now.one (waits_once waits) form.now.one word }
{
    let zero = Beside {
        last,
        gate: &form.zero,
        waits,
    };
    let one = Beside {
        last,
        gate: &form.one,
        waits,
    };
    zero.waits_always() && one.waits_always()
}

/// The gates of a node of four inputs that wait for some of the first three together with the gates of the last, which
/// are two of some cells over the first three; if there are such. The cells drive nets one after the other.
pub(crate) fn joint_form(
    node: &Node,
    waits: Waits,
    cells: &[StageCell],
    ins: &[Rails],
) -> Option<Form>
    requires { length ins.now ≡ length node.now.ins }
    ensures { IfSome result (FitsJointly cells.now (node_function node.now) ins.now (waits_once waits)) }
{
    if ins.len() != 4 || waits.once(3) {
        return None;
    }
    let form = fitting(node, Waits::NONE)?;
    if !form.inner.is_empty() {
        return None;
    }
    let first = &ins[..3];
    let zero = gate_of(cells, first, ins[3].zero)?;
    let one = gate_of(cells, first, ins[3].one)?;
    let last = Last { zero, one };
    if wait_beside(&form, &last, waits) {
        Some(form)
    } else {
        None
    }
}

/// The first three of four inputs.
const FIRST_THREE: Waits = Waits {
    fourth: 0,
    ..Waits::ALL
};

/// A pin over some signals as one over others, among which its signal's source is.
fn pin_over(pin: FormPin, from: &[Signal], to: &[Signal]) -> Option<FormPin> {
    let (place, rail) = match pin {
        FormPin::Zero(place) => (place, false),
        FormPin::One(place) => (place, true),
        FormPin::Inner(_) => return None,
    };
    let signal = from.get(place)?;
    for (other, input) in to.iter().enumerate() {
        if input.from == signal.from {
            let same = input.inverted == signal.inverted;
            return Some(if rail == same {
                FormPin::One(other)
            } else {
                FormPin::Zero(other)
            });
        }
    }
    None
}

/// A gate over some signals as one over others.
fn gate_over(gate: &FormGate, from: &[Signal], to: &[Signal]) -> Option<FormGate> {
    let mut pins: ArrayVec<FormPin, 4> = ArrayVec::new();
    for pin in gate.pins.as_slice() {
        let other = pin_over(*pin, from, to)?;
        let _ = pins.try_push(other);
    }
    Some(FormGate {
        kind: gate.kind,
        pins,
    })
}

/// The gates of the last input of a node over the first three, where it is of a node that waits for these of its
/// inputs.
fn last_gates(node: &Node, last: &Node, of_last: Waits) -> Option<Last> {
    let ins = node.ins.items();
    if ins.len() != 4 {
        return None;
    }
    let form = fitting(last, of_last)?;
    if !form.inner.is_empty() {
        return None;
    }
    let zero = gate_over(&form.zero, last.ins.items(), &ins[..3])?;
    let one = gate_over(&form.one, last.ins.items(), &ins[..3])?;
    Some(if ins[3].inverted {
        Last {
            zero: one,
            one: zero,
        }
    } else {
        Last { zero, one }
    })
}

/// Whether a node of four inputs has gates that wait for the first three together with those of the last, where this is
/// of another node, over sources of the first three alone, which waits for so many of its inputs. As the sum of three
/// bits does beside their carry. Linear in the rows of both nodes.
pub fn waits_with_last(node: &Node, last: &Node, of_last: Waits) -> bool {
    let Some(gates) = last_gates(node, last, of_last) else {
        return false;
    };
    let Some(form) = fitting(node, Waits::NONE) else {
        return false;
    };
    let fit = form.inner.is_empty()
        && is_gate(&gates.zero, 3, 0)
        && is_gate(&gates.one, 3, 0)
        && is_gate(&form.zero, 4, 0)
        && is_gate(&form.one, 4, 0);
    fit && wait_beside(&form, &gates, FIRST_THREE)
}
