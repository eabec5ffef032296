//! The values of a stage at a word.
ghost use Rattle.std.specs.Prelude.{◌≡◌, ◌<◌, ◌≤◌, ◌||◌, ℕ, All, IfOk, length, map};
ghost use Rattle.ncl_gates.specs.Gate.{arity_of};
ghost use Rattle.ncl_shape.specs.Nets.{among};
ghost use Rattle.ncl_shape.specs.Stage.{named_rails, nets_of, rail_nets};
ghost use Rattle.ncl_faults.specs.Pass.{pass};
ghost use Rattle.ncl_faults.specs.Values.{holds};
ghost use Rattle.ncl_reaching.specs.Evaluating.{none_low, value_in, word_on};

use arrayvec::ArrayVec;
use ncl_base::{Memory, Word};
use ncl_netlist::NetId;
use ncl_shape::{Rails, Stage, StageCell};
use std::alloc::Global;

/// The word on some rails of a stage at a word of its inputs: for each bit the value of its rail 1. All nets are below a number.
/// Linear in that number and in the gates.
pub(crate) fn word_on(
    alloc: Global,
    stage: &Stage,
    nets: usize,
    word: &Word,
    rails: &[Rails],
) -> Result<Word, Memory>
    requires within { All (λ net. net < nets) (nets_of stage.now.inputs stage.now.cells) }
    requires wide { length word.now ≡ length stage.now.inputs }
    requires few { length rails.now ≤ 128 }
    ensures { IfOk result (λ made. made ≡ word_on stage.now word.now rails.now) }
{
    stage.facts();
    let mut values = vec![in alloc; false; nets]?;
    raise(&mut values, stage.inputs.items(), word);
    evaluate(&mut values, stage.cells.items());
    Ok(read(values.as_slice(), rails))
}

/// The value of a net, low past the end.
fn value(values: &[bool], net: NetId) -> bool
    ensures { result ≡ value_in values.now net.0 }
{
    match values.get(net.0 as usize) {
        Some(value) => *value,
        None => false,
    }
}

/// Raises the rails that a word names. Linear in the bits.
fn raise(values: &mut Vec<bool>, inputs: &[Rails], word: &Word)
    requires wide { length word.now ≡ length inputs.now }
    requires within { All (λ net. net < length values.old.items) (rail_nets inputs.now) }
    ensures many { length values.new.items ≡ length values.old.items }
    ensures named { (net : ℕ) → value_in values.new.items net ≡ (among (named_rails inputs.now word.now) net || value_in values.old.items net) }
{
    let mut left = inputs.len();
    while left > 0 {
        left -= 1;
        let rails = &inputs[left];
        let net = if word.bits()[left] {
            rails.one
        } else {
            rails.zero
        };
        values[net.0 as usize] = true;
    }
}

/// Gives the output of each gate in turn the value of its set function. Linear in the pins.
fn evaluate(values: &mut Vec<bool>, gates: &[StageCell])
    requires arities { All (λ gate. length gate.ins.items ≡ arity_of gate.kind) gates.now }
    requires within { All (λ gate. gate.out.0 < length values.old.items) gates.now }
    ensures many { length values.new.items ≡ length values.old.items }
    ensures values { (net : ℕ) → value_in values.new.items net ≡ pass none_low gates.now (value_in values.old.items) net }
{
    for gate in gates {
        let high = is_set(values.as_slice(), gate);
        values[gate.out.0 as usize] = high;
    }
}

/// Whether the set function of a gate holds. Linear in its pins.
fn is_set(values: &[bool], gate: &StageCell) -> bool
    requires { length gate.now.ins.items ≡ arity_of gate.now.kind }
    ensures { result ≡ holds (value_in values.now) gate.now }
{
    let mut pins: ArrayVec<bool, 4> = ArrayVec::new();
    for net in gate.ins.as_slice() {
        pins.push(value(values, *net));
    }
    gate.kind.set(pins.as_slice())
}

/// The values of the rails 1 of some bits. Linear in the bits.
fn read(values: &[bool], rails: &[Rails]) -> Word
    requires { length rails.now ≤ 128 }
    ensures { result ≡ map (λ bit. value_in values.now bit.one.0) rails.now }
{
    let mut word = Word::new();
    for bit in rails {
        word.push(value(values, bit.one));
    }
    word
}
