//! Plans: operations one after another.
ghost use Rattle.std.specs.Prelude.{◌≡◌, List, Bool, ℕ, All, IfOk, length, map};
ghost use Rattle.ncl_network.specs.Network.{signal_value, IsSource};
ghost use Rattle.ncl_plans.specs.Pools.{IsPool, Adds};
ghost use Rattle.ncl_plans.specs.Plans.{arg_value, step_value, plan_value};

use crate::adding::add;
use crate::pool::Pool;
use crate::small::{Op, op_bit};
use crate::stop::Stop;
use ncl_base::Memory;
use ncl_network::{Signal, SignalSource};
use std::alloc::Global;

/// What a step reads: the leaf or the earlier step at this place, leaves first, or its inverse. Where none is, 0.
#[derive(Clone, Copy, Debug, PartialEq, Eq)]
pub struct Arg {
    /// The place.
    pub place: usize,
    /// Whether it is the inverse.
    pub inverted: bool,
}

/// A step: an operation on the first two of these arguments, or on all.
#[derive(Clone, Copy, Debug, PartialEq, Eq)]
pub struct Step {
    /// The operation.
    pub op: Op,
    /// The first argument.
    pub first: Arg,
    /// The second.
    pub second: Arg,
    /// The third. An operation on two doesn't read it.
    pub third: Arg,
}

/// Steps, and what they give.
#[derive(Drop)]
pub struct Plan {
    /// The steps, in order.
    pub steps: Vec<Step>,
    /// What they give.
    pub out: Arg,
}

/// The bit of an argument.
fn arg_bit(bits: &[bool], arg: Arg) -> bool
    ensures { result ≡ arg_value bits.now arg }
{
    let bit = match bits.get(arg.place) {
        Some(bit) => *bit,
        None => false,
    };
    if arg.inverted { !bit } else { bit }
}

/// The bit of a step.
fn step_bit(bits: &[bool], step: &Step) -> bool
    ensures { result ≡ step_value bits.now step.now }
{
    op_bit(
        step.op,
        arg_bit(bits, step.first),
        arg_bit(bits, step.second),
        arg_bit(bits, step.third),
    )
}

/// The bit of a plan where the leaves have these. Linear in the steps.
pub(crate) fn plan_bit(plan: &Plan, leaves: Vec<bool>) -> Result<bool, Memory>
    ensures { IfOk result (λ bit. bit ≡ plan_value plan.now leaves.items) }
{
    let mut bits = leaves;
    for step in &plan.steps {
        let bit = step_bit(&bits, step);
        bits.push(bit)?;
    }
    Ok(arg_bit(&bits, plan.out))
}

/// The signal of an argument.
fn arg_signal(signals: &[Signal], arg: Arg) -> Signal
    ensures value { (word nodes : List Bool) → signal_value word nodes result ≡ arg_value (map (signal_value word nodes) signals.now) arg }
    ensures exists { (inputs count : ℕ) → All (λ signal. IsSource inputs count signal.from) signals.now → IsSource inputs count result.from }
{
    let signal = match signals.get(arg.place) {
        Some(signal) => *signal,
        None => Signal {
            from: SignalSource::Const(false),
            inverted: false,
        },
    };
    Signal {
        from: signal.from,
        inverted: if arg.inverted {
            !signal.inverted
        } else {
            signal.inverted
        },
    }
}

/// Adds a plan over signals to a pool, and gives its signal. Linear in the steps.
pub fn apply(pool: &mut Pool, plan: &Plan, leaves: Vec<Signal>) -> Result<Signal, Stop>
    ensures { IfOk result (λ signal. (inputs : ℕ) → IsPool inputs pool.old.smalls.items → All (λ leaf. IsSource inputs (length pool.old.smalls.items) leaf.from) leaves.items → Adds inputs pool.old.smalls.items pool.new.smalls.items (λ word nodes. plan_value plan.now (map (signal_value word nodes) leaves.items)) signal) }
{
    let mut signals = leaves;
    for step in &plan.steps {
        let first = arg_signal(&signals, step.first);
        let second = arg_signal(&signals, step.second);
        let third = arg_signal(&signals, step.third);
        let signal = add(pool, step.op, first, second, third)?;
        signals.push(signal)?;
    }
    Ok(arg_signal(&signals, plan.out))
}
