//! What an operation on signals comes to.
ghost use Rattle.std.specs.Prelude.{◌≡◌, List, Bool, MatchOption, IfSome, false, true, cond};
ghost use Rattle.ncl_network.specs.Network.{signal_value, is_constant};
ghost use Rattle.ncl_network.specs.declared.network.Signal.{Signal};
ghost use Rattle.ncl_plans.specs.declared.small.Op.TheVariants.{And, Differ, Majority, Choose};
ghost use Rattle.ncl_plans.specs.Forms.{ComesTo, IsPairOf, constant_signal, turned_by, where_one};

use crate::small::{Op, Small, op_bit};
use ncl_network::{Signal, SignalSource};

/// What an operation on signals comes to.
#[derive(Clone, Copy, Debug, PartialEq, Eq)]
pub enum Form {
    /// A signal that there is.
    Known(Signal),
    /// A small node, or its inverse.
    New(Small, bool),
}

/// The signal that is always this bit.
fn constant(bit: bool) -> Signal
    ensures { result ≡ constant_signal bit }
{
    Signal {
        from: SignalSource::Const(bit),
        inverted: false,
    }
}

/// The bit of a signal that is always the same.
fn constant_bit(signal: Signal) -> Option<bool>
    ensures { MatchOption result (is_constant signal.from ≡ false) (λ bit. (word nodes : List Bool) → signal_value word nodes signal ≡ bit) }
{
    match signal.from {
        SignalSource::Const(bit) => Some(if signal.inverted { !bit } else { bit }),
        _ => None,
    }
}

/// A signal, turned where the bit says so.
pub fn turned_by(turn: bool, signal: Signal) -> Signal
    ensures { result ≡ turned_by turn signal }
{
    Signal {
        from: signal.from,
        inverted: if turn {
            !signal.inverted
        } else {
            signal.inverted
        },
    }
}

/// Whether a source comes before another in the order that small nodes read them.
fn is_before(first: SignalSource, second: SignalSource) -> bool {
    match first {
        SignalSource::Input(a) => match second {
            SignalSource::Input(b) => a < b,
            _ => true,
        },
        SignalSource::Node(a) => match second {
            SignalSource::Node(b) => a < b,
            _ => false,
        },
        SignalSource::Const(_) => false,
    }
}

/// The small node over two signals, in order.
fn pair(op: Op, first: Signal, second: Signal) -> Small
    ensures { IsPairOf op first second result }
{
    if is_before(second.from, first.from) {
        return Small {
            op,
            first: second,
            second: first,
            third: second,
        };
    }
    Small {
        op,
        first,
        second,
        third: first,
    }
}

/// A signal where a bit is 1, and else 0.
fn where_one(bit: bool, signal: Signal) -> Signal
    ensures { result ≡ where_one bit signal }
{
    if bit { signal } else { constant(false) }
}

/// Whether both of two signals are 1.
pub fn and(first: Signal, second: Signal) -> Form
    ensures { (third : Signal) → ComesTo And first second third result }
{
    if let Some(bit) = constant_bit(first) {
        return Form::Known(where_one(bit, second));
    }
    if let Some(bit) = constant_bit(second) {
        return Form::Known(where_one(bit, first));
    }
    let apart = op_bit(Op::Differ, first.inverted, second.inverted, false);
    if first.from == second.from {
        return Form::Known(where_one(!apart, first));
    }
    Form::New(pair(Op::And, first, second), false)
}

/// Whether two signals differ.
pub fn differ(first: Signal, second: Signal) -> Form
    ensures { (third : Signal) → ComesTo Differ first second third result }
{
    if let Some(bit) = constant_bit(first) {
        return Form::Known(turned_by(bit, second));
    }
    if let Some(bit) = constant_bit(second) {
        return Form::Known(turned_by(bit, first));
    }
    let apart = op_bit(Op::Differ, first.inverted, second.inverted, false);
    if first.from == second.from {
        return Form::Known(constant(apart));
    }
    let plain_first = turned_by(first.inverted, first);
    let plain_second = turned_by(second.inverted, second);
    Form::New(pair(Op::Differ, plain_first, plain_second), apart)
}

/// Whether none of three signals is always the same.
fn vary(first: Signal, second: Signal, third: Signal) -> bool
    ensures { result ≡ true → (is_constant first.from ≡ false) × (is_constant second.from ≡ false) × (is_constant third.from ≡ false) }
{
    constant_bit(first).is_none() && constant_bit(second).is_none() && constant_bit(third).is_none()
}

/// What most of three signals are, if none of them is always the same.
pub fn majority(first: Signal, second: Signal, third: Signal) -> Option<Form>
    ensures { IfSome result (ComesTo Majority first second third) }
{
    if !vary(first, second, third) {
        return None;
    }
    let turn = first.inverted;
    let small = Small {
        op: Op::Majority,
        first: turned_by(turn, first),
        second: turned_by(turn, second),
        third: turned_by(turn, third),
    };
    Some(Form::New(small, turn))
}

/// One signal where a bit is 0, another where it is 1.
fn pick(bit: bool, zero: Signal, one: Signal) -> Signal
    ensures { result ≡ cond bit one zero }
{
    if bit { one } else { zero }
}

/// The second signal where the first is 0, or the third, if none of them is always the same.
pub fn choose(first: Signal, second: Signal, third: Signal) -> Option<Form>
    ensures { IfSome result (ComesTo Choose first second third) }
{
    if !vary(first, second, third) {
        return None;
    }
    let low = pick(first.inverted, second, third);
    let high = pick(first.inverted, third, second);
    let turn = low.inverted;
    let small = Small {
        op: Op::Choose,
        first: turned_by(first.inverted, first),
        second: turned_by(turn, low),
        third: turned_by(turn, high),
    };
    Some(Form::New(small, turn))
}
