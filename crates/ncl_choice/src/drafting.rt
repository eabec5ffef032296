//! Plans by rules.
use crate::rules::{Planner, Rule, join, others};
use ncl_base::Memory;
use ncl_decomp::table::{cofactor, depends, input};
use ncl_plans::{Arg, Op, Step};

/// An argument that is always 0.
const NOTHING: Arg = Arg {
    place: usize::MAX,
    inverted: false,
};

/// The arguments of a function, and the level that each of them comes at.
#[derive(Clone, Copy)]
pub(crate) struct Inputs {
    pub args: [Arg; 4],
    pub levels: [u32; 4],
}

impl Inputs {
    /// The same after two of them have become one, which stands in the place of the first.
    fn joined(self, first: usize, second: usize, joint: Arg) -> Inputs {
        let level = self.levels[first % 4].max(self.levels[second % 4]);
        let mut inputs = self;
        inputs.args[first % 4] = joint;
        inputs.levels[first % 4] = level.saturating_add(1);
        inputs
    }
}

/// An argument, turned where the bit says so.
fn turned(turn: bool, arg: Arg) -> Arg {
    Arg {
        place: arg.place,
        inverted: arg.inverted != turn,
    }
}

/// Adds a step, and gives what stands for it.
fn step(steps: &mut Vec<Step>, op: Op, first: Arg, second: Arg, third: Arg) -> Result<Arg, Memory> {
    let place = steps.len().saturating_add(4);
    steps.push(Step {
        op,
        first,
        second,
        third,
    })?;
    Ok(Arg {
        place,
        inverted: false,
    })
}

/// The first input from this one on that a function depends on.
fn next_input(table: u16, from: usize) -> Option<usize> {
    for k in from..4usize {
        if depends(table, k) {
            return Some(k);
        }
    }
    None
}

/// Adds the step of a function of two inputs.
fn draft_pair(
    steps: &mut Vec<Step>,
    table: u16,
    k: usize,
    j: usize,
    args: [Arg; 4],
) -> Result<Arg, Memory> {
    let x = args[k % 4];
    let y = args[j % 4];
    let low = cofactor(table, k, false);
    let high = cofactor(table, k, true);
    let one = input(j);
    if low == !high {
        let found = step(steps, Op::Differ, x, y, x)?;
        return Ok(turned(low != one, found));
    }
    let constant_low = low == 0 || low == 0xFFFF;
    let (flat, rest) = if constant_low {
        (low, high)
    } else {
        (high, low)
    };
    let turn = flat != 0;
    let second = turned((rest != one) != turn, y);
    let found = step(steps, Op::And, turned(!constant_low, x), second, x)?;
    Ok(turned(turn, found))
}

/// Adds the steps of a function of at most two inputs.
fn draft_short(steps: &mut Vec<Step>, table: u16, args: [Arg; 4]) -> Result<Arg, Memory> {
    let Some(k) = next_input(table, 0) else {
        return Ok(turned(table != 0, NOTHING));
    };
    match next_input(table, k.saturating_add(1)) {
        Some(j) => draft_pair(steps, table, k, j, args),
        None => Ok(turned(table != input(k), args[k % 4])),
    }
}

/// Adds the step of a majority. Its last argument is the latest, which then goes through one gate alone.
fn draft_majority(
    steps: &mut Vec<Step>,
    idle: usize,
    turns: [bool; 3],
    args: [Arg; 4],
) -> Result<Arg, Memory> {
    let [x, y, z] = others(idle);
    step(
        steps,
        Op::Majority,
        turned(turns[2], args[z % 4]),
        turned(turns[1], args[y % 4]),
        turned(turns[0], args[x % 4]),
    )
}

/// The input with the least level of those that a function depends on, the last of several, but for this one.
fn earliest(table: u16, levels: [u32; 4], but: usize) -> usize {
    let mut found = but;
    for k in 0..4usize {
        let is_first = found == but || levels[k % 4] <= levels[found % 4];
        if k != but && depends(table, k) && is_first {
            found = k;
        }
    }
    found
}

/// A rule that takes no more gates one after another: in place of one that puts an input at the top, one that joins
/// the two inputs that come first, if they can be.
fn balanced(table: u16, levels: [u32; 4], rule: Rule) -> Rule {
    match rule {
        Rule::Top(..) | Rule::Parity(_) => {}
        _ => return rule,
    }
    let one = earliest(table, levels, 4);
    let other = earliest(table, levels, one);
    match join(table, one.min(other), one.max(other)) {
        Some(better) => better,
        None => rule,
    }
}

/// Adds the steps of a function of these inputs, as rules say, which is taken to need no more than the fuel.
pub(crate) fn draft(
    planner: &mut Planner,
    fuel: u32,
    steps: &mut Vec<Step>,
    table: u16,
    inputs: Inputs,
) -> Result<Arg, Memory> {
    let Inputs { args, levels } = inputs;
    let rule = balanced(table, levels, planner.rule(12, table).rule);
    if fuel == 0 {
        return Ok(NOTHING);
    }
    let less = fuel - 1;
    match rule {
        Rule::Short => draft_short(steps, table, args),
        Rule::Top(k, at, constant) => {
            let rest = draft(planner, less, steps, cofactor(table, k, !at), inputs)?;
            let x = turned(at, args[k % 4]);
            let found = step(steps, Op::And, x, turned(constant, rest), x)?;
            Ok(turned(constant, found))
        }
        Rule::Parity(k) => {
            let rest = draft(planner, less, steps, cofactor(table, k, false), inputs)?;
            step(steps, Op::Differ, args[k % 4], rest, rest)
        }
        Rule::Join(first, second, op, rest) => {
            let joint = draft_short(steps, op, args)?;
            let inputs = inputs.joined(first, second, joint);
            draft(planner, less, steps, rest, inputs)
        }
        Rule::Majority(idle, first, second, third) => {
            draft_majority(steps, idle, [first, second, third], args)
        }
        Rule::Choose(k) => {
            let low = draft_short(steps, cofactor(table, k, false), args)?;
            let high = draft_short(steps, cofactor(table, k, true), args)?;
            step(steps, Op::Choose, args[k % 4], low, high)
        }
        Rule::Add(k, at) => {
            let apart = cofactor(table, k, false) ^ cofactor(table, k, true);
            let change = draft(planner, less, steps, apart, inputs)?;
            let base = draft(planner, less, steps, cofactor(table, k, at), inputs)?;
            let x = turned(at, args[k % 4]);
            let found = step(steps, Op::And, x, change, x)?;
            step(steps, Op::Differ, found, base, base)
        }
        Rule::Grow(k, at) => {
            let more = draft(planner, less, steps, cofactor(table, k, !at), inputs)?;
            let base = draft(planner, less, steps, cofactor(table, k, at), inputs)?;
            let x = turned(at, args[k % 4]);
            let found = step(steps, Op::And, x, more, x)?;
            let neither = step(steps, Op::And, turned(true, found), turned(true, base), x)?;
            Ok(turned(true, neither))
        }
    }
}
