//! Operations on what is there already.
use crate::operands::Operand;
use crate::rules::turned;
use ncl_plans::Op;

/// The most operands that are tried two operations deep.
const MOST_DEEP: usize = 14;

/// An operation on two operands, and which of them and whether it itself is inverted.
#[derive(Clone, Copy)]
pub(crate) struct Operation {
    pub op: Op,
    pub first: Operand,
    pub second: Operand,
    pub turns: [bool; 3],
    level: u32,
}

/// An operation on an operand and on another operation.
#[derive(Clone, Copy)]
pub(crate) struct Second {
    pub op: Op,
    pub first: Operand,
    pub inner: Operation,
    pub turns: [bool; 2],
    level: u32,
}

/// The operation on two functions that is a third where a fourth is 1, and what is inverted.
fn op_of(table: u16, mask: u16, first: u16, second: u16) -> Option<(Op, [bool; 3])> {
    let differ = (first ^ second) & mask;
    if differ == table || differ == table ^ mask {
        return Some((Op::Differ, [false, false, differ != table]));
    }
    for turns in 0..4u32 {
        let one = turns & 1 == 1;
        let other = turns & 2 == 2;
        let both = turned(first, one) & turned(second, other) & mask;
        if both == table || both == table ^ mask {
            return Some((Op::And, [one, other, both != table]));
        }
    }
    None
}

/// The operation on two operands that is a function where another is 1, if one is. An operand with itself is this operand.
fn made_of(table: u16, mask: u16, first: Operand, second: Operand) -> Option<Operation> {
    let (op, turns) = op_of(table, mask, first.table, second.table)?;
    let level = if first.from == second.from {
        first.level
    } else {
        first.level.max(second.level).saturating_add(1)
    };
    Some(Operation {
        op,
        first,
        second,
        turns,
        level,
    })
}

/// The earlier of two.
fn earlier(best: Option<Operation>, other: Operation) -> Option<Operation> {
    match best {
        Some(best) if best.level <= other.level => Some(best),
        _ => Some(other),
    }
}

/// The earliest operation on an operand and one of some that is a function where another is 1. Linear in these.
fn with_one(operands: &[Operand], table: u16, mask: u16, first: Operand) -> Option<Operation> {
    let mut best = None;
    for second in operands {
        if let Some(other) = made_of(table, mask, first, *second) {
            best = earlier(best, other);
        }
    }
    best
}

/// The earliest operation on some operands that is a function where another is 1. Quadratic in the operands, which are few.
fn best_operation(operands: &[Operand], table: u16, mask: u16) -> Option<Operation> {
    let mut best = None;
    for (at, first) in operands.iter().enumerate() {
        if let Some(other) = with_one(operands.get(..at.saturating_add(1))?, table, mask, *first) {
            best = earlier(best, other);
        }
    }
    best
}

/// Where both an operand and an operation on some others are 1 in a function, if they are, where the operand and the whole are
/// inverted so.
fn both(operands: &[Operand], table: u16, first: Operand, turns: [bool; 2]) -> Option<Second> {
    let mask = turned(first.table, turns[0]);
    let wanted = turned(table, turns[1]);
    if wanted & !mask != 0 {
        return None;
    }
    let inner = best_operation(operands, wanted, mask)?;
    Some(Second {
        op: Op::And,
        first,
        inner,
        turns,
        level: first.level.max(inner.level).saturating_add(1),
    })
}

/// Whether an operand and an operation on it are inverted, in all four ways.
const TURNS: [[bool; 2]; 4] = [[false, false], [true, false], [false, true], [true, true]];

/// The earlier of two.
fn earlier_second(best: Option<Second>, other: Second) -> Option<Second> {
    match best {
        Some(best) if best.level <= other.level => Some(best),
        _ => Some(other),
    }
}

/// Where an operand and an operation on some others differ in a function, if they do.
fn differing(operands: &[Operand], table: u16, first: Operand) -> Option<Second> {
    let inner = best_operation(operands, table ^ first.table, u16::MAX)?;
    Some(Second {
        op: Op::Differ,
        first,
        inner,
        turns: [false, false],
        level: first.level.max(inner.level).saturating_add(1),
    })
}

/// The earliest operation on an operand and an operation on some others that is a function.
fn second_on(operands: &[Operand], table: u16, first: Operand) -> Option<Second> {
    let mut best = differing(operands, table, first);
    for turns in TURNS {
        if let Some(other) = both(operands, table, first, turns) {
            best = earlier_second(best, other);
        }
    }
    best
}

/// The operation on two operands that is a function, the earliest, if one is. Quadratic in the operands, which are few.
pub(crate) fn one_operation(operands: &[Operand], table: u16) -> Option<Operation> {
    best_operation(operands, table, u16::MAX)
}

/// The operation on an operand and on another operation that is a function, the earliest, if one is. Cubic in the operands, of
/// which at most fourteen are tried.
pub(crate) fn two_operations(operands: &[Operand], table: u16) -> Option<Second> {
    let few = operands.get(..operands.len().min(MOST_DEEP))?;
    let mut best = None;
    for first in few {
        if let Some(other) = second_on(few, table, *first) {
            best = earlier_second(best, other);
        }
    }
    best
}
