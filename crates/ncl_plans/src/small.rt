//! Small nodes.
ghost use Rattle.std.specs.Prelude.{◌≡◌, IfOk, map};
ghost use Rattle.ncl_plans.specs.Smalls.{op_value, ins_of, rows_of, small_node};

use ncl_base::{Items, Memory};
use ncl_blif::{Lit, Row};
use ncl_network::{Node, Signal};
use std::alloc::Global;

/// What a small node makes of the signals that it reads.
#[derive(Clone, Copy, Debug, PartialEq, Eq)]
pub enum Op {
    /// Whether both of two are 1.
    And,
    /// Whether two differ.
    Differ,
    /// What most of three are.
    Majority,
    /// By the first the second, where it is 0, or the third.
    Choose,
}

/// A small node: an operation on the first two of these signals, or on all.
#[derive(Clone, Copy, Debug, PartialEq, Eq)]
pub struct Small {
    /// The operation.
    pub op: Op,
    /// The first signal that it reads.
    pub first: Signal,
    /// The second.
    pub second: Signal,
    /// The third. An operation on two doesn't read it.
    pub third: Signal,
}

/// The bit of an operation.
pub(crate) fn op_bit(op: Op, first: bool, second: bool, third: bool) -> bool
    ensures { result ≡ op_value op first second third }
{
    match op {
        Op::And => first && second,
        Op::Differ => first != second,
        Op::Majority => {
            if first {
                second || third
            } else {
                second && third
            }
        }
        Op::Choose => { if first { third } else { second } }
    }
}

/// The signals that a small node reads.
fn inputs(alloc: Global, small: &Small) -> Result<Vec<Signal>, Memory>
    ensures { IfOk result (λ ins. ins.items ≡ ins_of small.now.op small.now.first small.now.second small.now.third) }
{
    let ins = match small.op {
        Op::And | Op::Differ => vec![in alloc; small.first, small.second]?,
        Op::Majority | Op::Choose => vec![in alloc; small.first, small.second, small.third]?,
    };
    Ok(ins)
}

/// The rows of the ON-set of an operation.
fn rows(alloc: Global, op: Op) -> Result<Vec<Row>, Memory>
    ensures { IfOk result (λ rows. rows.items ≡ rows_of op) }
{
    let mut rows = Vec::new(alloc);
    match op {
        Op::And => rows.push(Items::from_vec(vec![in alloc; Lit::One, Lit::One]?))?,
        Op::Differ => {
            rows.push(Items::from_vec(vec![in alloc; Lit::One, Lit::Zero]?))?;
            rows.push(Items::from_vec(vec![in alloc; Lit::Zero, Lit::One]?))?;
        }
        Op::Majority => {
            rows.push(Items::from_vec(vec![in alloc; Lit::One, Lit::One, Lit::Dash]?))?;
            rows.push(Items::from_vec(vec![in alloc; Lit::One, Lit::Dash, Lit::One]?))?;
            rows.push(Items::from_vec(vec![in alloc; Lit::Dash, Lit::One, Lit::One]?))?;
        }
        Op::Choose => {
            rows.push(Items::from_vec(vec![in alloc; Lit::Zero, Lit::One, Lit::Dash]?))?;
            rows.push(Items::from_vec(vec![in alloc; Lit::One, Lit::Dash, Lit::One]?))?;
        }
    }
    Ok(rows)
}

/// A small node as a node of a network.
fn node(alloc: Global, small: &Small) -> Result<Node, Memory>
    ensures { IfOk result (λ node. node ≡ small_node small.now) }
{
    let ins = inputs(alloc, small)?;
    let rows = rows(alloc, small.op)?;
    Ok(Node {
        ins: Items::from_vec(ins),
        on: true,
        rows: Items::from_vec(rows),
    })
}

/// Small nodes as nodes of a network. Linear in them.
pub fn nodes_of(alloc: Global, smalls: &[Small]) -> Result<Vec<Node>, Memory>
    ensures { IfOk result (λ nodes. nodes.items ≡ map small_node smalls.now) }
{
    let mut nodes = Vec::new(alloc);
    for small in smalls {
        nodes.push(node(alloc, small)?)?;
    }
    Ok(nodes)
}
