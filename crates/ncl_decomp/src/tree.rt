//! Trees of nodes of two inputs.
ghost use Rattle.std.specs.Prelude.{◌<◌, ◌≤◌, ◌+◌, ◌^◌, length, IfOk};
ghost use Rattle.ncl_decomp.specs.Pairs.{AddsTree};

use crate::pair::{Joint, pair};
use ncl_base::Memory;
use ncl_network::{Node, Signal, SignalSource};
use std::alloc::Global;

/// Adds a balanced tree over some signals to the nodes of a network, and gives its root. Each node takes the
/// first two signals of a queue, and its own joins the end. Linear in the signals. The only error is want of
/// memory.
pub fn join(
    alloc: Global,
    nodes: &mut Vec<Node>,
    joint: Joint,
    leaves: Vec<Signal>,
) -> Result<Signal, Memory>
    requires some { 0 < length leaves.items }
    requires few { length nodes.old.items + length leaves.items ≤ 2 ^ 32 }
    ensures { IfOk result (AddsTree joint leaves.items nodes.old.items nodes.new.items) }
{
    let mut queue = leaves;
    let mut at = 0usize;
    while at + 1 < queue.len() {
        let from = SignalSource::Node(nodes.len() as u32);
        let node = pair(alloc, joint, queue[at], queue[at + 1])?;
        nodes.push(node)?;
        queue.push(Signal {
            from,
            inverted: false,
        })?;
        at += 2;
    }
    Ok(queue[at])
}
