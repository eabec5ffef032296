//! An order of nodes in which carries come first.

use crate::levels::signal_level;
use ncl_base::Memory;
use ncl_network::{Network, Node};
use std::alloc::Global;
use std::cmp::Reverse;

/// A node by its place, how many nodes stand one after another up to it, and how many signals it reads.
#[derive(Clone, Copy, Drop)]
struct Ranked {
    place: u32,
    level: u32,
    reads: usize,
}

/// The level of a node: one more than the highest that it reads, where the nodes before it have these levels.
fn node_level(levels: &[u32], node: &Node) -> u32 {
    let mut highest = 0u32;
    for signal in node.ins.items() {
        highest = highest.max(signal_level(levels, *signal));
    }
    highest.saturating_add(1)
}

/// The nodes of a network with their levels, in order. Linear in the network.
fn ranks(alloc: Global, network: &Network) -> Result<Vec<Ranked>, Memory> {
    let mut levels = Vec::new(alloc);
    let mut found = Vec::new(alloc);
    let mut place = 0u32;
    for node in network.nodes.items() {
        let level = node_level(&levels, node);
        levels.push(level)?;
        found.push(Ranked {
            place,
            level,
            reads: node.ins.items().len(),
        })?;
        place = place.saturating_add(1);
    }
    Ok(found)
}

/// The places of the nodes of a network, by their levels, and on one level those that read more first. So each node
/// stands after those that it reads, and the majority of three bits before the exclusive OR of them that is made of
/// two: the level of the majority is one more than the highest of the three, and that of the outer exclusive OR is no
/// lower, since it reads one of the three and, by the inner one, the others.
///
/// Takes time for sorting them. The only error is want of memory.
pub fn carries_first(alloc: Global, network: &Network) -> Result<Vec<u32>, Memory> {
    let mut nodes = ranks(alloc, network)?;
    nodes.sort_by_key(|node: &Ranked| (node.level, Reverse(node.reads)))?;
    let mut order = Vec::new(alloc);
    for node in &nodes {
        order.push(node.place)?;
    }
    Ok(order)
}
