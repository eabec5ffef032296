//! What is read no more once a node is made of leaves.
use crate::cone::Leaves;
use crate::costs::node_cells;
use crate::stop::Stop;
use crate::way::Way;
use ncl_base::Memory;
use ncl_network::{Network, Node, Signal, SignalSource};
use std::alloc::Global;

/// The most nodes of a cone.
const MOST_CONE: usize = 40;

/// Counts the signals that are of each node.
fn count(readers: &mut [u32], signals: &[Signal]) {
    for signal in signals {
        if let SignalSource::Node(place) = signal.from
            && let Some(count) = readers.get_mut(place as usize)
        {
            *count = count.saturating_add(1);
        }
    }
}

/// For each node how many signals are of it. Linear in the network.
pub fn readers_of(alloc: Global, network: &Network) -> Result<Vec<u32>, Memory> {
    let mut readers = vec![in alloc; 0u32; network.nodes.items().len()]?;
    for node in network.nodes.items() {
        count(&mut readers, node.ins.items());
    }
    count(&mut readers, network.outputs.items());
    Ok(readers)
}

/// Whether a source is a leaf.
fn is_leaf(leaves: Leaves, from: SignalSource) -> bool {
    leaves.first == from || leaves.second == from || leaves.third == from || leaves.fourth == from
}

/// Adds the nodes that signals are of, but for leaves, to a cone.
pub fn add_inner(cone: &mut Vec<u32>, leaves: Leaves, signals: &[Signal]) -> Result<(), Stop> {
    for signal in signals {
        if !is_leaf(leaves, signal.from) {
            let SignalSource::Node(place) = signal.from else {
                return Err(Stop::GivenUp);
            };
            if !cone.iter().any(|other| *other == place) {
                cone.push(place)?;
            }
        }
    }
    Ok(())
}

/// The nodes through which a node is computed of leaves, in order, if they are few.
pub fn cone_of(
    alloc: Global,
    nodes: &[Node],
    place: u32,
    leaves: Leaves,
) -> Result<Vec<u32>, Stop> {
    let cone = vec![in alloc; place]?;
    cone_from(nodes, cone, leaves)
}

/// The nodes through which some nodes are computed of leaves, and these, in order, if they are few.
pub fn cone_from(nodes: &[Node], begun: Vec<u32>, leaves: Leaves) -> Result<Vec<u32>, Stop> {
    let mut cone = begun;
    for at in 0..MOST_CONE {
        let Some(place) = cone.get(at).copied() else {
            cone.sort_unstable();
            return Ok(cone);
        };
        if let Some(node) = nodes.get(place as usize) {
            add_inner(&mut cone, leaves, node.ins.items())?;
        }
    }
    Err(Stop::GivenUp)
}

/// Counts the signals that are of each node of a cone.
fn count_inner(counts: &mut [u32], cone: &[u32], signals: &[Signal]) {
    for signal in signals {
        if let SignalSource::Node(place) = signal.from
            && let Some(at) = cone.iter().position(|other| *other == place)
            && let Some(count) = counts.get_mut(at)
        {
            *count = count.saturating_add(1);
        }
    }
}

/// Nodes that nothing reads once another is made otherwise, and how many cells they are.
#[derive(Drop)]
pub struct Lost {
    /// The nodes by their places.
    pub places: Vec<u32>,
    /// How many cells they are about.
    pub cells: usize,
}

/// The nodes of a cone that nothing else reads once the last of them is made otherwise, the last first. Quadratic in
/// the cone.
pub fn freed(
    alloc: Global,
    way: Way,
    nodes: &[Node],
    readers: &[u32],
    cone: &[u32],
) -> Result<Lost, Memory> {
    let mut counts = vec![in alloc; 0u32; cone.len()]?;
    let mut places = Vec::new(alloc);
    let mut cells = 0usize;
    for at in (0..cone.len()).rev() {
        let place = cone[at] as usize;
        let is_last = at + 1 == cone.len();
        if let Some(node) = nodes.get(place)
            && (is_last || readers.get(place) == counts.get(at))
        {
            cells = cells.saturating_add(node_cells(way, node));
            places.push(cone[at])?;
            count_inner(&mut counts, cone, node.ins.items());
        }
    }
    Ok(Lost { places, cells })
}
