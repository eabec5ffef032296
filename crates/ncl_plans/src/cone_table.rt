//! The table of a node over leaves.
use crate::cone::Leaves;
use crate::freeing::cone_of;
use crate::stop::Stop;
use ncl_base::Memory;
use ncl_decomp::table::{cover_table, input};
use ncl_network::{Network, Node, SignalSource};
use std::alloc::Global;

/// A source with its table.
#[derive(Clone, Copy)]
struct Tabled {
    from: SignalSource,
    table: u16,
}

/// The table of a source. Linear in those that have one.
fn table_of(known: &[Tabled], from: SignalSource) -> Result<u16, Stop> {
    for one in known {
        if one.from == from {
            return Ok(one.table);
        }
    }
    Err(Stop::GivenUp)
}

/// The table of a node. Linear in it times the sources that have one.
fn node_table(alloc: Global, known: &[Tabled], node: &Node) -> Result<u16, Stop> {
    let mut inputs = Vec::new(alloc);
    for signal in node.ins.items() {
        let table = table_of(known, signal.from)?;
        inputs.push(if signal.inverted { !table } else { table })?;
    }
    Ok(cover_table(node.on, node.rows.items(), &inputs))
}

/// The tables of the leaves.
fn leaf_tables(alloc: Global, leaves: Leaves) -> Result<Vec<Tabled>, Stop> {
    let mut known = Vec::new(alloc);
    let sources = [leaves.first, leaves.second, leaves.third, leaves.fourth];
    for (k, from) in sources.iter().enumerate() {
        let table = input(k);
        known.push(Tabled { from: *from, table })?;
    }
    Ok(known)
}

/// The table of the last of some nodes over leaves. Linear in the nodes times their number.
pub fn table_of_cone(
    alloc: Global,
    nodes: &[Node],
    cone: &[u32],
    leaves: Leaves,
) -> Result<u16, Stop> {
    let mut known = leaf_tables(alloc, leaves)?;
    let mut last = 0u16;
    for place in cone {
        let Some(node) = nodes.get(*place as usize) else {
            return Err(Stop::GivenUp);
        };
        last = node_table(alloc, &known, node)?;
        known.push(Tabled {
            from: SignalSource::Node(*place),
            table: last,
        })?;
    }
    Ok(last)
}

/// The table of a node over leaves, if it is computed of them.
fn found_table(alloc: Global, nodes: &[Node], place: u32, leaves: Leaves) -> Result<u16, Stop> {
    let cone = cone_of(alloc, nodes, place, leaves)?;
    table_of_cone(alloc, nodes, &cone, leaves)
}

/// The table of a node of a network over four sources, if it is computed of them through few nodes: bit w is the
/// node's bit at the word w, of which bit k is that of the source with the number k. The nodes between are bounded in
/// number. The only error is want of memory.
pub fn table_over(
    alloc: Global,
    network: &Network,
    place: u32,
    leaves: Leaves,
) -> Result<Option<u16>, Memory> {
    match found_table(alloc, network.nodes.items(), place, leaves) {
        Ok(table) => Ok(Some(table)),
        Err(Stop::GivenUp) => Ok(None),
        Err(Stop::Memory) => Err(Memory),
    }
}
