//! Copies of networks.
ghost use Rattle.std.specs.Prelude.{◌≡◌, IfOk};

use ncl_base::{Items, Memory};
use ncl_decomp::copied_rows;
use ncl_network::{Network, Node};
use std::alloc::Global;

/// A copy of nodes. Linear in them.
fn copied_nodes(alloc: Global, nodes: &[Node]) -> Result<Vec<Node>, Memory>
    ensures { IfOk result (λ copy. copy.items ≡ nodes.now) }
{
    let mut copy = Vec::new(alloc);
    for node in nodes {
        let ins = node.ins.items().to_vec(alloc)?;
        let rows = copied_rows(alloc, node.rows.items())?;
        copy.push(Node {
            ins: Items::from_vec(ins),
            on: node.on,
            rows,
        })?;
    }
    Ok(copy)
}

/// A copy of a network. Linear in it.
pub(crate) fn copied(alloc: Global, network: &Network) -> Result<Network, Memory>
    ensures { IfOk result (λ copy. copy ≡ network.now) }
{
    let nodes = copied_nodes(alloc, network.nodes.items())?;
    let outputs = network.outputs.items().to_vec(alloc)?;
    Ok(Network {
        inputs: network.inputs,
        nodes: Items::from_vec(nodes),
        outputs: Items::from_vec(outputs),
    })
}
