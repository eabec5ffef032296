//! What networks cost.
ghost use Rattle.std.specs.Prelude.{◌≡◌, ◌<◌, ◌≤◌, ◌^◌, length};
ghost use Rattle.ncl_decomp.specs.Split.{cost_of_inputs, cost_of_network};

use crate::way::Way;
use ncl_base::MOST_BYTES;
use ncl_network::{Network, Node};

/// The most that any network costs.
pub const MOST_COST: usize = 5 * MOST_BYTES;

/// What a node costs by its inputs: two cells for two, 12 for three, 22 for four.
fn node_cost(node: &Node) -> usize
    ensures exact { result ≡ cost_of_inputs (length node.now.ins) }
    ensures small { result ≤ 22 }
{
    match node.ins.items().len() {
        2 => 2,
        3 => 12,
        4 => 22,
        _ => 0,
    }
}

/// What a network costs. Linear in its nodes.
pub fn cost(network: &Network) -> usize
    requires { length network.now.nodes < 2 ^ 32 }
    ensures { result ≡ cost_of_network network.now }
{
    let mut sum = 0;
    for node in network.nodes.items() {
        sum += node_cost(node);
    }
    sum
}

/// About how many cells a node becomes: of those of three inputs a majority has three rows, and a choice two.
pub fn node_cells(way: Way, node: &Node) -> usize {
    match node.ins.items().len() {
        2 => 2,
        3 if node.rows.items().len() == 3 => usize::from(way.majority),
        3 => usize::from(way.choice),
        _ => 14,
    }
}

/// About how many cells a network becomes. Linear in its nodes.
pub fn cells(way: Way, network: &Network) -> usize {
    let mut sum = 0usize;
    for node in network.nodes.items() {
        sum = sum.saturating_add(node_cells(way, node));
    }
    sum
}
