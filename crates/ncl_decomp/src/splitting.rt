//! A network, split.
ghost use Rattle.std.specs.Prelude.{◌≡◌, ◌≤◌, ◌*◌, List, Bool, length, All, IfOk};
ghost use Rattle.ncl_network.specs.Network.{IsNetwork, answer_of, weight_of_network};
ghost use Rattle.ncl_network.specs.Prune.{IsInOrder};
ghost use Rattle.ncl_decomp.specs.Split.{IsSplit, IsNarrow, IsOfTwoOr, cost_of_network};

use crate::image::images_of;
use crate::wide::split_node;
use ncl_base::{Items, Memory};
use ncl_network::{Network, prune};
use std::alloc::Global;

/// The network with each wide node as nodes of two inputs.
fn decompose(alloc: Global, network: &Network) -> Result<Network, Memory>
    requires { IsNetwork network.now }
    ensures ordered { IfOk result IsInOrder }
    ensures nodes { IfOk result (λ n. All IsNarrow n.nodes) }
    ensures kinds { IfOk result (λ n. All (IsOfTwoOr network.now.nodes) n.nodes) }
    ensures inputs { IfOk result (λ n. n.inputs ≡ network.now.inputs) }
    ensures outputs { IfOk result (λ n. length n.outputs ≡ length network.now.outputs) }
    ensures same { IfOk result (λ n. (word : List Bool) → answer_of n word ≡ answer_of network.now word) }
    ensures cost { IfOk result (λ n. cost_of_network n ≤ 5 * weight_of_network network.now) }
{
    let mut nodes = Vec::new(alloc);
    let mut images = Vec::new(alloc);
    for node in network.nodes.items() {
        let ins = images_of(alloc, node.ins.items(), &images)?;
        let image = split_node(alloc, &mut nodes, ins, node)?;
        images.push(image)?;
    }
    let outputs = images_of(alloc, network.outputs.items(), &images)?;
    Ok(Network {
        inputs: network.inputs,
        nodes: Items::from_vec(nodes),
        outputs: Items::from_vec(outputs),
    })
}

/// The network whose nodes have two to four inputs, and which gives the same answers. A wider node, of five inputs and
/// more, is made of nodes of two: what most rows ask in common is taken out of them, and so on in both parts; then
/// there is for each row a balanced tree over what it still asks, and one over the rows. An input that has a dash
/// in every row of it is read no more, so nodes that reach no output by this are dropped.
///
/// Without recursion; the work is linear in the network, times the square of a wide node's inputs at most. The only
/// error is want of memory.
pub fn split(alloc: Global, network: &Network) -> Result<Network, Memory>
    requires { IsNetwork network.now }
    ensures network { IfOk result IsSplit }
    ensures wide { IfOk result (λ n. All (IsOfTwoOr network.now.nodes) n.nodes) }
    ensures inputs { IfOk result (λ n. n.inputs ≡ network.now.inputs) }
    ensures outputs { IfOk result (λ n. length n.outputs ≡ length network.now.outputs) }
    ensures same { IfOk result (λ n. (word : List Bool) → answer_of n word ≡ answer_of network.now word) }
    ensures cost { IfOk result (λ n. cost_of_network n ≤ 5 * weight_of_network network.now) }
{
    let network = decompose(alloc, network)?;
    let network = prune(alloc, network)?;
    Ok(network)
}
