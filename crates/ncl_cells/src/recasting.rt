//! A network whose nodes take other forms.
ghost use Rattle.std.specs.Prelude.{◌≡◌, ◌<◌, IfOk, IfSome, length};
ghost use Rattle.ncl_decomp.specs.Split.{IsSplit};
ghost use Rattle.ncl_cells.specs.Recasts.{MayStand, AreRecast};
ghost use Rattle.ncl_cells.specs.Remade.{IsRebuiltOf, IsSameAs};

use crate::finishing::finished;
use crate::offer::may_stand;
use ncl_base::{Items, Memory};
use ncl_decomp::copied_rows;
use ncl_network::{Network, Node};
use ncl_plans::Offer;
use std::alloc::Global;

/// A copy of a node. Linear in it.
fn copied_node(alloc: Global, node: &Node) -> Result<Node, Memory>
    ensures { IfOk result (λ copy. copy ≡ node.now) }
{
    let ins = node.ins.items().to_vec(alloc)?;
    let rows = copied_rows(alloc, node.rows.items())?;
    Ok(Node {
        ins: Items::from_vec(ins),
        on: node.on,
        rows,
    })
}

/// The node that takes a place of a network: the one that is offered for it, if that may stand there, and else the
/// one that does.
fn node_for(
    alloc: Global,
    network: &Network,
    offers: &[Option<Offer>],
    place: u32,
) -> Result<Node, Memory>
    requires network { IsSplit network.now }
    requires within { place < length network.now.nodes }
    ensures { IfOk result (MayStand network.now place) }
{
    if let Some(Some(offer)) = offers.get(place as usize) {
        if may_stand(alloc, network, place, offer)? {
            return copied_node(alloc, &offer.node);
        }
    }
    copied_node(alloc, &network.nodes.items()[place as usize])
}

/// The nodes that take the places of those of a network.
fn recast_nodes(
    alloc: Global,
    network: &Network,
    offers: &[Option<Offer>],
) -> Result<Vec<Node>, Memory>
    requires { IsSplit network.now }
    ensures recast { IfOk result (λ nodes. AreRecast network.now nodes.items) }
    ensures as_many { IfOk result (λ nodes. length nodes.items ≡ length network.now.nodes) }
{
    let mut nodes = Vec::new(alloc);
    for place in 0..network.nodes.items().len() as u32 {
        let node = node_for(alloc, network, offers, place)?;
        nodes.push(node)?;
    }
    Ok(nodes)
}

/// The network with these nodes, with those that reach no output.
fn recast_all(alloc: Global, network: &Network, offers: &[Option<Offer>]) -> Result<Network, Memory>
    requires { IsSplit network.now }
    ensures { IfOk result (IsRebuiltOf network.now) }
{
    let nodes = recast_nodes(alloc, network, offers)?;
    let outputs = network.outputs.items().to_vec(alloc)?;
    Ok(Network {
        inputs: network.inputs,
        nodes: Items::from_vec(nodes),
        outputs: Items::from_vec(outputs),
    })
}

/// A network with the same answers, in which nodes that are offered take the places of others, by their places,
/// without the nodes that then reach no output. An offer is taken where its node has two to four inputs, reads
/// inputs and nodes before its place, and computes the same as the node there: both are tried at the sixteen words
/// of its leaves. The others are passed over. Nothing where the network would cost more than any may.
///
/// Linear in the network, with a bounded trial for each offer. The only error is want of memory.
pub fn recast(
    alloc: Global,
    network: &Network,
    offers: &[Option<Offer>],
) -> Result<Option<Network>, Memory>
    requires { IsSplit network.now }
    ensures network { IfOk result (λ found. IfSome found IsSplit) }
    ensures same { IfOk result (λ found. IfSome found (IsSameAs network.now)) }
{
    let whole = recast_all(alloc, network, offers)?;
    finished(alloc, whole)
}
