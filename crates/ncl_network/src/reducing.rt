//! A model, folded into a network.
ghost use Rattle.std.specs.Prelude.{◌≡◌, ◌≤◌, List, Bool, length, All, IfOk};
ghost use Rattle.ncl_graph.specs.Graph.{IsOrder};
ghost use Rattle.ncl_blif.specs.Dependence.{dependency_graph};
ghost use Rattle.ncl_blif.specs.Meaning.{Gives};
ghost use Rattle.ncl_blif.specs.Model.{IsModel};
ghost use Rattle.ncl_network.specs.Network.{IsNode, IsNetwork, answer_of, weight_of_network, weight_of_model};
ghost use Rattle.ncl_network.specs.Prune.{IsInOrder};

use crate::network::Network;
use crate::pruning::prune;
use crate::walk::walk_covers;
use ncl_base::{Items, Memory};
use ncl_blif::{Model, dependencies};
use std::alloc::Global;

/// The places of the covers of a model in an order in which each stands after those that it reads. `n log n` in the
/// covers and what they read. The only error is want of memory.
pub fn cover_order(alloc: Global, model: &Model) -> Result<Vec<u32>, Memory>
    requires { IsModel model.now }
    ensures { IfOk result (λ order. IsOrder (dependency_graph model.now.covers) order.items) }
{
    let graph = dependencies(alloc, model.covers.items())?;
    match graph.order(alloc)? {
        Some(order) => Ok(order),
        None => unreachable!(),
    }
}

/// The network of all nodes that the covers of a model fold into. `n log n` in the model.
fn fold_model(alloc: Global, model: &Model) -> Result<Network, Memory>
    requires { IsModel model.now }
    ensures ordered { IfOk result IsInOrder }
    ensures nodes { IfOk result (λ n. All IsNode n.nodes) }
    ensures inputs { IfOk result (λ n. n.inputs ≡ length model.now.inputs) }
    ensures outputs { IfOk result (λ n. length n.outputs ≡ length model.now.outputs) }
    ensures same { IfOk result (λ n. (word answer : List Bool) → Gives model.now word answer → answer ≡ answer_of n word) }
    ensures weight { IfOk result (λ n. weight_of_network n ≤ weight_of_model model.now) }
{
    let order = cover_order(alloc, model)?;
    let walk = walk_covers(alloc, model, &order)?;
    let outputs = walk.look_up(alloc, model.outputs.items())?;
    Ok(Network {
        inputs: model.inputs.items().len() as u32,
        nodes: Items::from_vec(walk.nodes),
        outputs: Items::from_vec(outputs),
    })
}

/// The network that a model folds into, which gives the same answers. No node of it has fewer than two inputs or
/// reads a constant, and each node reaches an output and stands after the nodes that it reads. An output may be a
/// constant, an input or the inverse of something.
///
/// An input that has a dash in every row that is left is dropped: that is tested, and no clause says it.
/// `n log n` in the model, without recursion. The only error is want of memory.
pub fn reduce(alloc: Global, model: &Model) -> Result<Network, Memory>
    requires { IsModel model.now }
    ensures network { IfOk result IsNetwork }
    ensures inputs { IfOk result (λ n. n.inputs ≡ length model.now.inputs) }
    ensures outputs { IfOk result (λ n. length n.outputs ≡ length model.now.outputs) }
    ensures same { IfOk result (λ n. (word answer : List Bool) → Gives model.now word answer → answer ≡ answer_of n word) }
    ensures weight { IfOk result (λ n. weight_of_network n ≤ weight_of_model model.now) }
{
    let network = fold_model(alloc, model)?;
    let network = prune(alloc, network)?;
    Ok(network)
}
