//! A network without the nodes that reach no output.
ghost use Rattle.std.specs.Prelude.{◌≡◌, ◌<◌, ◌^◌, ℕ, List, [], ◌∷◌, ◌++◌, Bool, if◌then◌else◌, map, length, All, IfOk, OnOk};
ghost use Rattle.std.specs.List.{slice_index_or};
ghost use Rattle.ncl_network.specs.Network.{ReachesOutput, answer_of};
ghost use Rattle.ncl_network.specs.Fold.{select};
ghost use Rattle.ncl_network.specs.Prune.{IsInOrder, IsPlaced, AreLeft, new_place, moved_signal, moved_node};

use crate::mark::kept_nodes;
use crate::network::{Network, Node, Signal, SignalSource};
use ncl_base::{Items, Memory};
use std::alloc::Global;

/// For each node its number among those that are kept. Linear in the nodes.
fn new_places(alloc: Global, kept: &[bool]) -> Result<Vec<u32>, Memory>
    requires { length kept.now < 2 ^ 32 }
    ensures length { IfOk result (λ places. length places.items ≡ length kept.now) }
    ensures places { IfOk result (λ places. (k : ℕ) → k < length kept.now → slice_index_or places.items k 0 ≡ new_place kept.now k) }
{
    let mut places = Vec::new(alloc);
    let mut next = 0u32;
    for mark in kept {
        places.push(next)?;
        if *mark {
            next += 1;
        }
    }
    Ok(places)
}

/// The signal where the nodes have new numbers.
fn moved(signal: Signal, places: &[u32]) -> Signal
    requires { IsPlaced (length places.now) signal.from }
    ensures { result ≡ moved_signal (λ k. slice_index_or places.now k 0) signal }
{
    let from = match signal.from {
        SignalSource::Node(place) => SignalSource::Node(places[place as usize]),
        other => other,
    };
    Signal {
        from,
        inverted: signal.inverted,
    }
}

/// The signals where the nodes have new numbers. Linear in the signals.
fn moved_signals(alloc: Global, signals: &[Signal], places: &[u32]) -> Result<Items<Signal>, Memory>
    requires { All (λ signal. IsPlaced (length places.now) signal.from) signals.now }
    ensures { IfOk result (λ moved. moved ≡ map (moved_signal (λ k. slice_index_or places.now k 0)) signals.now) }
{
    let mut found = Vec::new(alloc);
    for signal in signals {
        found.push(moved(*signal, places))?;
    }
    Ok(Items::from_vec(found))
}

/// The node where the nodes have new numbers. Linear in its inputs.
fn moved_node(alloc: Global, node: Node, places: &[u32]) -> Result<Node, Memory>
    requires { All (λ signal. IsPlaced (length places.now) signal.from) node.ins }
    ensures { IfOk result (λ moved. moved ≡ moved_node (λ k. slice_index_or places.now k 0) node) }
{
    let Node { ins, on, rows } = node;
    let ins = moved_signals(alloc, ins.items(), places)?;
    Ok(Node { ins, on, rows })
}

/// Adds a node, with new numbers, to those that are kept, or drops it. Linear in its inputs.
fn put(
    alloc: Global,
    part: &mut Vec<Node>,
    node: Node,
    keep: bool,
    places: &[u32],
) -> Result<(), Memory>
    requires { All (λ signal. IsPlaced (length places.now) signal.from) node.ins }
    ensures { OnOk result (part.new.items ≡ part.old.items ++ (if keep then moved_node (λ k. slice_index_or places.now k 0) node ∷ [] else [])) }
{
    if keep {
        let node = moved_node(alloc, node, places)?;
        part.push(node)?;
    }
    Ok(())
}

/// The nodes that are kept, with new numbers. Linear in the nodes.
fn kept_part(
    alloc: Global,
    nodes: Vec<Node>,
    kept: &[bool],
    places: &[u32],
) -> Result<Vec<Node>, Memory>
    requires kept { length kept.now ≡ length nodes.items }
    requires placed { All (λ node. All (λ signal. IsPlaced (length places.now) signal.from) node.ins) nodes.items }
    ensures { IfOk result (λ part. part.items ≡ map (moved_node (λ k. slice_index_or places.now k 0)) (select kept.now nodes.items)) }
{
    let mut part = Vec::new(alloc);
    let mut place = 0usize;
    for node in nodes {
        put(alloc, &mut part, node, kept[place], places)?;
        place += 1;
    }
    Ok(part)
}

/// The network without the nodes that reach no output: each node that is left reaches one. Linear in the network.
/// The only error is want of memory.
pub fn prune(alloc: Global, network: Network) -> Result<Network, Memory>
    requires { IsInOrder network }
    ensures ordered { IfOk result IsInOrder }
    ensures reach { IfOk result (λ n. (k : ℕ) → k < length n.nodes → ReachesOutput n k) }
    ensures nodes { IfOk result (λ n. AreLeft network.nodes n.nodes) }
    ensures inputs { IfOk result (λ n. n.inputs ≡ network.inputs) }
    ensures outputs { IfOk result (λ n. length n.outputs ≡ length network.outputs) }
    ensures same { IfOk result (λ n. (word : List Bool) → answer_of n word ≡ answer_of network word) }
{
    let kept = kept_nodes(alloc, &network)?;
    let places = new_places(alloc, &kept)?;
    let Network {
        inputs,
        nodes,
        outputs,
    } = network;
    let outputs = moved_signals(alloc, outputs.items(), &places)?;
    let nodes = kept_part(alloc, nodes.into_vec(), &kept, &places)?;
    Ok(Network {
        inputs,
        nodes: Items::from_vec(nodes),
        outputs,
    })
}
