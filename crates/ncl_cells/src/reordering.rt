//! A network whose nodes stand in another order.
ghost use Rattle.std.specs.Prelude.{[], IfOk, IfSome, OnOk};
ghost use Rattle.std.specs.List.{AllZip};
ghost use Rattle.ncl_decomp.specs.Split.{IsSplit};
ghost use Rattle.ncl_cells.specs.Remade.{IsRebuiltOf, IsSameAs};
ghost use Rattle.ncl_cells.specs.Reordered.{IsMovedSource, IsMoved, AreMoved};

use crate::finishing::finished;
use ncl_base::{Items, Memory};
use ncl_decomp::copied_rows;
use ncl_network::{Network, Node, Signal, SignalSource};
use ncl_plans::Stop;
use std::alloc::Global;

/// The source that a source is, where the nodes went to these places.
fn moved_source(places: &[Option<u32>], from: SignalSource) -> Result<SignalSource, Stop>
    ensures { IfOk result (IsMovedSource places.now from) }
{
    match from {
        SignalSource::Node(place) => match places.get(place as usize) {
            Some(Some(now)) => Ok(SignalSource::Node(*now)),
            _ => Err(Stop::GivenUp),
        },
        SignalSource::Input(_) => Ok(from),
        SignalSource::Const(_) => Ok(from),
    }
}

/// The signal that a signal is, where the nodes went to these places.
fn moved_signal(places: &[Option<u32>], signal: Signal) -> Result<Signal, Stop>
    ensures { IfOk result (IsMoved places.now signal) }
{
    let from = moved_source(places, signal.from)?;
    Ok(Signal {
        from,
        inverted: signal.inverted,
    })
}

/// The signals that some signals are, where the nodes went to these places. Linear in them.
fn moved_signals(
    alloc: Global,
    places: &[Option<u32>],
    signals: &[Signal],
) -> Result<Vec<Signal>, Stop>
    ensures { IfOk result (λ found. AllZip (IsMoved places.now) signals.now found.items) }
{
    let mut found = Vec::new(alloc);
    for signal in signals {
        let moved = moved_signal(places, *signal)?;
        found.push(moved)?;
    }
    Ok(found)
}

/// Adds the node at a place of the network to those that are made, if there is one and these have what it reads.
fn move_node(
    alloc: Global,
    network: &Network,
    place: u32,
    nodes: &mut Vec<Node>,
    places: &mut [Option<u32>],
) -> Result<(), Stop>
    requires network { IsSplit network.now }
    requires moved { AreMoved network.now nodes.old.items places.old }
    ensures { OnOk result (AreMoved network.now nodes.new.items places.new) }
{
    let Some(node) = network.nodes.items().get(place as usize) else {
        return Err(Stop::GivenUp);
    };
    if nodes.len() >= u32::MAX as usize {
        return Err(Stop::GivenUp);
    }
    let ins = moved_signals(alloc, places, node.ins.items())?;
    let rows = copied_rows(alloc, node.rows.items())?;
    places[place as usize] = Some(nodes.len() as u32);
    nodes.push(Node {
        ins: Items::from_vec(ins),
        on: node.on,
        rows,
    })?;
    Ok(())
}

/// The nodes of the network in an order, and where each went.
fn move_nodes(
    alloc: Global,
    network: &Network,
    order: &[u32],
    places: &mut [Option<u32>],
) -> Result<Vec<Node>, Stop>
    requires network { IsSplit network.now }
    requires none { AreMoved network.now [] places.old }
    ensures { IfOk result (λ nodes. AreMoved network.now nodes.items places.new) }
{
    let mut nodes = Vec::new(alloc);
    for place in order {
        move_node(alloc, network, *place, &mut nodes, places)?;
    }
    Ok(nodes)
}

/// The network with its nodes in an order, with those that reach no output.
fn reorder_all(alloc: Global, network: &Network, order: &[u32]) -> Result<Network, Stop>
    requires { IsSplit network.now }
    ensures { IfOk result (IsRebuiltOf network.now) }
{
    let mut places = vec![in alloc; None; network.nodes.items().len()]?;
    let nodes = move_nodes(alloc, network, order, &mut places)?;
    let outputs = moved_signals(alloc, &places, network.outputs.items())?;
    Ok(Network {
        inputs: network.inputs,
        nodes: Items::from_vec(nodes),
        outputs: Items::from_vec(outputs),
    })
}

/// A network with the same answers whose nodes stand in another order, told by their places, without the nodes that
/// then reach no output. Nothing where the order tells a place that there isn't, or a node before one that it reads,
/// or not all that an output needs, or where the network would cost more than any may. A place that is told again
/// gives its node again.
///
/// Linear in the network and the order. The only error is want of memory.
pub fn reordered(alloc: Global, network: &Network, order: &[u32]) -> Result<Option<Network>, Memory>
    requires { IsSplit network.now }
    ensures network { IfOk result (λ found. IfSome found IsSplit) }
    ensures same { IfOk result (λ found. IfSome found (IsSameAs network.now)) }
{
    match reorder_all(alloc, network, order) {
        Ok(whole) => finished(alloc, whole),
        Err(Stop::GivenUp) => Ok(None),
        Err(Stop::Memory) => Err(Memory),
    }
}
