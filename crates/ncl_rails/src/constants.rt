//! Constant outputs as signals of a node.
ghost use Rattle.std.specs.Prelude.{◌≡◌, ◌<◌, ◌≤◌, ◌+◌, ◌*◌, length, map, IfOk};
ghost use Rattle.std.specs.List.{list_any};
ghost use Rattle.ncl_network.specs.Network.{is_constant};
ghost use Rattle.ncl_decomp.specs.Split.{IsSplit, cost_of_network};
ghost use Rattle.ncl_rails.specs.Complete.{IsVarying, AnswersAs, true_node, replaced};

use crate::copies::copied;
use ncl_base::{Items, Memory};
use ncl_blif::Lit;
use ncl_network::{Network, Node, Signal, SignalSource};
use std::alloc::Global;

/// A node that is always 1: it reads the first input twice, and asks nothing of it.
fn true_node(alloc: Global) -> Result<Node, Memory>
    ensures { IfOk result (λ node. node ≡ true_node) }
{
    let input = Signal {
        from: SignalSource::Input(0),
        inverted: false,
    };
    let ins = vec![in alloc; input, input]?;
    let lits = vec![in alloc; Lit::Dash, Lit::Dash]?;
    let mut rows = Vec::new(alloc);
    rows.push(Items::from_vec(lits))?;
    Ok(Node {
        ins: Items::from_vec(ins),
        on: true,
        rows: Items::from_vec(rows),
    })
}

/// The signal, where a node with this number is always 1: a constant is of that node.
fn replaced(signal: Signal, place: u32) -> Signal
    ensures { result ≡ replaced place signal }
{
    match signal.from {
        SignalSource::Const(bit) => Signal {
            from: SignalSource::Node(place),
            inverted: bit == signal.inverted,
        },
        _ => signal,
    }
}

/// The signals, where a node with this number is always 1. Linear in the signals.
fn all_replaced(alloc: Global, signals: &[Signal], place: u32) -> Result<Vec<Signal>, Memory>
    ensures { IfOk result (λ found. found.items ≡ map (replaced place) signals.now) }
{
    let found = signals
        .iter()
        .map(|signal| replaced(*signal, place))
        .collect(alloc)?;
    Ok(found)
}

/// Whether one of some signals is constant. Linear in the signals.
fn is_some_constant(signals: &[Signal]) -> bool
    ensures { result ≡ list_any (λ signal. is_constant signal.from) signals.now }
{
    signals
        .iter()
        .any(|signal| matches!(signal.from, SignalSource::Const(_)))
}

/// The network whose constant outputs are signals of a node that is always 1, or its inverse. Linear in the network.
pub(crate) fn without_constants(alloc: Global, network: &Network) -> Result<Network, Memory>
    requires split { IsSplit network.now }
    requires some_input { 0 < network.now.inputs }
    ensures varying { IfOk result IsVarying }
    ensures same { IfOk result (AnswersAs network.now) }
    ensures cost { IfOk result (λ n. cost_of_network n ≤ cost_of_network network.now + 2 * length network.now.outputs) }
{
    let copy = copied(alloc, network)?;
    if !is_some_constant(copy.outputs.items()) {
        return Ok(copy);
    }
    let Network {
        inputs,
        nodes,
        outputs,
    } = copy;
    let mut nodes = nodes.into_vec();
    let place = nodes.len() as u32;
    let node = true_node(alloc)?;
    nodes.push(node)?;
    let outputs = all_replaced(alloc, outputs.items(), place)?;
    Ok(Network {
        inputs,
        nodes: Items::from_vec(nodes),
        outputs: Items::from_vec(outputs),
    })
}
