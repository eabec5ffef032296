//! A network, remade of small nodes.
ghost use Rattle.std.specs.Prelude.{◌≡◌, ◌<◌, [], IfOk, length};
ghost use Rattle.ncl_network.specs.Prune.{IsInOrder};
ghost use Rattle.ncl_plans.specs.Pools.{Adds};
ghost use Rattle.ncl_cells.specs.Remade.{IsImageOf, AreImagesOf, AreRemade, IsRebuiltOf, IsRemadeOf, bit_at, plain, leaf_signals};

use ncl_base::Items;
use ncl_choice::{Chooser, Turn};
use ncl_network::{Network, Signal, SignalSource, prune};
use ncl_plans::{Leaves, Pool, Stop, apply, nodes_of, test, turned_by};
use std::alloc::Global;

/// The signal that a source is, where the nodes are these signals.
fn source_image(inputs: u32, images: &[Signal], from: SignalSource) -> Result<Signal, Stop>
    ensures { IfOk result (IsImageOf inputs images.now (plain from)) }
{
    match from {
        SignalSource::Node(place) => match images.get(place as usize) {
            Some(signal) => Ok(*signal),
            None => Err(Stop::GivenUp),
        },
        SignalSource::Input(place) => {
            if place >= inputs {
                return Err(Stop::GivenUp);
            }
            Ok(plain(from))
        }
        SignalSource::Const(_) => Ok(plain(from)),
    }
}

/// The signal that a signal is, where the nodes are these signals.
fn image(inputs: u32, images: &[Signal], signal: Signal) -> Result<Signal, Stop>
    ensures { IfOk result (IsImageOf inputs images.now signal) }
{
    let source = source_image(inputs, images, signal.from)?;
    Ok(turned_by(signal.inverted, source))
}

/// The signals that some signals are, where the nodes are these signals. Linear in them.
fn images_of(
    alloc: Global,
    inputs: u32,
    images: &[Signal],
    signals: &[Signal],
) -> Result<Vec<Signal>, Stop>
    ensures { IfOk result (λ found. AreImagesOf inputs images.now signals.now found.items) }
{
    let mut found = Vec::new(alloc);
    for signal in signals {
        let image = image(inputs, images, *signal)?;
        found.push(image)?;
    }
    Ok(found)
}

/// The signal of a source.
fn plain(from: SignalSource) -> Signal
    ensures { result ≡ plain from }
{
    Signal {
        from,
        inverted: false,
    }
}

/// The signals of leaves.
fn leaf_signals(alloc: Global, leaves: Leaves) -> Result<Vec<Signal>, Stop>
    ensures { IfOk result (λ signals. signals.items ≡ leaf_signals leaves) }
{
    let first = plain(leaves.first);
    let second = plain(leaves.second);
    let third = plain(leaves.third);
    let fourth = plain(leaves.fourth);
    let signals = vec![in alloc; first, second, third, fourth]?;
    Ok(signals)
}

/// Adds the small nodes that a node becomes, and gives its signal.
fn remake_node(
    alloc: Global,
    network: &Network,
    chooser: &mut Chooser,
    pool: &mut Pool,
    images: &[Signal],
    place: u32,
) -> Result<Signal, Stop>
    requires network { IsInOrder network.now }
    requires within { place < length network.now.nodes }
    ensures { IfOk result (λ signal. AreRemade network.now pool.old.smalls.items images.now → Adds network.now.inputs pool.old.smalls.items pool.new.smalls.items (λ word _. bit_at network.now word place) signal) }
{
    let turn = Turn {
        network,
        pool,
        images,
        place,
    };
    let choice = chooser.choose(alloc, &turn)?;
    test(alloc, network.nodes.items(), place, &choice)?;
    let signals = leaf_signals(alloc, choice.leaves)?;
    let leaves = images_of(alloc, network.inputs, images, &signals)?;
    apply(pool, &choice.plan, leaves)
}

/// Adds the small nodes that all nodes become, and gives their signals. Goes over the nodes once; what a node costs is
/// what is tried for it, which is bounded.
fn remake_nodes(
    alloc: Global,
    network: &Network,
    chooser: &mut Chooser,
    pool: &mut Pool,
) -> Result<Vec<Signal>, Stop>
    requires network { IsInOrder network.now }
    requires none { pool.old.smalls.items ≡ [] }
    ensures { IfOk result (λ images. AreRemade network.now pool.new.smalls.items images.items) }
{
    chooser.begin(alloc, network)?;
    let mut images = Vec::new(alloc);
    for place in 0..network.nodes.items().len() as u32 {
        let signal = remake_node(alloc, network, chooser, pool, &images, place)?;
        images.push(signal)?;
    }
    Ok(images)
}

/// The network, remade of small nodes, with those that reach no output.
fn remake_all(alloc: Global, network: &Network, chooser: &mut Chooser) -> Result<Network, Stop>
    requires { IsInOrder network.now }
    ensures { IfOk result (IsRebuiltOf network.now) }
{
    let mut pool = Pool::new(alloc)?;
    let images = remake_nodes(alloc, network, chooser, &mut pool)?;
    if pool.smalls.len() > u32::MAX as usize {
        return Err(Stop::GivenUp);
    }
    let outputs = images_of(alloc, network.inputs, &images, network.outputs.items())?;
    let nodes = nodes_of(alloc, &pool.smalls)?;
    Ok(Network {
        inputs: network.inputs,
        nodes: Items::from_vec(nodes),
        outputs: Items::from_vec(outputs),
    })
}

/// The network, remade of small nodes that all reach an output: each node of it becomes what the chooser says, if
/// this computes it.
pub(crate) fn remake(
    alloc: Global,
    network: &Network,
    chooser: &mut Chooser,
) -> Result<Network, Stop>
    requires { IsInOrder network.now }
    ensures { IfOk result (IsRemadeOf network.now) }
{
    let rebuilt = remake_all(alloc, network, chooser)?;
    let pruned = prune(alloc, rebuilt)?;
    Ok(pruned)
}
