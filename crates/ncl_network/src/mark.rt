//! Which nodes of a network reach an output.
ghost use Rattle.std.specs.Prelude.{◌≡◌, ℕ, ◌||◌, false, length, replicate, All, IfOk};
ghost use Rattle.ncl_network.specs.Prune.{IsInOrder, IsPlaced, IsMarked, is_read, is_kept};

use crate::network::{Network, Signal, SignalSource};
use ncl_base::Memory;
use std::alloc::Global;

/// Marks the nodes that some signals are of. Linear in the signals.
fn mark(kept: &mut [bool], signals: &[Signal])
    requires { All (λ signal. IsPlaced (length kept.old) signal.from) signals.now }
    ensures { (k : ℕ) → is_kept kept.new k ≡ (is_kept kept.old k || is_read signals.now k) }
{
    for signal in signals {
        if let SignalSource::Node(place) = signal.from {
            kept[place as usize] = true;
        }
    }
}

/// Marks the nodes that reach an output, where none is marked. Linear in the network.
fn mark_reaching(kept: &mut [bool], network: &Network)
    requires network { IsInOrder network.now }
    requires fresh { kept.old ≡ replicate (length network.now.nodes) false }
    ensures { IsMarked network.now kept.new 0 }
{
    mark(kept, network.outputs.items());
    let nodes = network.nodes.items();
    for place in (0..nodes.len()).rev() {
        if kept[place] {
            mark(kept, nodes[place].ins.items());
        }
    }
}

/// For each node, whether it reaches an output. Linear in the network.
pub(crate) fn kept_nodes(alloc: Global, network: &Network) -> Result<Vec<bool>, Memory>
    requires { IsInOrder network.now }
    ensures { IfOk result (λ kept. IsMarked network.now kept.items 0) }
{
    let mut kept = vec![in alloc; false; network.nodes.items().len()]?;
    mark_reaching(&mut kept, network);
    Ok(kept)
}
