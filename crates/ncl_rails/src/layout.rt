//! The gates of a network.
ghost use Rattle.std.specs.Prelude.{◌≡◌, [], ◌≤◌, ◌+◌, ◌*◌, ◌<◌, ◌^◌, IfOk};
ghost use Rattle.ncl_base.specs.declared.word.TheConstants.{MOST_BITS};
ghost use Rattle.ncl_decomp.specs.Split.{cost_of_network};
ghost use Rattle.ncl_rails.specs.Complete.{IsComplete};
ghost use Rattle.ncl_rails.specs.Waiting.{waits_of};
ghost use Rattle.ncl_rails.specs.Layout.{AreLaidOut, IsLaidOut, input_pairs};

use crate::held::waits_at;
use crate::signal_pairs::{input_pairs, signal_pairs};
use ncl_base::Memory;
use ncl_network::Network;
use ncl_shape::Rails;
use ncl_template::{Waits, add_waiting};
use ncl_tree::Gates;
use std::alloc::Global;

/// The gates of a network, and the pairs that show its outputs.
#[derive(Drop)]
pub(crate) struct Layout {
    pub(crate) gates: Gates,
    pub(crate) outputs: Vec<Rails>,
}

/// Adds the gates of all nodes over the pairs of the inputs, and gives the pairs of the nodes. Linear in the nodes.
fn add_nodes(
    alloc: Global,
    gates: &mut Gates,
    inputs: &[Rails],
    network: &Network,
    waits: &[Waits],
) -> Result<Vec<Rails>, Memory>
    requires complete { IsComplete network.now }
    requires inputs { inputs.now ≡ input_pairs network.now.inputs }
    requires none { gates.old ≡ record { first = 2 * network.now.inputs; cells = [] } }
    requires room { 2 * network.now.inputs + cost_of_network network.now + 32 < 2 ^ 32 }
    ensures laid_out { IfOk result (λ pairs. AreLaidOut inputs.now (waits_of waits.now) network.now.nodes gates.new.cells pairs.items) }
    ensures first { gates.new.first ≡ gates.old.first }
{
    let mut pairs = Vec::new(alloc);
    for node in network.nodes.items() {
        let ins = signal_pairs(alloc, inputs, &pairs, node.ins.items())?;
        let waited = waits_at(waits, pairs.len());
        let pair = add_waiting(gates, node, &ins, waited)?;
        pairs.push(pair)?;
    }
    Ok(pairs)
}

/// The gates of a network over the nets of its inputs. Near linear in the network. The only error is want of memory.
pub(crate) fn lay_out(alloc: Global, network: &Network, waits: &[Waits]) -> Result<Layout, Memory>
    requires complete { IsComplete network.now }
    requires few_inputs { network.now.inputs ≤ MOST_BITS }
    requires cheap { cost_of_network network.now < 2 ^ 31 }
    ensures { IfOk result (λ layout. IsLaidOut network.now (waits_of waits.now) layout.gates layout.outputs.items) }
{
    let inputs = input_pairs(alloc, network.inputs)?;
    let mut gates = Gates::new(alloc, 2 * network.inputs);
    let pairs = add_nodes(alloc, &mut gates, &inputs, network, waits)?;
    let outputs = signal_pairs(alloc, &inputs, &pairs, network.outputs.items())?;
    Ok(Layout { gates, outputs })
}
