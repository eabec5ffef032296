//! Networks with nothing left to complete.
ghost use Rattle.std.specs.Prelude.{◌<◌, ◌≤◌, ◌+◌, ◌*◌, ◌^◌, length, IfOk};
ghost use Rattle.ncl_base.specs.declared.word.TheConstants.{MOST_BITS};
ghost use Rattle.ncl_decomp.specs.Split.{IsSplit, cost_of_network};
ghost use Rattle.ncl_rails.specs.Complete.{IsVarying, IsComplete, AnswersAs};

use crate::constants::without_constants;
use crate::unread::unread_inputs;
use ncl_base::{Items, Memory};
use ncl_decomp::{Joint, join};
use ncl_network::Network;
use std::alloc::Global;

/// The network with a tree over the inputs that nothing reads, which its first output waits for. Linear in the
/// network.
fn join_unread(alloc: Global, network: Network) -> Result<Network, Memory>
    requires varying { IsVarying network }
    requires some_output { 0 < length network.outputs }
    requires room { length network.nodes + network.inputs < 2 ^ 32 }
    ensures complete { IfOk result IsComplete }
    ensures same { IfOk result (AnswersAs network) }
    ensures cost { IfOk result (λ n. cost_of_network n ≤ cost_of_network network + 2 * network.inputs) }
{
    let unread = unread_inputs(alloc, &network)?;
    if unread.is_empty() {
        return Ok(network);
    }
    let Network {
        inputs,
        nodes,
        outputs,
    } = network;
    let mut nodes = nodes.into_vec();
    let mut outputs = outputs.into_vec();
    let all = join(alloc, &mut nodes, Joint::Join, unread)?;
    let first = vec![in alloc; outputs[0], all]?;
    outputs[0] = join(alloc, &mut nodes, Joint::Join, first)?;
    Ok(Network {
        inputs,
        nodes: Items::from_vec(nodes),
        outputs: Items::from_vec(outputs),
    })
}

/// The network with nothing left to complete: none of its outputs is constant, and each input reaches one of them.
/// It gives the same answers, and costs at most two more for each input and output.
///
/// Linear in the network. The only error is want of memory.
pub(crate) fn complete(alloc: Global, network: &Network) -> Result<Network, Memory>
    requires split { IsSplit network.now }
    requires some_inputs { 0 < network.now.inputs }
    requires few_inputs { network.now.inputs ≤ MOST_BITS }
    requires some_outputs { 0 < length network.now.outputs }
    requires few_outputs { length network.now.outputs ≤ MOST_BITS }
    ensures complete { IfOk result IsComplete }
    ensures same { IfOk result (AnswersAs network.now) }
    ensures cost { IfOk result (λ n. cost_of_network n ≤ cost_of_network network.now + 2 * network.now.inputs + 2 * length network.now.outputs) }
{
    let varying = without_constants(alloc, network)?;
    let complete = join_unread(alloc, varying)?;
    Ok(complete)
}
