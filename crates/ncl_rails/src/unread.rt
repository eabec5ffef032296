//! Inputs that nothing reads.
ghost use Rattle.std.specs.Prelude.{◌≡◌, ℕ, ◌||◌, false, length, replicate, All, IfOk};
ghost use Rattle.std.specs.List.{list_any, slice_index_or};
ghost use Rattle.ncl_rails.specs.Complete.{IsVarying, IsInputBelow, is_among, is_input_read, unread_signals};

use ncl_base::Memory;
use ncl_network::{Network, Node, Signal, SignalSource};
use std::alloc::Global;

/// Marks the inputs that some signals are of. Linear in the signals.
fn mark(read: &mut [bool], signals: &[Signal])
    requires { All (λ signal. IsInputBelow (length read.old) signal.from) signals.now }
    ensures { (i : ℕ) → slice_index_or read.new i false ≡ (slice_index_or read.old i false || is_among signals.now i) }
{
    for signal in signals {
        if let SignalSource::Input(i) = signal.from {
            read[i as usize] = true;
        }
    }
}

/// Marks the inputs that some nodes read. Linear in the nodes.
fn mark_all(read: &mut [bool], nodes: &[Node])
    requires { All (λ node. All (λ signal. IsInputBelow (length read.old) signal.from) node.ins) nodes.now }
    ensures { (i : ℕ) → slice_index_or read.new i false ≡ (slice_index_or read.old i false || list_any (λ node. is_among node.ins i) nodes.now) }
{
    for node in nodes {
        mark(read, node.ins.items());
    }
}

/// Marks the inputs that a node or an output reads, where none is marked. Linear in the network.
fn mark_read(read: &mut [bool], network: &Network)
    requires varying { IsVarying network.now }
    requires fresh { read.old ≡ replicate network.now.inputs false }
    ensures { (i : ℕ) → slice_index_or read.new i false ≡ is_input_read network.now i }
{
    mark(read, network.outputs.items());
    mark_all(read, network.nodes.items());
}

/// For each input, whether a node or an output reads it. Linear in the network.
fn read_inputs(alloc: Global, network: &Network) -> Result<Vec<bool>, Memory>
    requires { IsVarying network.now }
    ensures length { IfOk result (λ read. length read.items ≡ network.now.inputs) }
    ensures read { IfOk result (λ read. (i : ℕ) → slice_index_or read.items i false ≡ is_input_read network.now i) }
{
    let mut read = vec![in alloc; false; network.inputs as usize]?;
    mark_read(&mut read, network);
    Ok(read)
}

/// The inputs that no node and no output reads, in order. Linear in the network.
pub(crate) fn unread_inputs(alloc: Global, network: &Network) -> Result<Vec<Signal>, Memory>
    requires { IsVarying network.now }
    ensures { IfOk result (λ unread. unread.items ≡ unread_signals network.now) }
{
    let read = read_inputs(alloc, network)?;
    let mut unread = Vec::new(alloc);
    for i in 0..network.inputs {
        if !read[i as usize] {
            unread.push(Signal {
                from: SignalSource::Input(i),
                inverted: false,
            })?;
        }
    }
    Ok(unread)
}
