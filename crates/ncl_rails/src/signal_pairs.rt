//! The pairs of nets of signals.
ghost use Rattle.std.specs.Prelude.{◌≡◌, ◌≤◌, length, map, All, IfOk};
ghost use Rattle.ncl_base.specs.declared.word.TheConstants.{MOST_BITS};
ghost use Rattle.ncl_network.specs.Network.{IsSource};
ghost use Rattle.ncl_rails.specs.Layout.{input_pairs, signal_pair};

use ncl_base::Memory;
use ncl_netlist::NetId;
use ncl_network::{Signal, SignalSource};
use ncl_shape::Rails;
use std::alloc::Global;

/// The pairs of so many inputs, whose nets come first. Linear in the inputs.
pub(crate) fn input_pairs(alloc: Global, inputs: u32) -> Result<Vec<Rails>, Memory>
    requires { inputs ≤ MOST_BITS }
    ensures { IfOk result (λ pairs. pairs.items ≡ input_pairs inputs) }
{
    let mut pairs = Vec::new(alloc);
    for i in 0..inputs {
        pairs.push(Rails {
            zero: NetId(2 * i),
            one: NetId(2 * i + 1),
        })?;
    }
    Ok(pairs)
}

/// The pair of a signal, where inputs and nodes have these pairs: rails are exchanged where it is inverted.
fn signal_pair(inputs: &[Rails], pairs: &[Rails], signal: Signal) -> Rails
    requires { IsSource (length inputs.now) (length pairs.now) signal.from }
    ensures { result ≡ signal_pair inputs.now pairs.now signal }
{
    let pair = match signal.from {
        SignalSource::Input(i) => inputs[i as usize],
        SignalSource::Node(k) => pairs[k as usize],
        SignalSource::Const(_) => Rails::default(),
    };
    if signal.inverted {
        Rails {
            zero: pair.one,
            one: pair.zero,
        }
    } else {
        pair
    }
}

/// The pairs of some signals, where inputs and nodes have these pairs. Linear in the signals.
pub(crate) fn signal_pairs(
    alloc: Global,
    inputs: &[Rails],
    pairs: &[Rails],
    signals: &[Signal],
) -> Result<Vec<Rails>, Memory>
    requires { All (λ signal. IsSource (length inputs.now) (length pairs.now) signal.from) signals.now }
    ensures { IfOk result (λ found. found.items ≡ map (signal_pair inputs.now pairs.now) signals.now) }
{
    let mut found = Vec::new(alloc);
    for signal in signals {
        found.push(signal_pair(inputs, pairs, *signal))?;
    }
    Ok(found)
}
