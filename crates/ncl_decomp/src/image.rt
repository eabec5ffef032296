//! What the signals of a network are in the network that it is split into.
ghost use Rattle.std.specs.Prelude.{◌≡◌, length, map, All, IfOk};
ghost use Rattle.ncl_network.specs.Prune.{IsPlaced};
ghost use Rattle.ncl_decomp.specs.Images.{image_of};

use crate::literals::turned;
use ncl_base::Memory;
use ncl_network::{Signal, SignalSource};
use std::alloc::Global;

/// What a signal is, where the nodes are these signals.
fn image(signal: Signal, images: &[Signal]) -> Signal
    requires { IsPlaced (length images.now) signal.from }
    ensures { result ≡ image_of images.now signal }
{
    let source = match signal.from {
        SignalSource::Node(place) => images[place as usize],
        other => Signal {
            from: other,
            inverted: false,
        },
    };
    if signal.inverted {
        turned(source)
    } else {
        source
    }
}

/// What some signals are, where the nodes are these signals. Linear in the signals.
pub(crate) fn images_of(
    alloc: Global,
    signals: &[Signal],
    images: &[Signal],
) -> Result<Vec<Signal>, Memory>
    requires { All (λ signal. IsPlaced (length images.now) signal.from) signals.now }
    ensures { IfOk result (λ found. found.items ≡ map (image_of images.now) signals.now) }
{
    let mut found = Vec::new(alloc);
    for signal in signals {
        found.push(image(*signal, images))?;
    }
    Ok(found)
}
