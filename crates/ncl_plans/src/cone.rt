//! The bits of nodes that depend on few others.
ghost use Rattle.std.specs.Prelude.{◌≡◌, Bool, IfOk, map, Some};
ghost use Rattle.ncl_blif.specs.Meaning.{cover_value};
ghost use Rattle.ncl_network.specs.declared.network.SignalSource.{SignalSource};
ghost use Rattle.ncl_plans.specs.Cones.{IsKnown, Respects, signal_in};

use crate::stop::Stop;
use ncl_network::{Node, Signal, SignalSource, cover_bit};
use std::alloc::Global;

/// A source whose bit is known.
#[derive(Clone, Copy, Debug, PartialEq, Eq)]
pub struct Known {
    /// The source.
    pub from: SignalSource,
    /// Its bit.
    pub bit: bool,
}

/// Four sources that a node is computed of. Where there are fewer, a constant stands for none.
#[derive(Clone, Copy, Debug, PartialEq, Eq)]
pub struct Leaves {
    /// The first.
    pub first: SignalSource,
    /// The second.
    pub second: SignalSource,
    /// The third.
    pub third: SignalSource,
    /// The fourth.
    pub fourth: SignalSource,
}

/// A node that is offered in place of another.
#[derive(Debug, Drop)]
pub struct Offer {
    /// The node. It reads inputs, and nodes before the one whose place it takes.
    pub node: Node,
    /// Four sources. Both nodes, and what the offered one reads, are to be computed of these through few nodes.
    pub leaves: Leaves,
}

/// The bit that is known of a source. Linear in what is known.
pub fn known_bit(known: &[Known], from: SignalSource) -> Result<bool, Stop>
    ensures { IfOk result (λ bit. (value : SignalSource → Bool) → IsKnown value known.now → value from ≡ bit) }
{
    for fact in known {
        if fact.from == from {
            return Ok(fact.bit);
        }
    }
    Err(Stop::GivenUp)
}

/// The bit that follows for a signal.
fn signal_bit(known: &[Known], signal: Signal) -> Result<bool, Stop>
    ensures { IfOk result (λ bit. (value : SignalSource → Bool) → IsKnown value known.now → signal_in value signal ≡ bit) }
{
    let bit = known_bit(known, signal.from)?;
    Ok(if signal.inverted { !bit } else { bit })
}

/// The bits that follow for signals. Linear in them times what is known.
fn signal_bits(alloc: Global, known: &[Known], signals: &[Signal]) -> Result<Vec<bool>, Stop>
    ensures { IfOk result (λ bits. (value : SignalSource → Bool) → IsKnown value known.now → map (signal_in value) signals.now ≡ bits.items) }
{
    let mut bits = Vec::new(alloc);
    for signal in signals {
        let bit = signal_bit(known, *signal)?;
        bits.push(bit)?;
    }
    Ok(bits)
}

/// The bit that follows for a node.
pub fn node_bit(alloc: Global, known: &[Known], node: &Node) -> Result<bool, Stop>
    ensures { IfOk result (λ bit. (value : SignalSource → Bool) → IsKnown value known.now → cover_value node.now.on node.now.rows (map (signal_in value) node.now.ins) ≡ bit) }
{
    let bits = signal_bits(alloc, known, node.ins.items())?;
    Ok(cover_bit(node.on, node.rows.items(), &bits))
}

/// Adds the bit of the node at a place to what is known.
fn learn(alloc: Global, nodes: &[Node], place: u32, known: &mut Vec<Known>) -> Result<(), Stop>
    ensures { IfOk result (λ _. (value : SignalSource → Bool) → Respects nodes.now value → IsKnown value known.old.items → IsKnown value known.new.items) }
{
    let Some(node) = nodes.get(place as usize) else {
        return Err(Stop::GivenUp);
    };
    let bit = node_bit(alloc, known, node)?;
    known.push(Known {
        from: SignalSource::Node(place),
        bit,
    })?;
    Ok(())
}

/// What is known once the nodes at these places have their bits, one after another.
pub(crate) fn learn_all(
    alloc: Global,
    nodes: &[Node],
    cone: &[u32],
    known: &mut Vec<Known>,
) -> Result<(), Stop>
    ensures { IfOk result (λ _. (value : SignalSource → Bool) → Respects nodes.now value → IsKnown value known.old.items → IsKnown value known.new.items) }
{
    for place in cone {
        learn(alloc, nodes, *place, known)?;
    }
    Ok(())
}
