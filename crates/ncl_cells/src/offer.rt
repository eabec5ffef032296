//! Nodes that are offered in place of others, and whether they compute the same.
ghost use Rattle.std.specs.Prelude.{◌≡◌, true, OnOk, IfOk, All, length};
ghost use Rattle.ncl_cells.specs.Recasts.{VariesBefore, MayRead, Agrees, AgreesAt, MayStand};

use ncl_base::Memory;
use ncl_blif::Row;
use ncl_decomp::table::word_of;
use ncl_network::{Network, Node, Signal, SignalSource};
use ncl_plans::{Offer, Stop, add_inner, cone_from, known_at, known_bit, node_bit};
use std::alloc::Global;

/// Whether a signal is of an input or of a node before a place.
fn varies_before(inputs: u32, place: u32, signal: Signal) -> bool
    ensures { result ≡ true → VariesBefore inputs place signal }
{
    match signal.from {
        SignalSource::Input(input) => input < inputs,
        SignalSource::Node(node) => node < place,
        SignalSource::Const(_) => false,
    }
}

/// Whether all signals are.
fn vary_before(inputs: u32, place: u32, signals: &[Signal]) -> bool
    ensures { result ≡ true → All (VariesBefore inputs place) signals.now }
{
    for signal in signals {
        if !varies_before(inputs, place, *signal) {
            return false;
        }
    }
    true
}

/// Whether all rows have a width.
fn have_width(rows: &[Row], width: usize) -> bool
    ensures { result ≡ true → All (λ row. length row ≡ width) rows.now }
{
    for row in rows {
        if row.items().len() != width {
            return false;
        }
    }
    true
}

/// Whether a node has two to four inputs, each of an input or of a node before a place, and rows that fit them.
fn may_read(node: &Node, inputs: u32, place: u32) -> bool
    ensures { result ≡ true → MayRead inputs place node.now }
{
    let width = node.ins.items().len();
    2 <= width
        && width <= 4
        && !node.rows.items().is_empty()
        && vary_before(inputs, place, node.ins.items())
        && have_width(node.rows.items(), width)
}

/// An offer that is tried for a place, through nodes in order.
#[derive(Clone, Copy)]
struct Trying<'a> {
    nodes: &'a [Node],
    place: u32,
    offer: &'a Offer,
    cone: &'a [u32],
}

impl<'a> Trying<'a> {
    /// Refuses the offer if it doesn't give the bit of the node where the leaves have the bits of a word.
    fn test_word(&self, alloc: Global, word: [bool; 4]) -> Result<(), Stop>
        ensures { let offer = self.now.offer.now in OnOk result (AgreesAt self.now.nodes.now self.now.place offer.leaves offer.node word) }
    {
        let known = known_at(alloc, self.nodes, self.offer.leaves, self.cone, word)?;
        let bit = known_bit(&known, SignalSource::Node(self.place))?;
        let offered = node_bit(alloc, &known, &self.offer.node)?;
        if bit == offered {
            Ok(())
        } else {
            Err(Stop::GivenUp)
        }
    }

    /// The same at the sixteen words of the leaves.
    fn test_all(&self, alloc: Global) -> Result<(), Stop>
        ensures { OnOk result (Agrees self.now.nodes.now self.now.place self.now.offer.now.node) }
    {
        for number in 0..16 {
            self.test_word(alloc, word_of(number))?;
        }
        Ok(())
    }
}

/// The nodes through which a node and what an offer reads are computed of its leaves, in order, if they are few.
fn cone_of_offer(
    alloc: Global,
    nodes: &[Node],
    place: u32,
    offer: &Offer,
) -> Result<Vec<u32>, Stop> {
    let mut cone = vec![in alloc; place]?;
    add_inner(&mut cone, offer.leaves, offer.node.ins.items())?;
    cone_from(nodes, cone, offer.leaves)
}

/// Refuses an offer that reads what it may not, or isn't the same as the node at a place: it is tried at the sixteen
/// words of its leaves. The nodes between are bounded in number.
fn test_offer(alloc: Global, network: &Network, place: u32, offer: &Offer) -> Result<(), Stop>
    ensures { OnOk result (MayStand network.now place offer.now.node) }
{
    if !may_read(&offer.node, network.inputs, place) {
        return Err(Stop::GivenUp);
    }
    let nodes = network.nodes.items();
    let cone = cone_of_offer(alloc, nodes, place, offer)?;
    let trying = Trying {
        nodes,
        place,
        offer,
        cone: &cone,
    };
    trying.test_all(alloc)
}

/// Whether an offer may take the place of a node.
pub(crate) fn may_stand(
    alloc: Global,
    network: &Network,
    place: u32,
    offer: &Offer,
) -> Result<bool, Memory>
    ensures { IfOk result (λ may. may ≡ true → MayStand network.now place offer.now.node) }
{
    match test_offer(alloc, network, place, offer) {
        Ok(()) => Ok(true),
        Err(Stop::GivenUp) => Ok(false),
        Err(Stop::Memory) => Err(Memory),
    }
}
