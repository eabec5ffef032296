//! The nodes of a network as they are joined.

use crate::holders::{Holders, Holding};
use crate::joint::{Sources, depends_on, node_of};
use crate::timing::Timing;
use ncl_base::Memory;
use ncl_network::{Network, Node, Signal, SignalSource};
use ncl_plans::{Leaves, Offer, table_over};
use ncl_template::{Fits, Waits};
use std::alloc::Global;

/// What has become of a node.
#[derive(Clone, Copy, PartialEq, Eq)]
pub(crate) enum State {
    /// It is as it was.
    Kept,
    /// It reads what nodes that it read have read, and is a function of these sources.
    Joined(Leaves),
    /// Each node that read it is joined with it.
    Gone,
}

/// What stands at the place of a node, and what it waits for.
#[derive(Drop)]
pub(crate) struct Slot {
    pub node: Node,
    pub waits: Waits,
    pub state: State,
}

/// Joined nodes as they are offered, by their places, and what each node waits for that is left.
#[derive(Drop)]
pub struct Joins {
    /// What is offered in the place of each node.
    pub offers: Vec<Option<Offer>>,
    /// What each node waits for that is left.
    pub waits: Vec<Waits>,
}

/// A joined node, what it waits for, and the sources that it is a function of.
#[derive(Drop)]
pub(crate) struct Pair {
    pub node: Node,
    pub waits: Waits,
    pub leaves: Leaves,
}

/// The nodes of a network as they are joined: how many signals are of each input and node, and what holds it.
#[derive(Drop)]
pub(crate) struct Joiner<'a> {
    pub alloc: Global,
    pub network: &'a Network,
    pub slots: Vec<Slot>,
    pub readers: Holders,
    pub holding: Holding,
    pub fits: Fits,
    pub joins: usize,
}

/// The nodes of a network as they stand there. Linear in the network.
fn slots_of(alloc: Global, network: &Network) -> Result<Vec<Slot>, Memory> {
    let mut slots = Vec::new(alloc);
    for node in network.nodes.items() {
        slots.push(Slot {
            node: node.clone()?,
            waits: Waits::ALL,
            state: State::Kept,
        })?;
    }
    Ok(slots)
}

/// Whether two of the signals, which are at most three, are of one source.
fn reads_twice(ins: &[Signal]) -> bool {
    match ins {
        [a, b] => a.from == b.from,
        [a, b, c] => a.from == b.from || a.from == c.from || b.from == c.from,
        _ => true,
    }
}

impl<'a> Joiner<'a> {
    /// The nodes of a network as they are, which wait for all until they are to wait for less. Linear in the network.
    pub(crate) fn new(alloc: Global, network: &'a Network, relax: bool) -> Result<Self, Memory> {
        Ok(Joiner {
            alloc,
            network,
            slots: slots_of(alloc, network)?,
            readers: Holders::readers(alloc, network)?,
            holding: Holding::new(alloc, network, relax)?,
            fits: Fits::new(alloc),
            joins: 0,
        })
    }

    /// How many nodes there are.
    pub(crate) fn count(&self) -> u32 {
        u32::try_from(self.slots.len()).unwrap_or(u32::MAX)
    }

    /// A node, if it is as it was.
    pub(crate) fn kept(&self, place: u32) -> Option<&Slot> {
        let slot = self.slots.get(place as usize)?;
        (slot.state == State::Kept).then_some(slot)
    }

    /// Whether a node is as it was and has so many inputs.
    fn is_kept(&self, place: u32, least: usize, most: usize) -> bool {
        match self.kept(place) {
            Some(slot) => (least..=most).contains(&slot.node.ins.items().len()),
            None => false,
        }
    }

    /// Nodes of so many inputs that are as they were wait for less. Linear in the nodes.
    pub(crate) fn relax(&mut self, least: usize, most: usize) -> Result<(), Memory> {
        for place in 0..self.count() {
            if self.is_kept(place, least, most) {
                self.release(place);
                self.relax_one(place)?;
                self.hold(place);
            }
        }
        Ok(())
    }

    /// A node waits for what nothing else holds, and for what its gates then wait for besides; for all where it reads a source
    /// twice. It holds nothing meanwhile.
    fn relax_one(&mut self, place: u32) -> Result<(), Memory> {
        if let Some(slot) = self.slots.get_mut(place as usize) {
            let ins = slot.node.ins.items();
            let needed = if reads_twice(ins) {
                Waits::ALL
            } else {
                self.holding.needed(ins)
            };
            slot.waits = self.fits.of(&slot.node, needed)?.waits;
        }
        Ok(())
    }

    /// How many gates stand one after another, where there may be so many in all. Linear in the nodes.
    pub(crate) fn timing(&mut self, most: u32) -> Result<Timing, Memory> {
        let mut own = Vec::new(self.alloc);
        for slot in self.slots.iter() {
            own.push(self.fits.of(&slot.node, slot.waits)?.levels)?;
        }
        Timing::of(self.alloc, self.network, &own, most)
    }

    /// Sets the level of a node as it now is.
    pub(crate) fn settle(&mut self, place: u32, timing: &mut Timing) -> Result<(), Memory> {
        if let Some(slot) = self.slots.get(place as usize) {
            let fit = self.fits.of(&slot.node, slot.waits)?;
            timing.settle(place as usize, slot.node.ins.items(), fit.levels);
        }
        Ok(())
    }

    /// The node that a node reads at one of its inputs, if nothing else reads it.
    pub(crate) fn only_read(&self, place: u32, at: usize) -> Option<u32> {
        let slot = self.slots.get(place as usize)?;
        let from = slot.node.ins.items().get(at)?.from;
        match from {
            SignalSource::Node(inner) if self.readers.get(from).copied() == Some(1) => Some(inner),
            _ => None,
        }
    }

    /// What two nodes read, the second of which the first reads, if it is at most four sources.
    pub(crate) fn sources(&self, place: u32, inner: u32) -> Option<Sources> {
        let outer = self.slots.get(place as usize)?;
        let read = self.slots.get(inner as usize)?;
        let from = SignalSource::Node(inner);
        let mut sources = Sources::new();
        let few = sources.add_all(outer.node.ins.items(), from)
            && sources.add_all(read.node.ins.items(), from);
        few.then_some(sources)
    }

    /// A node holds what it waits for no more.
    pub(crate) fn release(&mut self, place: u32) {
        if let Some(slot) = self.slots.get(place as usize) {
            self.holding.give_up(slot.node.ins.items(), slot.waits);
        }
    }

    /// These nodes hold what they wait for no more.
    fn release_all(&mut self, places: &[u32]) {
        for place in places {
            self.release(*place);
        }
    }

    /// A node holds what it waits for.
    pub(crate) fn hold(&mut self, place: u32) {
        if let Some(slot) = self.slots.get(place as usize) {
            self.holding.take(slot.node.ins.items(), slot.waits);
        }
    }

    /// The two gates of a function of some sources, which wait for those that nothing else holds, if there are such.
    fn gates(&mut self, sources: &Sources, table: u16) -> Result<Option<Pair>, Memory> {
        let signals = sources.signals();
        let needed = self.holding.needed(&signals[..sources.count.min(4)]);
        if !self.fits.has(sources.count, table, needed)? {
            return Ok(None);
        }
        let node = node_of(self.alloc, sources, table)?;
        let needed = self.holding.needed(node.ins.items());
        let waits = self.fits.of(&node, needed)?.waits;
        if waits == Waits::ALL {
            return Ok(None);
        }
        let leaves = sources.leaves();
        Ok(Some(Pair {
            node,
            waits,
            leaves,
        }))
    }

    /// The gates of a node that is joined with one that it reads, if there are such and they are in time. Both hold nothing
    /// meanwhile.
    fn pair(&mut self, place: u32, inner: u32, timing: &Timing) -> Result<Option<Pair>, Memory> {
        let Some(sources) = self.sources(place, inner) else {
            return Ok(None);
        };
        let found = match table_over(self.alloc, self.network, place, sources.leaves())? {
            Some(table) if depends_on(table, sources.count) => self.gates(&sources, table)?,
            _ => None,
        };
        let Some(pair) = found else {
            return Ok(None);
        };
        let own = self.fits.of(&pair.node, pair.waits)?.levels;
        let in_time = timing.is_in_time(place as usize, pair.node.ins.items(), own);
        Ok(if in_time { Some(pair) } else { None })
    }

    /// What nodes become that take in a node that they read, one after another, up to the first that can't. What they become holds
    /// what it waits for.
    fn pairs(&mut self, by: &[u32], inner: u32, timing: &Timing) -> Result<Vec<Pair>, Memory> {
        let mut pairs = Vec::new(self.alloc);
        for place in by {
            let Some(pair) = self.pair(*place, inner, timing)? else {
                return Ok(pairs);
            };
            self.holding.take(pair.node.ins.items(), pair.waits);
            pairs.push(pair)?;
        }
        Ok(pairs)
    }

    /// Puts a joined node in the place of a node.
    pub(crate) fn put(&mut self, place: u32, pair: Pair) {
        if let Some(slot) = self.slots.get_mut(place as usize) {
            self.readers.give_up(slot.node.ins.items(), Waits::ALL);
            self.readers.take(pair.node.ins.items(), Waits::ALL);
            slot.node = pair.node;
            slot.waits = pair.waits;
            slot.state = State::Joined(pair.leaves);
        }
    }

    /// Drops a node.
    pub(crate) fn drop_node(&mut self, place: u32) {
        if let Some(slot) = self.slots.get_mut(place as usize) {
            self.readers.give_up(slot.node.ins.items(), Waits::ALL);
            slot.state = State::Gone;
        }
        self.joins = self.joins.saturating_add(1);
    }

    /// Joins a node with each of those that read it, which hold nothing meanwhile, if all can take it in, and tells whether they
    /// can. If they can't they still hold nothing.
    pub(crate) fn join_with(
        &mut self,
        by: &[u32],
        inner: u32,
        timing: &Timing,
    ) -> Result<bool, Memory> {
        self.release(inner);
        self.release_all(by);
        let pairs = self.pairs(by, inner, timing)?;
        let all = pairs.len() == by.len();
        for (place, pair) in by.iter().zip(pairs) {
            if all {
                self.put(*place, pair);
            } else {
                self.holding.give_up(pair.node.ins.items(), pair.waits);
            }
        }
        if all {
            self.drop_node(inner);
        }
        Ok(all)
    }

    /// What is found.
    pub(crate) fn joins(self) -> Result<Joins, Memory> {
        let mut offers = Vec::new(self.alloc);
        let mut waits = Vec::new(self.alloc);
        for slot in self.slots {
            if slot.state != State::Gone {
                waits.push(slot.waits)?;
            }
            let offer = match slot.state {
                State::Joined(leaves) => Some(Offer {
                    node: slot.node,
                    leaves,
                }),
                _ => None,
            };
            offers.push(offer)?;
        }
        Ok(Joins { offers, waits })
    }
}
