//! What holds each input and each node of a network: outputs and nodes that wait for it.

use crate::by_source::BySource;
use crate::sharing::{Few, Sharer};
use ncl_base::Memory;
use ncl_network::{Network, Signal, SignalSource};
use ncl_template::Waits;
use std::alloc::Global;

/// For each input and each node how many outputs are of it, and how many nodes wait for it at every word.
pub(crate) type Holders = BySource<u32>;

impl BySource<u32> {
    /// All outputs and all readers. Linear in the network.
    pub(crate) fn readers(alloc: Global, network: &Network) -> Result<Holders, Memory> {
        let mut readers = BySource::all(alloc, network, 0u32)?;
        readers.take(network.outputs.items(), Waits::ALL);
        for node in network.nodes.items() {
            readers.take(node.ins.items(), Waits::ALL);
        }
        Ok(readers)
    }

    /// Adds a reader of each signal that is waited for at every word.
    pub(crate) fn take(&mut self, ins: &[Signal], waits: Waits) {
        for (place, signal) in ins.iter().enumerate() {
            if waits.always(place)
                && let Some(count) = self.get_mut(signal.from)
            {
                *count = count.saturating_add(1);
            }
        }
    }

    /// Takes a reader of each signal away that is waited for at every word.
    pub(crate) fn give_up(&mut self, ins: &[Signal], waits: Waits) {
        for (place, signal) in ins.iter().enumerate() {
            if waits.always(place)
                && let Some(count) = self.get_mut(signal.from)
            {
                *count = count.saturating_sub(1);
            }
        }
    }
}

/// What holds each input and each node: how many hold it at every word, and some nodes that wait for it at some words.
#[derive(Drop)]
pub(crate) struct Holding {
    holders: Holders,
    sharers: BySource<Few>,
}

impl Holding {
    /// All outputs and all readers, and places for nodes that wait at some words where nodes may wait for less. Linear in the
    /// network.
    pub(crate) fn new(alloc: Global, network: &Network, relax: bool) -> Result<Holding, Memory> {
        Ok(Holding {
            holders: Holders::readers(alloc, network)?,
            sharers: if relax {
                BySource::all(alloc, network, Few::NONE)?
            } else {
                BySource::none(alloc)
            },
        })
    }

    /// Puts a node in the place of another for each signal that is waited for at some words.
    fn exchange(&mut self, ins: &[Signal], waits: Waits, old: Option<Sharer>, new: Option<Sharer>) {
        for (place, signal) in ins.iter().enumerate() {
            if waits.once(place)
                && !waits.always(place)
                && let Some(few) = self.sharers.get_mut(signal.from)
            {
                few.exchange(old, new);
            }
        }
    }

    /// What waits so for some signals holds them.
    pub(crate) fn take(&mut self, ins: &[Signal], waits: Waits) {
        self.holders.take(ins, waits);
        self.exchange(ins, waits, None, Sharer::of(ins, waits));
    }

    /// It holds them no more.
    pub(crate) fn give_up(&mut self, ins: &[Signal], waits: Waits) {
        self.holders.give_up(ins, waits);
        self.exchange(ins, waits, Sharer::of(ins, waits), None);
    }

    /// Whether something holds a source at every word.
    pub(crate) fn is_held(&self, source: SignalSource) -> bool {
        self.holders.get(source).copied().unwrap_or(0) > 0
    }

    /// What holds none of some signals, each of another source, at which words of theirs.
    pub(crate) fn needed(&self, ins: &[Signal]) -> Waits {
        let mut waits = Waits::NONE;
        for (place, signal) in ins.iter().enumerate() {
            if !self.is_held(signal.from) {
                waits = waits.with(place, self.unheld(ins, signal.from));
            }
        }
        waits
    }

    /// The words of some signals, each of another source, at which nothing waits for a source.
    fn unheld(&self, ins: &[Signal], source: SignalSource) -> u16 {
        match self.sharers.get(source) {
            Some(few) => few.unheld(ins, source),
            None => u16::MAX,
        }
    }
}
