//! How many gates stand one after another, before and behind each node.

use ncl_base::Memory;
use ncl_network::{Network, Signal, SignalSource};
use ncl_template::{Waits, fit_of};
use std::alloc::Global;

/// For each node of a network how many gates stand one after another up to its rails, and behind them.
#[derive(Drop)]
pub(crate) struct Timing {
    levels: Vec<u32>,
    behind: Vec<u32>,
    most: u32,
}

/// The number at a place, or 0 where there is none.
fn at(numbers: &[u32], place: usize) -> u32 {
    match numbers.get(place) {
        Some(number) => *number,
        None => 0,
    }
}

/// Raises what nodes that are read have behind them.
fn raise(behind: &mut [u32], signals: &[Signal], least: u32) {
    for signal in signals {
        if let SignalSource::Node(read) = signal.from
            && let Some(own) = behind.get_mut(read as usize)
        {
            *own = (*own).max(least);
        }
    }
}

/// How many gates stand one after another behind each node, where each node has so many itself. Linear in the network.
fn behind_of(alloc: Global, network: &Network, own: &[u32]) -> Result<Vec<u32>, Memory> {
    let nodes = network.nodes.items();
    let mut behind = vec![in alloc; 0u32; nodes.len()]?;
    for (place, node) in nodes.iter().enumerate().rev() {
        let least = at(&behind, place).saturating_add(at(own, place));
        raise(&mut behind, node.ins.items(), least);
    }
    Ok(behind)
}

impl Timing {
    /// Of a network whose nodes have so many gates one after another, and which may have so many in all. Linear in it.
    pub(crate) fn of(
        alloc: Global,
        network: &Network,
        own: &[u32],
        most: u32,
    ) -> Result<Timing, Memory> {
        let levels = vec![in alloc; 0u32; network.nodes.items().len()]?;
        let behind = behind_of(alloc, network, own)?;
        let mut timing = Timing {
            levels,
            behind,
            most,
        };
        for (place, node) in network.nodes.items().iter().enumerate() {
            timing.settle(place, node.ins.items(), at(own, place));
        }
        Ok(timing)
    }

    /// How many gates stand one after another at most. Linear in the nodes.
    fn depth(&self) -> u32 {
        let mut depth = 0u32;
        for level in self.levels.as_slice() {
            depth = depth.max(*level);
        }
        depth
    }

    /// How many gates stand one after another up to the rails of a node that reads these and has so many itself.
    fn level(&self, signals: &[Signal], own: u32) -> u32 {
        let mut highest = 0u32;
        for signal in signals {
            if let SignalSource::Node(read) = signal.from {
                highest = highest.max(at(&self.levels, read as usize));
            }
        }
        highest.saturating_add(own)
    }

    /// Sets the level of a node.
    pub(crate) fn settle(&mut self, place: usize, signals: &[Signal], own: u32) {
        let level = self.level(signals, own);
        if let Some(known) = self.levels.get_mut(place) {
            *known = level;
        }
    }

    /// Whether no more gates than may stand one after another where a node reads these and has so many itself.
    pub(crate) fn is_in_time(&self, place: usize, signals: &[Signal], own: u32) -> bool {
        let level = self.level(signals, own);
        level.saturating_add(at(&self.behind, place)) <= self.most
    }
}

/// How many gates stand one after another at most, where each node waits for all that it reads. Linear in the network.
pub fn reckoned_depth(alloc: Global, network: &Network) -> Result<u32, Memory> {
    let mut own = Vec::new(alloc);
    for node in network.nodes.items() {
        own.push(fit_of(node, Waits::ALL).levels)?;
    }
    let timing = Timing::of(alloc, network, &own, u32::MAX)?;
    Ok(timing.depth())
}
