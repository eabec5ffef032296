//! What is kept for each input and each node of a network.

use ncl_base::Memory;
use ncl_network::{Network, SignalSource};
use std::alloc::Global;

/// What is kept for each input and each node of a network.
#[derive(Drop)]
pub struct BySource<T> {
    /// For each input, by its number.
    pub inputs: Vec<T>,
    /// For each node, by its place.
    pub nodes: Vec<T>,
}

impl<T: Copy> BySource<T> {
    /// Nothing, and no place for it. Takes no memory.
    pub(crate) fn none(alloc: Global) -> Self {
        BySource {
            inputs: Vec::new(alloc),
            nodes: Vec::new(alloc),
        }
    }

    /// The same for each. Linear in the network.
    pub fn all(alloc: Global, network: &Network, each: T) -> Result<Self, Memory> {
        Ok(BySource {
            inputs: vec![in alloc; each; network.inputs as usize]?,
            nodes: vec![in alloc; each; network.nodes.items().len()]?,
        })
    }

    /// What is kept for a source, if it has a place.
    pub(crate) fn get(&self, source: SignalSource) -> Option<&T> {
        match source {
            SignalSource::Input(i) => self.inputs.get(i as usize),
            SignalSource::Node(k) => self.nodes.get(k as usize),
            SignalSource::Const(_) => None,
        }
    }

    /// The same, to be changed.
    pub fn get_mut(&mut self, source: SignalSource) -> Option<&mut T> {
        match source {
            SignalSource::Input(i) => self.inputs.get_mut(i as usize),
            SignalSource::Node(k) => self.nodes.get_mut(k as usize),
            SignalSource::Const(_) => None,
        }
    }
}
