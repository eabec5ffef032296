//! Sums beside the carries of their bits: the two nodes of a full adder.

use crate::joiner::{Joiner, Pair};
use crate::joint::{Sources, node_of};
use crate::timing::Timing;
use ncl_base::Memory;
use ncl_decomp::table::inverted;
use ncl_network::{Network, Signal, SignalSource};
use ncl_plans::{Leaves, table_over};
use ncl_template::{Waits, fit_of, waits_with_last};
use std::alloc::Global;
use std::collections::BTreeMap;

/// The tables of a full adder over the first three of four inputs: those of its carry and of its sum, and that of the sum where the
/// fourth input is the carry.
#[derive(Clone, Copy)]
struct Adder {
    carry: u16,
    sum: u16,
    beside: u16,
}

/// The sum beside the carry: without a carry one of the inputs is 1, and with it all are.
const ADDER: Adder = Adder {
    carry: 0xE8E8,
    sum: 0x9696,
    beside: 0x80FE,
};

impl Adder {
    /// The adder with some of its three inputs inverted: those whose bits are in a mask.
    fn with_inverted(mask: u8) -> Adder {
        let mut adder = ADDER;
        for k in 0..3usize {
            if mask & [1u8, 2, 4][k] != 0 {
                adder.carry = inverted(adder.carry, k);
                adder.sum = inverted(adder.sum, k);
                adder.beside = inverted(adder.beside, k);
            }
        }
        adder
    }

    /// The table of a sum beside a carry, where these are its sum or the inverse of that, and its carry.
    fn beside(&self, sum: u16, carry: u16) -> Option<u16> {
        if carry != self.carry {
            None
        } else if sum == self.sum {
            Some(self.beside)
        } else if sum == !self.sum {
            Some(!self.beside)
        } else {
            None
        }
    }
}

/// The table of a sum over three inputs and a carry, where these are of a full adder some of whose inputs are inverted.
fn table_beside(sum: u16, carry: u16) -> Option<u16> {
    for mask in 0..8u8 {
        let found = Adder::with_inverted(mask).beside(sum, carry);
        if found.is_some() {
            return found;
        }
    }
    None
}

/// Three inputs and nodes, by their places among all of these, in order.
type Triple = (u64, u64, u64);

/// The place of a source among the inputs and the nodes after them.
fn place_of(network: &Network, from: SignalSource) -> Option<u64> {
    match from {
        SignalSource::Input(input) => Some(u64::from(input)),
        SignalSource::Node(node) => Some(u64::from(network.inputs) + u64::from(node)),
        SignalSource::Const(_) => None,
    }
}

/// Three sources in order.
fn triple_of(network: &Network, sources: &Sources) -> Option<Triple> {
    if sources.count != 3 {
        return None;
    }
    let a = place_of(network, sources.at[0])?;
    let b = place_of(network, sources.at[1])?;
    let c = place_of(network, sources.at[2])?;
    let low = a.min(b);
    let high = a.max(b);
    Some((low.min(c), low.max(high.min(c)), high.max(c)))
}

/// The nodes of three inputs, by what they read: the first where several read the same.
fn nodes_of_three(alloc: Global, network: &Network) -> Result<BTreeMap<Triple, u32>, Memory> {
    let mut nodes = BTreeMap::new(alloc);
    for (place, node) in network.nodes.items().iter().enumerate() {
        let mut sources = Sources::new();
        if node.ins.items().len() != 3
            || !sources.add_all(node.ins.items(), SignalSource::Const(false))
        {
            continue;
        }
        let (Some(triple), Ok(number)) = (triple_of(network, &sources), u32::try_from(place)) else {
            continue;
        };
        if !nodes.contains_key(&triple) {
            nodes.insert(triple, number)?;
        }
    }
    Ok(nodes)
}

/// The first three of four inputs.
const FIRST_THREE: Waits = Waits {
    fourth: 0,
    ..Waits::ALL
};

/// A sum that can be made beside a carry.
#[derive(Drop)]
pub(crate) struct Sum {
    /// The node of two inputs that computes it.
    pub place: u32,
    /// The node that only this one reads.
    pub inner: u32,
    /// The carry of the same three sources.
    pub carry: u32,
    /// What computes the same of the three sources over these and the carry.
    pub pair: Pair,
}

/// The nodes of a network, those of three inputs by what they read, and how many gates stand one after another.
#[derive(Drop)]
struct Finder<'a> {
    joiner: &'a Joiner<'a>,
    carries: BTreeMap<Triple, u32>,
    timing: Timing,
}

impl<'a> Finder<'a> {
    /// The node that reads three sources, if it comes in time for a node that reads it.
    fn carry(&self, place: u32, sources: &Sources) -> Option<u32> {
        let triple = triple_of(self.joiner.network, sources)?;
        let carry = self.carries.get(&triple).copied()?;
        let in_time = self.timing.is_in_time(place as usize, &[carried(carry)], 1);
        in_time.then_some(carry)
    }

    /// The table of a node over three sources and a carry, if these are the sum and the carry of an adder.
    fn table(&self, place: u32, carry: u32, leaves: Leaves) -> Result<Option<u16>, Memory> {
        let Joiner { alloc, network, .. } = *self.joiner;
        let own = table_over(alloc, network, place, leaves)?;
        let other = table_over(alloc, network, carry, leaves)?;
        Ok(match (own, other) {
            (Some(own), Some(other)) => table_beside(own, other),
            _ => None,
        })
    }

    /// The sum that a node is with one that it reads, if there is a carry of what both read.
    fn sum(&self, place: u32, inner: u32, sources: Sources) -> Result<Option<Sum>, Memory> {
        let Some(carry) = self.carry(place, &sources) else {
            return Ok(None);
        };
        let leaves = sources.leaves();
        let Some(table) = self.table(place, carry, leaves)? else {
            return Ok(None);
        };
        let mut sources = sources;
        if !sources.add(SignalSource::Node(carry)) {
            return Ok(None);
        }
        let pair = Pair {
            node: node_of(self.joiner.alloc, &sources, table)?,
            waits: FIRST_THREE,
            leaves,
        };
        Ok(Some(Sum {
            place,
            inner,
            carry,
            pair,
        }))
    }

    /// The sum that a node is with one that it reads at one of its inputs, and that nothing else reads.
    fn sum_through(&self, place: u32, at: usize) -> Result<Option<Sum>, Memory> {
        let Some(inner) = self.joiner.only_read(place, at) else {
            return Ok(None);
        };
        match self.joiner.sources(place, inner) {
            Some(sources) => self.sum(place, inner, sources),
            None => Ok(None),
        }
    }

    /// The sum that a node is with one of the first two that it reads.
    fn sum_at(&self, place: u32) -> Result<Option<Sum>, Memory> {
        let first = self.sum_through(place, 0)?;
        if first.is_some() {
            return Ok(first);
        }
        self.sum_through(place, 1)
    }
}

/// The signal of a carry.
fn carried(carry: u32) -> Signal {
    Signal {
        from: SignalSource::Node(carry),
        inverted: false,
    }
}

/// Whether sums of a network can be made beside carries, such that no more than so many gates stand one after another. Near linear in
/// the network. The only error is want of memory.
pub fn has_sums(alloc: Global, network: &Network, most: u32) -> Result<bool, Memory> {
    let joiner = Joiner::new(alloc, network, false)?;
    let sums = joiner.sums(most)?;
    Ok(!sums.is_empty())
}

impl<'a> Joiner<'a> {
    /// The sums of the network, as it was, that can be made beside carries, such that no more than so many gates stand one after
    /// another: parities of three sources, of two nodes of which one reads the other and nothing else does, where another node is a
    /// majority of the same three. Near linear in the network.
    pub(crate) fn sums(&self, most: u32) -> Result<Vec<Sum>, Memory> {
        let own = vec![in self.alloc; 1u32; self.slots.len()]?;
        let mut finder = Finder {
            joiner: self,
            carries: nodes_of_three(self.alloc, self.network)?,
            timing: Timing::of(self.alloc, self.network, &own, most)?,
        };
        let mut sums = Vec::new(self.alloc);
        for (place, node) in (0..self.count()).zip(self.network.nodes.items()) {
            match finder.sum_at(place)? {
                Some(sum) => {
                    finder
                        .timing
                        .settle(place as usize, sum.pair.node.ins.items(), 1);
                    sums.push(sum)?;
                }
                None => finder.timing.settle(place as usize, node.ins.items(), 1),
            }
        }
        Ok(sums)
    }

    /// Makes a sum beside its carry, where both are as they were, the carry stands first, something else holds it, and the
    /// gates of both wait for all three sources. The carry then waits for nothing that it need not.
    fn add_sum(&mut self, sum: Sum) {
        let Some(eager) = self.eager(&sum) else {
            return;
        };
        self.release(sum.place);
        self.release(sum.inner);
        self.release(sum.carry);
        if let Some(slot) = self.slots.get_mut(sum.carry as usize) {
            slot.waits = eager;
        }
        self.put(sum.place, sum.pair);
        self.drop_node(sum.inner);
        self.hold(sum.carry);
        self.hold(sum.place);
    }

    /// What the carry of a sum waits for, if the sum can be made beside it.
    fn eager(&self, sum: &Sum) -> Option<Waits> {
        self.kept(sum.place)?;
        self.kept(sum.inner)?;
        let carry = self.kept(sum.carry)?;
        let held = self.holding.is_held(SignalSource::Node(sum.carry));
        let eager = fit_of(&carry.node, Waits::NONE).waits;
        let can = held
            && sum.carry < sum.place
            && waits_with_last(&sum.pair.node, &carry.node, eager);
        can.then_some(eager)
    }

    /// Makes all sums beside their carries that can be.
    pub(crate) fn add_sums(&mut self, sums: Vec<Sum>) {
        for sum in sums {
            self.add_sum(sum);
        }
    }
}
