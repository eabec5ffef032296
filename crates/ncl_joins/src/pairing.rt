//! Nodes that are joined with those that they read, where the gates of both become two.

use crate::joiner::{Joiner, Joins};
use crate::summing::Sum;
use crate::timing::Timing;
use ncl_base::Memory;
use ncl_network::Network;
use ncl_plans::may_relax;
use std::alloc::Global;

/// The most nodes of a network whose nodes are joined.
const MOST_NODES: usize = 8_192;

impl<'a> Joiner<'a> {
    /// Joins a node with one that only it reads, if the table has gates of both, and tells whether it does.
    fn join(&mut self, place: u32, inner: u32, timing: &Timing) -> Result<bool, Memory> {
        if self.sources(place, inner).is_none() {
            return Ok(false);
        }
        let joins = self.join_with(&[place], inner, timing)?;
        if !joins {
            self.hold(inner);
            self.hold(place);
        }
        Ok(joins)
    }

    /// Joins a node with the first that it can be joined with, and tells whether there is one.
    fn join_one(&mut self, place: u32, timing: &Timing) -> Result<bool, Memory> {
        for at in 0..4usize {
            if let Some(inner) = self.only_read(place, at)
                && self.join(place, inner, timing)?
            {
                return Ok(true);
            }
        }
        Ok(false)
    }

    /// Joins a node with those that it can be joined with, one after another.
    fn join_at(&mut self, place: u32, timing: &Timing) -> Result<(), Memory> {
        for _ in 0..4u32 {
            if !self.join_one(place, timing)? {
                return Ok(());
            }
        }
        Ok(())
    }

    /// Joins all nodes that can be.
    fn join_all(&mut self, timing: &mut Timing) -> Result<(), Memory> {
        for place in 0..self.count() {
            self.join_at(place, timing)?;
            self.settle(place, timing)?;
        }
        Ok(())
    }

    /// Joins all nodes that can be where nodes wait for less: sums with carries before others, and those of two inputs take what
    /// they wait for last.
    fn relax_and_join(&mut self, sums: Vec<Sum>, most: u32) -> Result<(), Memory> {
        self.relax(3, 4)?;
        let mut timing = self.timing(most)?;
        self.add_sums(sums);
        self.join_all(&mut timing)?;
        self.spread_all(&mut timing)?;
        self.relax(2, 2)
    }
}

/// Nodes of a network that are joined with nodes that only they read, where the table has two gates for both and
/// something else waits for what these don't, or where both are the sum beside a carry; and what each node that is left then
/// waits for. No more gates than one number then stand one after another, as is reckoned, but for sums beside carries, for which there
/// is another number. Nothing where none is joined. Where nodes may not wait for less, sums and their carries alone do. Near linear in
/// the network. The only error is want of memory.
pub fn joins_of(
    alloc: Global,
    network: &Network,
    most_of_sums: u32,
    most: u32,
) -> Result<Option<Joins>, Memory> {
    let relax = may_relax(network) && network.nodes.items().len() <= MOST_NODES;
    let mut joiner = Joiner::new(alloc, network, relax)?;
    let sums = joiner.sums(most_of_sums)?;
    if relax {
        joiner.relax_and_join(sums, most)?;
    } else {
        joiner.add_sums(sums);
    }
    if joiner.joins == 0 {
        return Ok(None);
    }
    Ok(Some(joiner.joins()?))
}
