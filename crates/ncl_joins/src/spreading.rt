//! Nodes that are joined with each node that reads them.

use crate::joiner::{Joiner, State};
use crate::timing::Timing;
use ncl_base::Memory;
use ncl_network::{Signal, SignalSource};

/// The most readers of a node that is joined with each of them.
const MOST_READERS: usize = 4;

/// Adds a node to the readers of those that it reads, by their places.
fn add_reader(readers: &mut [Vec<u32>], signals: &[Signal], place: u32) -> Result<(), Memory> {
    for signal in signals {
        if let SignalSource::Node(read) = signal.from
            && let Some(list) = readers.get_mut(read as usize)
        {
            list.push(place)?;
        }
    }
    Ok(())
}

impl<'a> Joiner<'a> {
    /// The nodes that read each node as they now are, by its place. Linear in the nodes.
    fn readers_by_place(&self) -> Result<Vec<Vec<u32>>, Memory> {
        let mut readers: Vec<Vec<u32>> = Vec::new(self.alloc);
        for (place, slot) in (0..self.count()).zip(self.slots.iter()) {
            readers.push(Vec::new(self.alloc))?;
            if slot.state != State::Gone {
                add_reader(&mut readers, slot.node.ins.items(), place)?;
            }
        }
        Ok(readers)
    }

    /// Whether a node is there and reads another.
    fn reads(&self, place: u32, inner: SignalSource) -> bool {
        match self.slots.get(place as usize) {
            Some(slot) => {
                let reads = slot
                    .node
                    .ins
                    .items()
                    .iter()
                    .any(|signal| signal.from == inner);
                reads && slot.state != State::Gone
            }
            None => false,
        }
    }

    /// Whether several nodes are all that reads a node, each of them once.
    fn only_these_read(&self, inner: SignalSource, by: &[u32]) -> bool {
        let few = by.len() >= 2 && by.len() <= MOST_READERS;
        let once = !by.windows(2).any(|two| two[0] == two[1]);
        let all = match self.readers.get(inner) {
            Some(count) => *count as usize == by.len(),
            None => false,
        };
        few && once && all && by.iter().all(|place| self.reads(*place, inner))
    }

    /// These nodes hold what they wait for.
    fn hold_all(&mut self, places: &[u32]) {
        for place in places {
            self.hold(*place);
        }
    }

    /// Joins a node with each of those that read it, if all can take it in.
    fn spread(&mut self, by: &[u32], inner: u32, timing: &mut Timing) -> Result<(), Memory> {
        if !self.join_with(by, inner, timing)? {
            self.hold_all(by);
            self.hold(inner);
            return Ok(());
        }
        for place in by {
            self.settle(*place, timing)?;
        }
        Ok(())
    }

    /// Joins nodes that several nodes read with each of these, where all can take them in. What a node read at first is looked at,
    /// not what it comes to read. Near linear in the nodes.
    pub(crate) fn spread_all(&mut self, timing: &mut Timing) -> Result<(), Memory> {
        let readers = self.readers_by_place()?;
        for (inner, by) in (0..self.count()).zip(readers.iter()) {
            if self.only_these_read(SignalSource::Node(inner), by) {
                self.spread(by, inner, timing)?;
            }
        }
        Ok(())
    }
}
