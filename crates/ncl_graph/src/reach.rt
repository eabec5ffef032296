//! Which places a place leads to.
ghost use Rattle.std.specs.Prelude.{◌≡◌, ℕ, ◌<◌, ◌∷◌, [], ◌↔◌, length, IsTrue, IfOk, OnOk};
ghost use Rattle.ncl_graph.specs.Graph.{IsOnCycle, Leads, successors};
ghost use Rattle.ncl_graph.specs.Reach.{ReachedAll, was_reached};

use crate::graph::Graph;
use ncl_base::Memory;
use std::alloc::Global;

/// A walk along arcs.
#[derive(Drop)]
struct Reach {
    /// For each place, whether it was reached.
    reached: Vec<bool>,
    /// The places that were reached and whose successors were not looked at.
    waiting: Vec<u32>,
}

impl Reach {
    /// Reaches a place, which then waits where it was not reached before.
    fn reach(&mut self, place: u32) -> Result<(), Memory>
        requires { place < length self.old.reached.items }
        ensures { OnOk result (ReachedAll (place ∷ []) self.old self.new) }
    {
        if !self.reached[place as usize] {
            self.waiting.push(place)?;
            self.reached[place as usize] = true;
        }
        Ok(())
    }

    /// Reaches the successors of a place. Linear in these.
    fn expand(&mut self, graph: &Graph, place: u32) -> Result<(), Memory>
        requires inside { place < length graph.now }
        requires sized { length self.old.reached.items ≡ length graph.now }
        ensures { OnOk result (ReachedAll (successors graph.now place) self.old self.new) }
    {
        for next in graph.successors(place as usize) {
            self.reach(*next)?;
        }
        Ok(())
    }
}

/// For each place, whether a place leads to it. Linear in the places and arcs.
fn reached_from(alloc: Global, graph: &Graph, start: u32) -> Result<Vec<bool>, Memory>
    requires { start < length graph.now }
    ensures len { IfOk result (λ v. length v.items ≡ length graph.now) }
    ensures exactly { IfOk result (λ v. (i : ℕ) → IsTrue (was_reached v.items i) ↔ Leads graph.now start i) }
{
    let mut walk = Reach {
        reached: vec![in alloc; false; graph.len()]?,
        waiting: Vec::new(alloc),
    };
    walk.expand(graph, start)?;
    while let Some(place) = walk.waiting.pop() {
        walk.expand(graph, place)?;
    }
    Ok(walk.reached)
}

/// Whether a place leads back to itself. Linear in the places and arcs.
pub(crate) fn leads_to_itself(alloc: Global, graph: &Graph, place: u32) -> Result<bool, Memory>
    requires { place < length graph.now }
    ensures { IfOk result (λ back. IsTrue back ↔ IsOnCycle graph.now place) }
{
    let reached = reached_from(alloc, graph, place)?;
    Ok(reached[place as usize])
}
