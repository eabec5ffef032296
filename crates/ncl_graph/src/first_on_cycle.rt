//! The first place on a cycle.
ghost use Rattle.std.specs.Prelude.{◌≡◌, ℕ, ◌<◌, ◌↔◌, length, IsTrue, IfOk, MatchOption};
ghost use Rattle.ncl_graph.specs.Graph.{IsOnCycle};
ghost use Rattle.ncl_graph.specs.Ranks.{NeverRises};

use crate::graph::Graph;
use crate::ranks::{all_below, falling_ranks};
use crate::reach::leads_to_itself;
use ncl_base::Memory;
use std::alloc::Global;

/// Whether a place lies on a cycle, by ranks that never rise along an arc. Linear in the place's arcs where
/// all its successors have lower ranks, or else in all places and arcs.
fn is_on_cycle(alloc: Global, graph: &Graph, ranks: &[u32], place: u32) -> Result<bool, Memory>
    requires ranks { length ranks.now ≡ length graph.now }
    requires falls { NeverRises graph.now ranks.now }
    requires inside { place < length graph.now }
    ensures { IfOk result (λ on. IsTrue on ↔ IsOnCycle graph.now place) }
{
    let at = place as usize;
    if all_below(graph.successors(at), ranks, ranks[at]) {
        return Ok(false);
    }
    leads_to_itself(alloc, graph, place)
}

/// The first place that lies on a cycle, or `None` where no place does.
///
/// A place is walked from only where an arc of it stays on its own rank. Where the ranks are those of strongly
/// connected components, the first such place lies on a cycle, and one walk is enough: tests show this, and no
/// clause says it.
fn first_by_ranks(alloc: Global, graph: &Graph) -> Result<Option<u32>, Memory>
    ensures { IfOk result (λ o. MatchOption o ((i : ℕ) → ¬ IsOnCycle graph.now i)
        (λ i. IsOnCycle graph.now i × ((j : ℕ) → j < i → ¬ IsOnCycle graph.now j))) }
{
    let ranks = falling_ranks(alloc, graph)?;
    for place in 0..graph.len() as u32 {
        if is_on_cycle(alloc, graph, ranks.as_slice(), place)? {
            return Ok(Some(place));
        }
    }
    Ok(None)
}

impl Graph {
    /// The first place that lies on a cycle, or `None` where no place does.
    ///
    /// Where the places have an order, linear in the places and arcs. Where they have none, the strongly connected
    /// components are looked for, and a walk from one place follows, each linear too. Nothing recurses on the
    /// number of places.
    pub fn first_on_cycle(&self, alloc: Global) -> Result<Option<u32>, Memory>
        ensures { IfOk result (λ o. MatchOption o ((i : ℕ) → ¬ IsOnCycle self.now i)
            (λ i. IsOnCycle self.now i × ((j : ℕ) → j < i → ¬ IsOnCycle self.now j))) }
    {
        let order = self.order(alloc)?;
        if let Some(_) = order {
            return Ok(None);
        }
        first_by_ranks(alloc, self)
    }
}
