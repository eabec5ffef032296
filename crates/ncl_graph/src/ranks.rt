//! Ranks of places that never rise along an arc.
ghost use Rattle.std.specs.Prelude.{◌≡◌, ◌<◌, ◌≤◌, ◌↔◌, length, All, IsTrue, IfOk};
ghost use Rattle.ncl_graph.specs.Ranks.{NeverRises, rank_of};

use crate::components::component_numbers;
use crate::graph::Graph;
use ncl_base::Memory;
use std::alloc::Global;

/// Whether each place of a list has a rank of at most `limit`. Linear in the list.
fn all_within(places: &[u32], ranks: &[u32], limit: u32) -> bool
    requires { All (λ i. i < length ranks.now) places.now }
    ensures { IsTrue result ↔ All (λ i. rank_of ranks.now i ≤ limit) places.now }
{
    places.iter().all(|place| ranks[*place as usize] <= limit)
}

/// Whether each place of a list has a rank below `limit`. Linear in the list.
pub(crate) fn all_below(places: &[u32], ranks: &[u32], limit: u32) -> bool
    requires { All (λ i. i < length ranks.now) places.now }
    ensures { IsTrue result ↔ All (λ i. rank_of ranks.now i < limit) places.now }
{
    places.iter().all(|place| ranks[*place as usize] < limit)
}

/// Whether no arc leads to a higher rank. Linear in the places and arcs.
fn never_rises(graph: &Graph, ranks: &[u32]) -> bool
    requires { length ranks.now ≡ length graph.now }
    ensures { IsTrue result → NeverRises graph.now ranks.now }
{
    for place in 0..graph.len() {
        if !all_within(graph.successors(place), ranks, ranks[place]) {
            return false;
        }
    }
    true
}

/// A rank for each place that never rises along an arc, and falls along each arc that lies on no cycle.
/// Linear in the places and arcs.
pub(crate) fn falling_ranks(alloc: Global, graph: &Graph) -> Result<Vec<u32>, Memory>
    ensures len { IfOk result (λ v. length v.items ≡ length graph.now) }
    ensures falls { IfOk result (λ v. NeverRises graph.now v.items) }
{
    let ranks = component_numbers(alloc, graph)?;
    if never_rises(graph, ranks.as_slice()) {
        return Ok(ranks);
    }
    Ok(vec![in alloc; 0; graph.len()]?)
}
