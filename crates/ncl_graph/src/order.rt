//! An order in which each place stands after those that it leads to.
ghost use Rattle.std.specs.Prelude.{ℕ, IfOk, MatchOption};
ghost use Rattle.ncl_graph.specs.Graph.{IsOnCycle, IsOrder};

use crate::graph::Graph;
use crate::mark::Mark;
use crate::search::Search;
use ncl_base::Memory;
use std::alloc::Global;

impl Graph {
    /// An order in which each place stands once, after those that it leads to, or `None` where some place
    /// lies on a cycle. Linear in the places and arcs, without recursion.
    pub fn order(&self, alloc: Global) -> Result<Option<Vec<u32>>, Memory>
        ensures { IfOk result (λ o. MatchOption o ((i : ℕ) × IsOnCycle self.now i) (λ v. IsOrder self.now v.items)) }
    {
        let places = self.len();
        let mut search = Search::new(alloc, places)?;
        for place in 0..places as u32 {
            if let Mark::New = search.marks[place as usize]
                && !search.visit(self, place)?
            {
                return Ok(None);
            }
        }
        Ok(Some(search.order))
    }
}
