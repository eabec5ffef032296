//! The strongly connected components of a graph.
ghost use Rattle.std.specs.Prelude.{◌≡◌, ◌+◌, ◌<◌, ◌≤◌, length, All, IfOk, OnOk, None};
ghost use Rattle.std.specs.List.{slice_index_or};
ghost use Rattle.ncl_graph.specs.Ranks.{IsWhole, work};

use crate::graph::Graph;
use ncl_base::Memory;
use std::alloc::Global;

/// A search for the components in which any two places lead to each other (Tarjan 1972). It keeps its path
/// in a list, so that it needs no recursion.
///
/// The contracts say that each place gets a number and that the search ends. That the numbers are those of
/// components no contract says: who relies on them tests them.
#[derive(Drop)]
pub(crate) struct Components {
    /// For each place that was met, how many were met before it.
    pub(crate) numbers: Vec<Option<u32>>,
    /// For each place that was met, the least number of the places without a component that it is known to
    /// lead to, itself among them.
    pub(crate) lows: Vec<u32>,
    /// For each place whose component was found, how many components were found before.
    pub(crate) ranks: Vec<Option<u32>>,
    /// For each place, how many of its successors are passed by.
    pub(crate) passed: Vec<usize>,
    /// The places at work, each of which leads to the next.
    pub(crate) path: Vec<u32>,
    /// The places that were met and have no component yet.
    pub(crate) unranked: Vec<u32>,
    /// How many places were met.
    pub(crate) met: u32,
    /// How many components were found.
    pub(crate) found: u32,
}

impl Components {
    /// A search of so many places that has met none. Linear in the places.
    fn new(alloc: Global, places: usize) -> Result<Components, Memory>
        ensures whole { IfOk result (λ s. IsWhole s) }
        ensures places { IfOk result (λ s. length s.numbers.items ≡ places) }
    {
        Ok(Components {
            numbers: vec![in alloc; None; places]?,
            lows: vec![in alloc; 0; places]?,
            ranks: vec![in alloc; None; places]?,
            passed: vec![in alloc; 0; places]?,
            path: Vec::new(alloc),
            unranked: Vec::new(alloc),
            met: 0,
            found: 0,
        })
    }

    /// Meets a place that was not met: it is put at the end of the path.
    fn meet(&mut self, place: u32) -> Result<(), Memory>
        requires whole { IsWhole self.old }
        requires inside { place < length self.old.numbers.items }
        requires unmet { slice_index_or self.old.numbers.items place None ≡ None }
        ensures whole { OnOk result (IsWhole self.new) }
        ensures places { OnOk result (length self.new.numbers.items ≡ length self.old.numbers.items) }
        ensures work { OnOk result (work self.new + 1 ≡ work self.old) }
    {
        self.path.push(place)?;
        self.unranked.push(place)?;
        self.numbers[place as usize] = Some(self.met);
        self.lows[place as usize] = self.met;
        self.met = self.met.saturating_add(1);
        Ok(())
    }

    /// Passes by the successors of a place from a number on, up to the first that was not met, and says where
    /// that is and the place's lowest number then. Linear in the successors that are passed by.
    fn pass(&self, successors: &[u32], from: usize, lowest: u32) -> (usize, u32)
        requires whole { IsWhole self.now }
        requires inside { All (λ i. i < length self.now.numbers.items) successors.now }
        ensures within { result.0 ≤ length successors.now }
        ensures unmet { result.0 < length successors.now
            → slice_index_or self.now.numbers.items (slice_index_or successors.now result.0 0) None ≡ None }
    {
        let mut low = lowest;
        for k in from..successors.len() {
            let next = successors[k] as usize;
            if self.numbers[next].is_none() {
                return (k, low);
            }
            if self.ranks[next].is_none() {
                low = low.min(self.lows[next]);
            }
        }
        (successors.len(), low)
    }

    /// Gives a component to a place and to all that were met after it and have none. Linear in these.
    fn close(&mut self, place: u32)
        requires whole { IsWhole self.old }
        ensures whole { IsWhole self.new }
        ensures numbers { self.new.numbers.items ≡ self.old.numbers.items }
        ensures path { self.new.path.items ≡ self.old.path.items }
    {
        while let Some(member) = self.unranked.pop() {
            self.ranks[member as usize] = Some(self.found);
            if member == place {
                break;
            }
        }
        self.found = self.found.saturating_add(1);
    }

    /// Goes on at a place that was taken from the end of the path. Linear in the successors that are passed
    /// by and the places that get a component.
    fn step(&mut self, graph: &Graph, place: u32) -> Result<(), Memory>
        requires whole { IsWhole self.old }
        requires places { length self.old.numbers.items ≡ length graph.now }
        requires inside { place < length graph.now }
        ensures whole { OnOk result (IsWhole self.new) }
        ensures places { OnOk result (length self.new.numbers.items ≡ length graph.now) }
        ensures work { OnOk result (work self.new ≤ work self.old) }
    {
        let at = place as usize;
        let successors = graph.successors(at);
        let (next, low) = self.pass(successors, self.passed[at], self.lows[at]);
        self.lows[at] = low;
        if next < successors.len() {
            self.passed[at] = next;
            self.path.push(place)?;
            return self.meet(successors[next]);
        }
        if self.numbers[at] == Some(low) {
            self.close(place);
        }
        Ok(())
    }

    /// Goes over a place that was not met and all that it leads to. Linear in these places and their arcs.
    fn visit(&mut self, graph: &Graph, root: u32) -> Result<(), Memory>
        requires whole { IsWhole self.old }
        requires places { length self.old.numbers.items ≡ length graph.now }
        requires inside { root < length graph.now }
        requires unmet { slice_index_or self.old.numbers.items root None ≡ None }
        ensures whole { OnOk result (IsWhole self.new) }
        ensures places { OnOk result (length self.new.numbers.items ≡ length graph.now) }
    {
        self.meet(root)?;
        while let Some(place) = self.path.pop() {
            self.step(graph, place)?;
        }
        Ok(())
    }
}

/// A number for each place: that of its component, where a component has a greater number than those that it
/// leads to. Linear in the places and arcs, without recursion.
pub(crate) fn component_numbers(alloc: Global, graph: &Graph) -> Result<Vec<u32>, Memory>
    ensures { IfOk result (λ v. length v.items ≡ length graph.now) }
{
    let mut search = Components::new(alloc, graph.len())?;
    for place in 0..graph.len() as u32 {
        if search.numbers[place as usize].is_none() {
            search.visit(graph, place)?;
        }
    }
    Ok(
        search
            .ranks
            .iter()
            .map(|rank| rank.unwrap_or(0))
            .collect(alloc)?,
    )
}
