//! A depth-first search, which puts each place into an order after those that it leads to.
ghost use Rattle.std.specs.Prelude.{◌≡◌, ◌≢◌, ℕ, ◌<◌, ◌≤◌, [], ◌∷◌, ◌++◌, length, replicate, slice_set, IfOk, OnOk, All};
ghost use Rattle.std.specs.Bool.{OnTrue, OnFalse};
ghost use Rattle.std.specs.List.{slice_index_or};
ghost use Rattle.ncl_graph.specs.Graph.{IsOnCycle};
ghost use Rattle.ncl_graph.specs.Search.{Stands, StandsAt, StaysMet, mark_at, work};

use crate::graph::Graph;
use crate::mark::Mark;
use ncl_base::Memory;
use std::alloc::Global;

/// The state of a depth-first search.
#[derive(Drop)]
pub(crate) struct Search {
    /// How far the search has come at each place.
    pub(crate) marks: Vec<Mark>,
    /// For each place, how many of its successors are passed by.
    pub(crate) passed: Vec<usize>,
    /// The open places, each of which leads to the next.
    pub(crate) path: Vec<u32>,
    /// The places that are done, each after those that it leads to.
    pub(crate) order: Vec<u32>,
}

/// The first successor, from the one at `from` on, that is not done, or else their number. Linear in the
/// successors that are passed by.
fn first_undone(successors: &[u32], marks: &[Mark], from: usize) -> usize
    requires { All (λ j. j < length marks.now) successors.now }
    ensures within { result ≤ length successors.now }
    ensures done { (k : ℕ) → from ≤ k → k < result
        → mark_at marks.now (slice_index_or successors.now k 0) ≡ Mark.Done }
    ensures undone { result < length successors.now
        → mark_at marks.now (slice_index_or successors.now result 0) ≢ Mark.Done }
{
    for k in from..successors.len() {
        match marks[successors[k] as usize] {
            Mark::Done => {}
            _ => return k,
        }
    }
    successors.len()
}

impl Search {
    /// A search of a graph with so many places that has met none of them. Linear in the places.
    pub(crate) fn new(alloc: Global, places: usize) -> Result<Search, Memory>
        ensures marks { IfOk result (λ s. s.marks.items ≡ replicate places Mark.New) }
        ensures passed { IfOk result (λ s. s.passed.items ≡ replicate places 0) }
        ensures path { IfOk result (λ s. s.path.items ≡ []) }
        ensures order { IfOk result (λ s. s.order.items ≡ []) }
    {
        Ok(Search {
            marks: vec![in alloc; Mark::New; places]?,
            passed: vec![in alloc; 0; places]?,
            path: Vec::new(alloc),
            order: Vec::new(alloc),
        })
    }

    /// Puts a place that is new at the end of the path.
    fn open(&mut self, place: u32) -> Result<(), Memory>
        requires { place < length self.old.marks.items }
        ensures marks { OnOk result (self.new.marks.items ≡ slice_set self.old.marks.items place Mark.Open) }
        ensures passed { OnOk result (self.new.passed.items ≡ self.old.passed.items) }
        ensures path { OnOk result (self.new.path.items ≡ self.old.path.items ++ place ∷ []) }
        ensures order { OnOk result (self.new.order.items ≡ self.old.order.items) }
    {
        self.path.push(place)?;
        self.marks[place as usize] = Mark::Open;
        Ok(())
    }

    /// Puts a place that was taken from the path into the order.
    fn close(&mut self, place: u32) -> Result<(), Memory>
        requires { place < length self.old.marks.items }
        ensures marks { OnOk result (self.new.marks.items ≡ slice_set self.old.marks.items place Mark.Done) }
        ensures passed { OnOk result (self.new.passed.items ≡ self.old.passed.items) }
        ensures path { OnOk result (self.new.path.items ≡ self.old.path.items) }
        ensures order { OnOk result (self.new.order.items ≡ self.old.order.items ++ place ∷ []) }
    {
        self.order.push(place)?;
        self.marks[place as usize] = Mark::Done;
        Ok(())
    }

    /// Goes on at a place that was taken from the end of the path, and says whether no cycle was met. Linear
    /// in the successors that are passed by.
    fn step(&mut self, graph: &Graph, place: u32) -> Result<bool, Memory>
        requires { StandsAt graph.now self.old place }
        ensures search { IfOk result (λ fine. OnTrue fine (Stands graph.now self.new)) }
        ensures met { IfOk result (λ fine. OnTrue fine (StaysMet self.old.marks.items self.new.marks.items)) }
        ensures nearer { IfOk result (λ fine. OnTrue fine (work self.new ≤ work self.old)) }
        ensures cycle { IfOk result (λ fine. OnFalse fine ((i : ℕ) × IsOnCycle graph.now i)) }
    {
        let successors = graph.successors(place as usize);
        let next = first_undone(
            successors,
            self.marks.as_slice(),
            self.passed[place as usize],
        );
        if next == successors.len() {
            self.close(place)?;
            return Ok(true);
        }
        let child = successors[next];
        if let Mark::Open = self.marks[child as usize] {
            return Ok(false);
        }
        self.passed[place as usize] = next;
        self.path.push(place)?;
        self.open(child)?;
        Ok(true)
    }

    /// Goes over a place that is new and all that it leads to, and says whether no cycle was met. Linear in
    /// these places and their arcs.
    pub(crate) fn visit(&mut self, graph: &Graph, root: u32) -> Result<bool, Memory>
        requires search { Stands graph.now self.old }
        requires idle { self.old.path.items ≡ [] }
        requires inside { root < length graph.now }
        requires fresh { mark_at self.old.marks.items root ≡ Mark.New }
        ensures search { IfOk result (λ fine. OnTrue fine (Stands graph.now self.new)) }
        ensures idle { IfOk result (λ fine. OnTrue fine (self.new.path.items ≡ [])) }
        ensures met { IfOk result (λ fine. OnTrue fine (StaysMet self.old.marks.items self.new.marks.items)) }
        ensures root { IfOk result (λ fine. OnTrue fine (mark_at self.new.marks.items root ≢ Mark.New)) }
        ensures cycle { IfOk result (λ fine. OnFalse fine ((i : ℕ) × IsOnCycle graph.now i)) }
    {
        self.open(root)?;
        while let Some(place) = self.path.pop() {
            if !self.step(graph, place)? {
                return Ok(false);
            }
        }
        Ok(true)
    }
}
