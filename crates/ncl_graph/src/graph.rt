//! Directed graphs.
ghost use Rattle.std.specs.Prelude.{◌≡◌, ◌<◌, ◌==◌, length};
ghost use Rattle.ncl_graph.specs.Graph.{IsGraph, successors};

use ncl_base::Items;
use std::marker::Model;

/// A directed graph on the places 0, 1, 2 .., which contracts see as the list of each place's successors.
#[derive(Clone, Drop, Debug)]
pub struct Graph {
    successors_of: Items<Items<u32>>,
}

impl Model for Graph {
    ghost use Rattle.std.specs.Prelude.{List, ℕ};
    ghost use Rattle.ncl_graph.specs.Graph.{IsGraph};

    ghost Value = { List (List ℕ) };

    ghost view = { λ a. a.successors_of };

    ghost invariant = { λ a. IsGraph a.successors_of };
}

impl Graph {
    /// The graph in which each place leads to the places of its list. Takes no memory.
    pub fn new(successors_of: Items<Items<u32>>) -> Graph
        requires { IsGraph successors_of }
        ensures { result ≡ successors_of }
    {
        Graph { successors_of }
    }

    /// How many places the graph has.
    pub fn len(&self) -> usize
        ensures len { result ≡ length self.now }
        ensures graph { IsGraph self.now }
    {
        self.successors_of.items().len()
    }

    /// Whether the graph has no place.
    pub fn is_empty(&self) -> bool
        ensures { result ≡ (length self.now == 0) }
    {
        self.successors_of.items().is_empty()
    }

    /// The places that a place leads to by one arc.
    pub fn successors(&self, place: usize) -> &[u32]
        requires { place < length self.now }
        ensures successors { result.now ≡ successors self.now place }
        ensures graph { IsGraph self.now }
    {
        self.successors_of.items()[place].items()
    }
}
