//! The laws of orders and cycles. Each function states one, and does nothing.
ghost use Rattle.std.specs.Prelude.{ℕ, ◌<◌, ◌⊎◌, List};
ghost use Rattle.ncl_graph.specs.Graph.{IsGraph, IsOnCycle, IsOrder};

/// Where the places of a graph have an order, none lies on a cycle.
pub fn order_excludes_cycles()
    ensures { (g : List (List ℕ)) (order : List ℕ) → IsOrder g order → (i : ℕ) → ¬ IsOnCycle g i }
{}

/// Where no place of a graph lies on a cycle, the places have an order.
pub fn acyclic_has_order()
    ensures { (g : List (List ℕ)) → IsGraph g → ((i : ℕ) → ¬ IsOnCycle g i) → (order : List ℕ) × IsOrder g order }
{}

/// No place of a graph lies on a cycle, or one is the first that does.
pub fn first_or_none()
    ensures { (g : List (List ℕ)) → ((i : ℕ) → ¬ IsOnCycle g i) ⊎ ((i : ℕ) × IsOnCycle g i × ((j : ℕ) → j < i → ¬ IsOnCycle g j)) }
{}
