//! The laws of beads. Each function states one, and does nothing.
ghost use Rattle.std.specs.Prelude.{◌≡◌, ◌≤◌, ◌+◌, ℕ, Bool, true, List, map};
ghost use Rattle.std.specs.List.{AllByRecursion};
ghost use Rattle.ncl_space.specs.Beads.{bead_count};
ghost use Rattle.ncl_space.specs.Bounds.{IsMarked, LooksAt, Marked, is_free, weights, width_of};
ghost use Rattle.ncl_space.specs.Table.{table_of, words};

/// Tables of n bits that depend on few of the first n - 3 have few beads: those of at least four bits are no more than the
/// weights, and there are 276 tables of one, two and three bits.
pub fn few_bits_few_beads()
    ensures { (n : ℕ) (xs : List Marked) → AllByRecursion (IsMarked n) xs → bead_count n (map (λ (x : Marked). x.table) xs) ≤ weights xs + 276 }
{}

/// The table of a function that looks at some of the first n - 3 bits alone is free of the others.
pub fn looks_at_few()
    ensures { (marks : List Bool) (f : List Bool → Bool) → LooksAt marks f → is_free marks (table_of (words (width_of marks)) f) ≡ true }
{}
