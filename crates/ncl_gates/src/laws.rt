//! The laws of the gates. Each function states one for all gates, and does nothing.
ghost use Rattle.std.specs.Prelude.{◌≡◌, ◌≤◌, ℕ, List, [], ◌∷◌, ◌++◌, Bool, true, false, length, codes, All, IsTrue};
ghost use Rattle.std.specs.List.{IsDistinct};
ghost use Rattle.std.specs.Str.{bytes_eq};
ghost use Rattle.ncl_gates.specs.declared.kind.Kind.{Kind};
ghost use Rattle.ncl_gates.specs.declared.kind.Kind.TheVariants.{Th12, Th22, Th13, Th33, Th14, Th44};
ghost use Rattle.ncl_gates.specs.declared.cell_kind.CellKind.{CellKind};
ghost use Rattle.ncl_gates.specs.Cell.{pins_of};
ghost use Rattle.ncl_gates.specs.Gate.{arity_of, set_of, some_high};
ghost use Rattle.ncl_gates.specs.Dual.{IsDual};
ghost use Rattle.ncl_gates.specs.GateLaw.{
  HasHysteresis,
  HasProducts,
  IsConjunction,
  IsDisjunction,
  IsMonotone,
  all_high,
};
ghost use Rattle.ncl_gates.specs.Name.{cell_name_of, is_capital_word, name_of};

/// Raising inputs never lowers a set function.
pub fn monotone()
    ensures { (kind : Kind) → IsMonotone (set_of kind) }
{}

/// A set function is 0 where all inputs are 0, and 1 where all inputs are 1.
pub fn extremes()
    ensures low { (kind : Kind) (ins : List Bool) →
        some_high ins ≡ false → set_of kind ins ≡ false }
    ensures high { (kind : Kind) (ins : List Bool) → length ins ≡ arity_of kind →
        all_high ins ≡ true → set_of kind ins ≡ true }
{}

/// A gate rises where its set function holds, falls where all inputs are 0, and else keeps its value.
pub fn hysteresis()
    ensures { (kind : Kind) → HasHysteresis kind }
{}

/// TH22, TH33 and TH44 are the conjunctions of their inputs.
pub fn conjunctions()
    ensures two { IsConjunction Th22 }
    ensures three { IsConjunction Th33 }
    ensures four { IsConjunction Th44 }
{}

/// TH12, TH13 and TH14 are the disjunctions of their inputs.
pub fn disjunctions()
    ensures two { IsDisjunction Th12 }
    ensures three { IsDisjunction Th13 }
    ensures four { IsDisjunction Th14 }
{}

/// Two gates with one name are one gate, and two cells with one name are one cell.
pub fn names()
    ensures gates { (kind other : Kind) → name_of kind ≡ name_of other → kind ≡ other }
    ensures cells { (cell other : CellKind) → cell_name_of cell ≡ cell_name_of other → cell ≡ other }
{}

/// The names of cells and of their pins begin with a capital letter, and have letters and digits alone.
pub fn capital_words()
    ensures cells { (cell : CellKind) → IsTrue (is_capital_word (cell_name_of cell)) }
    ensures pins { (cell : CellKind) → All (λ pin. IsTrue (is_capital_word pin)) (pins_of cell) }
{}

/// A cell has three to five pins, no two of one name, and the last of them is `Z`.
pub fn pins()
    ensures some { (cell : CellKind) → 3 ≤ length (pins_of cell) }
    ensures few { (cell : CellKind) → length (pins_of cell) ≤ 5 }
    ensures differ { (cell : CellKind) → IsDistinct bytes_eq (pins_of cell) }
    ensures last { (cell : CellKind) →
        (inputs : List (List ℕ)) × (pins_of cell ≡ inputs ++ codes "Z" ∷ []) }
{}

/// Each set function is a sum of at least one product, and each product has pins, all of them the
/// gate's.
pub fn products()
    ensures { (kind : Kind) → HasProducts kind }
{}

/// Each gate has a dual among the gates, which makes the complement from the complements.
pub fn duals()
    ensures { (kind : Kind) → IsDual kind }
{}
