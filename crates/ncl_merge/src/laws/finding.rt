//! That a search finds each fold: by the nets on which two cells depend, and by counts of pins.
ghost use Rattle.std.specs.Prelude.{◌≡◌, ◌≤◌, ◌++◌, ◌∷◌, sum_by, ℕ, Bool, true, List, Contains, slice_get, Some};
ghost use Rattle.ncl_gates.specs.declared.kind.Kind.{Kind};
ghost use Rattle.ncl_netlist.specs.declared.ids.NetId.{NetId};
ghost use Rattle.ncl_netlist.specs.Netlist.{NetlistData, IsNetlist};
ghost use Rattle.ncl_cell_rules.specs.Tables.{IsTable};
ghost use Rattle.ncl_shape.specs.declared.bank.Bank.{Bank};
ghost use Rattle.ncl_shape.specs.declared.stage.StageCell.{StageCell};
ghost use Rattle.ncl_shape.specs.Stage.{StageData};
ghost use Rattle.ncl_shape.specs.Shape.{IsStageOf, IsBankOf};
ghost use Rattle.ncl_merge.specs.Fold.{IsFold, IsFoldOf, FoldsTo, IsFoldable, pins_of, one_at, pins_sum, IsOnOnePin, with_cells, AreThrough, AreNeeded, agrees};
ghost use Rattle.ncl_merge.specs.Folding.{CountsPins, HasNoneIn};
ghost use Rattle.ncl_merge.specs.Search.{IsJoinedAt, IsGateOf};

/// A fold of two cells is on the nets on which their value depends, and it has that value at each word of these.
pub fn folds_are_found()
    ensures needed { (g h : StageCell) (nets needed : List NetId) → AreThrough g h nets → AreNeeded g h nets needed
        → (kind : Kind) (pins : List NetId) → IsFold g h kind pins → (x : NetId) → Contains pins x → Contains needed x }
    ensures all { (g h : StageCell) (nets needed : List NetId) → AreThrough g h nets → AreNeeded g h nets needed
        → (kind : Kind) (pins : List NetId) → IsFold g h kind pins → (x : NetId) → Contains needed x → Contains pins x }
    ensures agrees { (g h : StageCell) (nets needed : List NetId) → AreThrough g h nets → AreNeeded g h nets needed
        → (kind : Kind) (pins : List NetId) → IsFold g h kind pins → (word : List Bool) → agrees g h needed kind pins word ≡ true }
{}

/// After any folds, a cell whose net is on one pin of the stage as it was can be folded into the cell that has that pin.
pub fn one_pin_is_enough()
    ensures joined { (s : StageData) (cells before middle after : List StageCell) (g h : StageCell) (pin : ℕ) → FoldsTo s cells
        → cells ≡ before ++ g ∷ (middle ++ h ∷ after) → slice_get h.ins.items pin ≡ Some g.out → IsOnOnePin s g.out.0
        → IsJoinedAt g h pin }
    ensures fold { (s : StageData) (cells before middle after : List StageCell) (g h : StageCell) (pin : ℕ) → FoldsTo s cells
        → cells ≡ before ++ g ∷ (middle ++ h ∷ after) → slice_get h.ins.items pin ≡ Some g.out → IsOnOnePin s g.out.0
        → (kind : Kind) (pins : List NetId) → IsGateOf g h kind pins
        → IsFoldOf (with_cells s cells) (before ++ (middle ++ record h { kind = kind; ins = record { items = pins } } ∷ after)) }
{}

/// A net that is on one pin of all cells, and on a pin of a stage, is on one pin of the stage and of the registers after it.
pub fn counts_are_enough()
    ensures { (n : NetlistData) (b next : Bank) (s : StageData) → IsStageOf n b next s → IsBankOf n next.request.0 next
        → (net : ℕ) → pins_of n net ≡ 1 → 1 ≤ sum_by (pins_sum (one_at net)) s.cells → IsOnOnePin s net }
{}

/// What the table of all pins counts once is on no other pin of its stage, and where no such cell can be folded nothing is
/// foldable.
pub fn tables_tell()
    ensures counts { (n : NetlistData) (b next : Bank) (s : StageData) → IsStageOf n b next s → IsBankOf n next.request.0 next
        → (pins : List ℕ) → IsTable n 0 (pins_of n) pins → CountsPins s pins }
    ensures none { (n : NetlistData) → IsNetlist n → (b next : Bank) (s : StageData) → IsStageOf n b next s
        → (pins : List ℕ) → IsTable n 0 (pins_of n) pins → HasNoneIn s pins → (g h : StageCell) → IsFoldable n s g h → ⊥ }
{}
