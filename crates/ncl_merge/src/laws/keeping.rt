//! What folds keep of a stage: that it is one, that it is sound, and what it gives. And what they save.
ghost use Rattle.std.specs.Prelude.{◌≡◌, ◌≢◌, ◌≤◌, ◌+◌, sum_by, ℕ, Bool, List, map, AllPairs};
ghost use Rattle.ncl_netlist.specs.declared.ids.NetId.{NetId};
ghost use Rattle.ncl_shape.specs.declared.rails.Rails.{Rails};
ghost use Rattle.ncl_shape.specs.declared.stage.StageCell.{StageCell};
ghost use Rattle.ncl_shape.specs.Stage.{StageData, IsStage};
ghost use Rattle.ncl_shape.specs.Renamed.{IsRenamedStage};
ghost use Rattle.ncl_faults.specs.declared.variant.Variant.TheVariants.{Base};
ghost use Rattle.ncl_faults.specs.Values.{val};
ghost use Rattle.ncl_faults.specs.Faults.{IsSound};
ghost use Rattle.ncl_merge.specs.Fold.{IsFoldOf, FoldsTo, pins_sum, line_length, with_cells};

/// A stage in which a cell is folded into another is a stage, and it is sound where the stage was.
pub fn fold_is_sound()
    ensures stage { (s : StageData) (cells : List StageCell) → IsStage s → IsFoldOf s cells → IsStage (with_cells s cells) }
    ensures sound { (s : StageData) (cells : List StageCell) → IsStage s → IsFoldOf s cells
        → IsSound s → IsSound (with_cells s cells) }
{}

/// So is one in which cells are folded one after another, and it gives what the stage gave.
pub fn folds_are_sound()
    ensures stage { (s : StageData) (cells : List StageCell) → IsStage s → FoldsTo s cells → IsStage (with_cells s cells) }
    ensures sound { (s : StageData) (cells : List StageCell) → IsStage s → FoldsTo s cells
        → IsSound s → IsSound (with_cells s cells) }
    ensures function { (s : StageData) (cells : List StageCell) (word : List Bool) → IsStage s → FoldsTo s cells
        → map (λ (r : Rails). val (with_cells s cells) word Base r.one.0) s.outputs
        ≡ map (λ (r : Rails). val s word Base r.one.0) s.outputs }
{}

/// Folds put no net on more pins, and make the lines of the cells no longer. One fold makes them shorter by 14 bytes,
/// by the name of the cell that is gone, and twice by that of its net, at least.
pub fn folds_are_short()
    ensures pins { (f : NetId → ℕ) (s : StageData) (cells : List StageCell) → FoldsTo s cells
        → sum_by (pins_sum f) cells ≤ sum_by (pins_sum f) s.cells }
    ensures lines { (w title : ℕ → ℕ) (s : StageData) (cells : List StageCell) → FoldsTo s cells
        → sum_by (line_length w title) cells ≤ sum_by (line_length w title) s.cells }
    ensures bytes { (w title : ℕ → ℕ) (s : StageData) (cells : List StageCell) (is : IsFoldOf s cells)
        → sum_by (line_length w title) cells + (14 + (title is.g.cell.0 + (w is.g.out.0 + w is.g.out.0)))
        ≤ sum_by (line_length w title) s.cells }
{}

/// A stage whose nets have other numbers is sound where the stage was, and gives what it gave.
pub fn numbers_are_free()
    ensures stage { (to from : ℕ → ℕ) (s t : StageData) → IsStage s → IsRenamedStage to from s t
        → AllPairs (λ (x y : StageCell). x.cell.0 ≢ y.cell.0) t.cells → IsStage t }
    ensures sound { (to from : ℕ → ℕ) (s t : StageData) → IsStage s → IsRenamedStage to from s t → IsSound s → IsSound t }
    ensures function { (to from : ℕ → ℕ) (s t : StageData) (word : List Bool) → IsStage s → IsRenamedStage to from s t
        → map (λ (r : Rails). val t word Base r.one.0) t.outputs ≡ map (λ (r : Rails). val s word Base r.one.0) s.outputs }
{}
