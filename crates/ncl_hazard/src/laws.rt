//! The laws of explanations. The functions state them, and do nothing.
ghost use Rattle.std.specs.Prelude.{◌≡◌, ◌≤◌, ◌-◌, ℕ, true, Bool, List, [], ◌∷◌, length, slice_get, Some};
ghost use Rattle.ncl_cell_rules.specs.CellOrder.{IsCellOrder};
ghost use Rattle.ncl_shape.specs.declared.stage.StageCell.{StageCell};
ghost use Rattle.ncl_shape.specs.declared.item.Item.{Item};
ghost use Rattle.ncl_shape.specs.Stage.{StageData};
ghost use Rattle.ncl_shape.specs.Pipeline.{PipelineData};
ghost use Rattle.ncl_shape.specs.Shape.{Shape};
ghost use Rattle.ncl_faults.specs.Faults.{Orphan, shows};
ghost use Rattle.ncl_netlist.specs.declared.ids.CellId.{CellId};
ghost use Rattle.ncl_verdict.specs.declared.verdict.Verdict.TheVariants.{Orphan as JudgedOrphan};
ghost use Rattle.ncl_verdict.specs.Judgement.{judgement};
ghost use Rattle.ncl_machine.specs.State.{reset};
ghost use Rattle.ncl_hazard.specs.Explained.{AreSoundBefore, IsOrphanAt};
ghost use Rattle.ncl_hazard.specs.Trying.{HasNoDataBank, Loses};
ghost use Rattle.ncl_hazard.specs.Why.{brings};

/// Where no bank is reset to DATA, an input brings to a stage a word that shows an orphan, and the stages before it are
/// sound, some run over that input takes the excitation from the orphan in its last step. Nothing is asked of the stages
/// after it.
pub fn orphans_are_shown()
    ensures { (p : PipelineData) → Shape p.netlist p → HasNoDataBank p → (order : List ℕ) → IsCellOrder p.netlist order
        → (before : ℕ) (s : StageData) → slice_get p.stages before ≡ Some s
        → AreSoundBefore p before
        → (place : ℕ) (g : StageCell) → slice_get s.cells place ≡ Some g
        → (word : List Bool) → length word ≡ length p.inputs → shows s (brings p.stages before word) (Orphan place) ≡ true
        → (run : List Item) × Loses p (reset p (word ∷ [])) g.cell run }
{}

/// An orphan that the judgement of a pipeline names can be explained: the judgement of its stage alone names it too, and
/// the stages before are sound.
pub fn judged_orphans()
    ensures { (p : PipelineData) → Shape p.netlist p → (limit number : ℕ) (cell : CellId) (word : List Bool)
        → judgement limit p.stages ≡ JudgedOrphan number cell word → (1 ≤ number) × IsOrphanAt p (number - 1) cell }
{}
