//! What is rebuilt of the cells that folds keep: it is a netlist, and it has the shape of the pipeline.
ghost use Rattle.std.specs.Prelude.{◌≡◌, ℕ, List, length, All, slice_get, Some, Option};
ghost use Rattle.ncl_netlist.specs.declared.cell.Cell.{Cell};
ghost use Rattle.ncl_netlist.specs.Netlist.{NetlistData, IsNetlist};
ghost use Rattle.ncl_netlist.specs.Names.{AllDiffer};
ghost use Rattle.ncl_netlist.specs.Parts.{HasAllPins, netlist_of, port_names};
ghost use Rattle.ncl_netlist.specs.Faults.{IsFaultless};
ghost use Rattle.ncl_cell_rules.specs.Free.{IsFree};
ghost use Rattle.ncl_shape.specs.declared.stage.StageCell.{StageCell};
ghost use Rattle.ncl_shape.specs.Stage.{StageData};
ghost use Rattle.ncl_shape.specs.Chain.{IsChained};
ghost use Rattle.ncl_shape.specs.Pipeline.{PipelineData};
ghost use Rattle.ncl_shape.specs.Shape.{Shape};
ghost use Rattle.ncl_merge.specs.Folding.{AreFewer};
ghost use Rattle.ncl_merge.specs.Choice.{choice_of, folded_netlist, folded_pipeline};
ghost use Rattle.ncl_merge.specs.Rebuilt.{IsChoice, IsWhole, kept_parts};
ghost use Rattle.ncl_merge.specs.Thinned.{IsThinned, IsThinStage, moved_pipeline};

/// A netlist in which gates between banks read other nets of their bank, or are gone, has a shape.
pub fn thinned_has_shape()
    ensures free { (n m : NetlistData) → IsThinned n m → IsFree n → IsFree m }
    ensures chained { (n m : NetlistData) → IsThinned n m → IsFree n → IsChained n → IsChained m }
    ensures shape { (n m : NetlistData) (is : IsThinned n m) (p : PipelineData) → Shape n p
        → (stages : List StageData) → length stages ≡ length p.stages
        → ((k : ℕ) (s t : StageData) → slice_get p.stages k ≡ Some s → slice_get stages k ≡ Some t
        → IsThinStage m is.to is.from s t)
        → Shape m (moved_pipeline m is.to is.at p stages) }
{}

/// A netlist that is built of the cells of another, where gates between banks are gone or read other nets of their bank, is
/// thinned.
pub fn rebuilt_is_thinned()
    ensures { (n : NetlistData) (choice : Cell → Option Cell) → IsNetlist n → IsFree n → IsChoice n choice
        → IsNetlist (netlist_of (kept_parts n choice)) → IsThinned n (netlist_of (kept_parts n choice)) }
{}

/// The parts of the kept cells break no rule, where what a kept cell reads is driven by a kept cell.
pub fn kept_parts_are_faultless()
    ensures faultless { (n : NetlistData) (choice : Cell → Option Cell) → IsNetlist n → IsFree n → IsChoice n choice → IsWhole n choice
        → IsFaultless (kept_parts n choice) }
    ensures ports_differ { (n : NetlistData) (choice : Cell → Option Cell) → IsNetlist n → IsFree n → IsChoice n choice → IsWhole n choice
        → AllDiffer (port_names (kept_parts n choice)) }
    ensures all_pins { (n : NetlistData) (choice : Cell → Option Cell) → IsNetlist n → IsFree n → IsChoice n choice → IsWhole n choice
        → All HasAllPins (kept_parts n choice).cells }
{}

/// What becomes of each cell of a netlist whose stages were folded is a choice of cells from which a netlist can be built.
pub fn folds_are_a_choice()
    ensures choice { (p : PipelineData) (lists : List (List StageCell)) → Shape p.netlist p → AreFewer p.stages lists
        → IsChoice p.netlist (choice_of p lists) }
    ensures whole { (p : PipelineData) (lists : List (List StageCell)) → Shape p.netlist p → AreFewer p.stages lists
        → IsWhole p.netlist (choice_of p lists) }
{}

/// That netlist has the shape of the pipeline of the folded stages.
pub fn folds_have_shape()
    ensures { (p : PipelineData) (lists : List (List StageCell)) → Shape p.netlist p → AreFewer p.stages lists
        → IsNetlist (folded_netlist p lists) → Shape (folded_netlist p lists) (folded_pipeline p lists) }
{}
