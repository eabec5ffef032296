//! The laws of the firing machine. Each function states some, and does nothing.
ghost use Rattle.std.specs.Prelude.{◌≡◌, ◌↔◌, ◌+◌, ◌≤◌, ◌*◌, true, All, Contains, List, [], Bool, ◌++◌, length};
ghost use Rattle.ncl_shape.specs.declared.item.Item.{Item};
ghost use Rattle.ncl_netlist.specs.Netlist.{NetlistData};
ghost use Rattle.ncl_cell_rules.specs.Origin.{IsDataBank};
ghost use Rattle.ncl_shape.specs.declared.bank.Bank.{Bank};
ghost use Rattle.ncl_shape.specs.Nets.{Nets, IsBelow};
ghost use Rattle.ncl_shape.specs.Stage.{StageData};
ghost use Rattle.ncl_shape.specs.Pipeline.{PipelineData};
ghost use Rattle.ncl_shape.specs.Closure.{function_of};
ghost use Rattle.ncl_shape.specs.Held.{data_banks, is_data_bank};
ghost use Rattle.ncl_shape.specs.SamePipeline.{IsSamePipeline};
ghost use Rattle.ncl_shape.specs.Shape.{Shape};
ghost use Rattle.ncl_faults.specs.declared.variant.Variant.TheVariants.{Base};
ghost use Rattle.ncl_faults.specs.Values.{val};
ghost use Rattle.ncl_faults.specs.Faults.{IsSound, IsWordOf};
ghost use Rattle.ncl_machine.specs.State.{State, reset, reset_nets};
ghost use Rattle.ncl_machine.specs.ResetLaw.{IsReset};
ghost use Rattle.ncl_machine.specs.Run.{AreWordsOf, IsPersistent, IsQuiet, IsRun, IsRunFrom, after};
ghost use Rattle.ncl_machine.specs.Steps.{enabled, step};
ghost use Rattle.ncl_machine.specs.AtWork.{IsRising, IsFalling};
ghost use Rattle.ncl_machine.specs.StageLaw.{IsRisingSafely, IsFallingSafely};
ghost use Rattle.ncl_machine.specs.Composition.{composed};
ghost use Rattle.ncl_machine.specs.OneChange.{ChangesOneNet};
ghost use Rattle.ncl_machine.specs.DelayInsensitive.{AfterEveryRun, AlternatesWithNull, DeliversInTime, DeliversWhatIsDue, IsDelayInsensitive, IsLegalState, IsSafe, RestsWhereQuiet};

use ncl_shape::{Pipeline, Stage};

/// The first items of a run are a run, the others are a run from where those end, and there they lead to
/// the state that all items lead to.
pub fn run_prefix()
    ensures prefix { (p : PipelineData) (offered : List (List Bool)) (xs ys : List Item) → IsRun p offered (xs ++ ys) → IsRun p offered xs }
    ensures rest { (p : PipelineData) (offered : List (List Bool)) (xs ys : List Item) → IsRun p offered (xs ++ ys) → IsRunFrom p (after p (reset p offered) xs) ys }
    ensures state { (p : PipelineData) (s : State) (xs ys : List Item) → after p s (xs ++ ys) ≡ after p (after p s xs) ys }
{}

/// At reset the sink's acknowledge is high, the output of each register cell that is reset to 1, and of the acknowledge
/// and completion cells those of the banks that are not reset to DATA: each bank that holds no word asks for one.
pub fn high_at_reset()
    ensures { (n : NetlistData) (p : PipelineData) → Shape n p → IsReset p (reset_nets p) }
{}

/// A bank of a pipeline is counted as one that is reset to DATA, by the values to which its bits are reset, exactly where
/// it has a register cell that is reset to 1.
pub fn data_banks_by_cells()
    ensures { (n : NetlistData) (p : PipelineData) → Shape n p → (b : Bank) → Contains p.banks b → (is_data_bank b ≡ true) ↔ IsDataBank n b.request.0 }
{}

/// At reset with no word offered nothing can move, where no bank is reset to DATA.
pub fn still_at_reset()
    ensures { (n : NetlistData) (p : PipelineData) → Shape n p → data_banks p.banks ≡ 0 → IsQuiet p (reset p []) }
{}

/// A stage at work stays within its values: while a word comes in, and while NULL does, no net is high that
/// isn't high in the values at the word.
pub fn at_work_within_values()
    ensures rising { (s : StageData) (word : List Bool) (v : Nets) → IsRising s word v → IsBelow v (val s word Base) }
    ensures falling { (s : StageData) (word : List Bool) (v : Nets) → IsFalling s word v → IsBelow v (val s word Base) }
{}

/// A sound stage rises in one way only: while a word comes in, no gate cell is disturbed and no output is
/// illegal, and where every output has a high rail, each net has its value at the word.
pub fn rising(stage: &Stage)
    requires { IsSound stage.now }
    ensures { (word : List Bool) → IsWordOf stage.now word → (v : Nets) → IsRising stage.now word v → IsRisingSafely stage.now word v }
{
    stage.facts();
}

/// A sound stage falls in one way only: while NULL comes in, no gate cell is disturbed and no output is
/// illegal, and where all output rails are low, every net is low.
pub fn falling(stage: &Stage)
    requires { IsSound stage.now }
    ensures { (word : List Bool) → IsWordOf stage.now word → (v : Nets) → IsFalling stage.now word v → IsFallingSafely stage.now v }
{
    stage.facts();
}

/// A run of a delay-insensitive pipeline delivers no more pairs than words are held at reset and offered.
pub fn delivers_no_more()
    ensures { (p : PipelineData) → IsDelayInsensitive p → (offered : List (List Bool)) (items : List Item) → AreWordsOf p offered → IsRun p offered items → length (after p (reset p offered) items).delivered ≤ data_banks p.banks + length offered }
{}

/// The step of an item that is enabled changes the value of one net, and of no other.
pub fn step_changes_one_net()
    ensures { (p : PipelineData) (s : State) (item : Item) → enabled p s item ≡ true → ChangesOneNet s.value (step p s item).value }
{}

/// In every run of a pipeline of sound stages no item takes another back: what is excited stays excited until
/// it fires, and what the source or the sink may do it may until it does.
pub fn persistent(pipeline: &Pipeline)
    requires { All IsSound pipeline.now.stages }
    ensures { AfterEveryRun pipeline.now (λ offered s. IsPersistent pipeline.now s) }
{
    pipeline.facts();
}

/// A pipeline of sound stages is safe: besides being persistent, in every run it delivers the first words of
/// what is due, none of those offered before it was raised, its outputs are NULL between any two words taken, and
/// no bit of a bank and no output of a stage is illegal.
pub fn prefix(pipeline: &Pipeline)
    requires { All IsSound pipeline.now.stages }
    ensures due { AfterEveryRun pipeline.now (DeliversWhatIsDue pipeline.now) }
    ensures in_time { AfterEveryRun pipeline.now (λ offered s. DeliversInTime pipeline.now s) }
    ensures alternates { AlternatesWithNull pipeline.now }
    ensures legal { AfterEveryRun pipeline.now (λ offered s. IsLegalState pipeline.now s) }
    ensures safe { IsSafe pipeline.now }
{
    pipeline.facts();
}

/// A pipeline of sound stages is delay-insensitive: it is safe, and a run comes to a stop only where all is
/// delivered, the source is finished and every bank is NULL.
pub fn quiescent(pipeline: &Pipeline)
    requires { All IsSound pipeline.now.stages }
    ensures rests { AfterEveryRun pipeline.now (RestsWhereQuiet pipeline.now) }
    ensures insensitive { IsDelayInsensitive pipeline.now }
{
    pipeline.facts();
}

/// A run of a pipeline of sound stages has at most twice as many items as words times nets, those held at reset
/// and those offered, so every run comes to a stop.
pub fn bound(pipeline: &Pipeline)
    requires { All IsSound pipeline.now.stages }
    ensures { (offered : List (List Bool)) (items : List Item) → AreWordsOf pipeline.now offered → IsRun pipeline.now offered items → length items ≤ 2 * (data_banks pipeline.now.banks + length offered) * length pipeline.now.netlist.nets }
{
    pipeline.facts();
}

/// These four laws of any netlist that has the shape of a pipeline, whether or not the program has found it: where
/// the stages are sound, the pipeline is delay-insensitive, and its runs are bounded.
pub fn sound_is_insensitive()
    ensures safe { (n : NetlistData) (p : PipelineData) → Shape n p → All IsSound p.stages → IsSafe p }
    ensures insensitive { (n : NetlistData) (p : PipelineData) → Shape n p → All IsSound p.stages → IsDelayInsensitive p }
    ensures bound { (n : NetlistData) (p : PipelineData) → Shape n p → All IsSound p.stages → (offered : List (List Bool)) (items : List Item) → AreWordsOf p offered → IsRun p offered items → length items ≤ 2 * (data_banks p.banks + length offered) * length n.nets }
{}

/// The function of a pipeline of sound stages is the composition of its stages' functions, in order.
pub fn composition()
    ensures { (n : NetlistData) (p : PipelineData) → Shape n p → All IsSound p.stages → (word : List Bool) → length word ≡ length p.inputs → function_of p word ≡ composed p.stages word }
{}

/// Of two pipelines that are the same but for the order of the gates in their stages, one is delay-insensitive
/// where the other is.
pub fn same_pipeline_is_insensitive()
    ensures { (p : PipelineData) (q : PipelineData) → IsSamePipeline p q → IsDelayInsensitive p → IsDelayInsensitive q }
{}
