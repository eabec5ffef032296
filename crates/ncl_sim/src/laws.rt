//! The laws of timed runs. Each function states some, and does nothing.
ghost use Rattle.std.specs.Prelude.{◌≡◌, ℕ, All, List, Bool};
ghost use Rattle.ncl_netlist.specs.Netlist.{NetlistData};
ghost use Rattle.ncl_shape.specs.declared.item.Item.{Item};
ghost use Rattle.ncl_shape.specs.Pipeline.{PipelineData};
ghost use Rattle.ncl_shape.specs.Shape.{Shape};
ghost use Rattle.ncl_faults.specs.Faults.{IsSound};
ghost use Rattle.ncl_machine.specs.Run.{AreWordsOf};
ghost use Rattle.ncl_machine.specs.Held.{InRange};
ghost use Rattle.ncl_delay.specs.Delays.{DelaysData};
ghost use Rattle.ncl_sim.specs.TimedRun.{DeliversAll, IsTimedRun, TraceData};
ghost use Rattle.ncl_sim.specs.declared.trace.End.TheVariants.{Hazard, Quiet};

/// A pipeline has one timed run, and no other, under given delays and over given words.
pub fn one_timed_run()
    ensures some { (p : PipelineData) (d : DelaysData) (offered : List (List Bool)) → (t : TraceData) × IsTimedRun p d offered t }
    ensures one { (p : PipelineData) (d : DelaysData) (offered : List (List Bool)) (s t : TraceData) → IsTimedRun p d offered s → IsTimedRun p d offered t → s ≡ t }
{}

/// A pipeline of sound stages runs to its end at all delays: its timed run ends where nothing can move any more,
/// and every word that is due has been delivered then.
pub fn sound_run_ends_quiet()
    ensures quiet { (n : NetlistData) (p : PipelineData) (d : DelaysData) (offered : List (List Bool)) (t : TraceData) → Shape n p → All IsSound p.stages → AreWordsOf p offered → IsTimedRun p d offered t → t.end ≡ Quiet }
    ensures delivered { (n : NetlistData) (p : PipelineData) (d : DelaysData) (offered : List (List Bool)) (t : TraceData) → Shape n p → All IsSound p.stages → AreWordsOf p offered → IsTimedRun p d offered t → DeliversAll p offered t }
{}

/// The pipelines of one netlist differ in the order of the gates in their stages alone, and have the same timed runs.
pub fn same_pipeline_same_run()
    ensures { (n : NetlistData) (p : PipelineData) (q : PipelineData) (d : DelaysData) (offered : List (List Bool)) (t : TraceData) → Shape n p → Shape n q → IsTimedRun p d offered t → IsTimedRun q d offered t }
{}

/// The item that a hazard tells is one of the pipeline.
pub fn hazard_is_in_range()
    ensures { (p : PipelineData) (d : DelaysData) (offered : List (List Bool)) (t : TraceData) (item : Item) (time : ℕ) → IsTimedRun p d offered t → t.end ≡ Hazard item time → InRange p item }
{}
