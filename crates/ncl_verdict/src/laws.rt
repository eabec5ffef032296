//! What the judgement means.
ghost use Rattle.std.specs.Prelude.{◌≡◌, ◌⊎◌, ℕ, List, All};
ghost use Rattle.ncl_shape.specs.Stage.{StageData, IsStage};
ghost use Rattle.ncl_shape.specs.Pipeline.{PipelineData};
ghost use Rattle.ncl_shape.specs.SamePipeline.{IsSamePipeline};
ghost use Rattle.ncl_faults.specs.Faults.{IsSound};
ghost use Rattle.ncl_verdict.specs.Judgement.{judgement};
ghost use Rattle.ncl_verdict.specs.declared.verdict.Verdict.TheVariants.{Accepted, Limit};
ghost use Rattle.ncl_verdict.specs.Within.{AreWithin};

/// Where a pipeline is accepted, no word of the inputs of any of its stages shows any fault.
pub fn accepted_is_sound()
    ensures { (limit : ℕ) (stages : List StageData) → judgement limit stages ≡ Accepted → All IsSound stages }
{}

/// Pipelines that are the same but for the order of the cells of their stages have one judgement.
pub fn same_pipeline_same_judgement()
    ensures { (p q : PipelineData) → All IsStage p.stages → All IsStage q.stages → IsSamePipeline p q → (limit : ℕ) → judgement limit p.stages ≡ judgement limit q.stages }
{}

/// Sound stages are accepted exactly where all stay within the limit of nodes; else one is told to pass it.
pub fn sound_is_accepted()
    ensures { (limit : ℕ) (stages : List StageData) → All IsSound stages
        → (AreWithin limit stages × (judgement limit stages ≡ Accepted))
        ⊎ ((AreWithin limit stages → ⊥) × ((number : ℕ) × (judgement limit stages ≡ Limit number))) }
{}
