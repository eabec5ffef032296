//! What is made of a pipeline and models once, for all outputs.
ghost use Rattle.std.specs.Prelude.{◌≡◌, IfOk};
ghost use Rattle.ncl_blif.specs.Model.{AreModels};

use crate::planning::PlannedPipeline;
use crate::steps::OrderedModels;
use ncl_base::Memory;
use ncl_blif::Model;
use ncl_shape::Pipeline;
use std::alloc::Global;

/// The two sides of a comparison, with what all outputs share.
#[derive(Drop)]
pub struct Sides<'a> {
    /// The pipeline with its plan.
    pub pipeline: PlannedPipeline<'a>,
    /// The models with their covers in one row.
    pub models: OrderedModels<'a>,
}

impl<'a> Sides<'a> {
    /// The sides of a pipeline and models. Linear in the pipeline, and `n log n` in the models. An error is want of memory.
    pub fn of(
        alloc: Global,
        pipeline: &'a Pipeline<'a>,
        models: &'a [Model],
    ) -> Result<Sides<'a>, Memory>
        requires { AreModels models.now }
        ensures pipeline { IfOk result (λ sides. sides.pipeline ≡ pipeline.now) }
        ensures models { IfOk result (λ sides. sides.models ≡ models.now) }
    {
        let pipeline = PlannedPipeline::of(alloc, pipeline)?;
        let models = OrderedModels::of(alloc, models)?;
        Ok(Sides { pipeline, models })
    }
}
