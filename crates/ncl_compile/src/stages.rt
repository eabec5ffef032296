//! The stages that models become.
ghost use Rattle.std.specs.Prelude.{◌<◌, ◌≤◌, length, IfOk, All};
ghost use Rattle.ncl_blif.specs.Model.{IsModel};
ghost use Rattle.ncl_network.specs.Size.{IsSlim, most_models};
ghost use Rattle.ncl_rails.specs.StageParts.{AreStageParts, CanBeStage};
ghost use Rattle.ncl_compile.specs.InnerNames.{inner_pairs, stage_prefix};
ghost use Rattle.ncl_compile.specs.Pieces.{IsStageOfModel, AreStages};

use crate::naming::{inner_pairs, numbered};
use ncl_base::Memory;
use ncl_blif::Model;
use ncl_decomp::split;
use ncl_network::{Network, reduce};
use ncl_rails::{StageParts, stage_parts};
use std::alloc::Global;

/// The stage of this number, from 0, that a network of so many inputs becomes.
fn stage_named(
    alloc: Global,
    network: &Network,
    number: usize,
    inputs: usize,
) -> Result<StageParts, Memory>
    requires few { number < 999 }
    requires few_bits { inputs < 999 }
    requires can { CanBeStage network.now (inner_pairs number inputs) (stage_prefix number) }
    ensures { IfOk result (AreStageParts network.now (inner_pairs number inputs) (stage_prefix number)) }
{
    let ins = inner_pairs(alloc, number, inputs)?;
    let prefix = numbered(alloc, b's', number)?;
    stage_parts(alloc, network, &ins, &prefix)
}

/// The stage of this number, from 0, that a model becomes.
fn stage_of(alloc: Global, number: usize, model: &Model) -> Result<StageParts, Memory>
    requires few { number < most_models }
    requires is_model { IsModel model.now }
    requires slim { IsSlim model.now }
    ensures { IfOk result (IsStageOfModel model.now (inner_pairs number (length model.now.inputs)) (stage_prefix number)) }
{
    let folded = reduce(alloc, model)?;
    let narrow = split(alloc, &folded)?;
    stage_named(alloc, &narrow, number, model.inputs.items().len())
}

/// The stages that models become, in their order. Near linear in the rows of the models.
pub(crate) fn stages_of(alloc: Global, models: &[Model]) -> Result<Vec<StageParts>, Memory>
    requires few { length models.now ≤ most_models }
    requires are_models { All IsModel models.now }
    requires slim { All IsSlim models.now }
    ensures { IfOk result (λ stages. AreStages models.now stages.items) }
{
    let mut stages = Vec::new(alloc);
    for (number, model) in models.iter().enumerate() {
        let stage = stage_of(alloc, number, model)?;
        stages.push(stage)?;
    }
    Ok(stages)
}
