//! How many bits the words have.
ghost use Rattle.std.specs.Prelude.{◌≡◌, true, false};
ghost use Rattle.ncl_blif.specs.Meaning.{width_of};
ghost use Rattle.ncl_match.specs.Circuit.{circuit_of};
ghost use Rattle.ncl_match.specs.Answer.{HaveWidths, outputs_of};

use ncl_blif::Model;
use ncl_shape::Pipeline;

/// Whether the words have as many bits in the pipeline as in the models. Takes no memory.
pub(crate) fn have_widths(pipeline: &Pipeline, models: &[Model]) -> bool
    ensures yes { result ≡ true → HaveWidths (circuit_of pipeline.now) models.now }
    ensures no { result ≡ false → HaveWidths (circuit_of pipeline.now) models.now → ⊥ }
{
    let inputs = first_width(models);
    let outputs = last_width(models);
    pipeline.inputs().len() == inputs && pipeline.outputs().len() == outputs
}

/// How many inputs the first model has. Takes no memory.
pub fn first_width(models: &[Model]) -> usize
    ensures { result ≡ width_of models.now }
{
    match models {
        [] => 0,
        [first, ..] => first.inputs.items().len(),
    }
}

/// How many outputs the last model has. Takes no memory.
pub fn last_width(models: &[Model]) -> usize
    ensures { result ≡ outputs_of models.now }
{
    if models.is_empty() {
        return 0;
    }
    models[models.len() - 1].outputs.items().len()
}
