//! How large models are.
ghost use Rattle.std.specs.Prelude.{◌≡◌, ◌≤◌, ◌<◌, IsTrue, ◌↔◌, IfErr, OnOk};
ghost use Rattle.ncl_blif.specs.Model.{AreModels, most_size, weight_of_rows};
ghost use Rattle.ncl_network.specs.Network.{weight_of_model};
ghost use Rattle.ncl_network.specs.Size.{compile_size, IsSlim, CanBeCompiled};
ghost use Rattle.ncl_compile.specs.TooLarge.{IsCompileFault};

use crate::fault::CompileFault;
use ncl_base::MOST_BITS;
use ncl_blif::{Model, Row};

/// The most models that are compiled.
const MOST_MODELS: usize = 255;

/// The largest size that is compiled.
const MOST_UNITS: usize = 16_384;

/// The weight of rows: one for each, and their characters. Linear in the rows.
fn rows_weight(rows: &[Row]) -> usize
    requires { weight_of_rows rows.now ≤ most_size }
    ensures { result ≡ weight_of_rows rows.now }
{
    let mut weight = 0;
    for row in rows {
        weight += 1 + row.items().len();
    }
    weight
}

/// The weight of the rows of a model. Linear in its rows.
fn model_weight(model: &Model) -> usize
    requires { weight_of_model model.now ≤ most_size }
    ensures { result ≡ weight_of_model model.now }
{
    let mut weight = 0;
    for cover in model.covers.items() {
        weight += rows_weight(cover.rows.items());
    }
    weight
}

/// The size of models: the weight of their rows, and the bits of all banks. Linear in the rows.
fn total_size(models: &[Model]) -> usize
    requires { AreModels models.now }
    ensures { result ≡ compile_size models.now }
{
    let mut size = models[models.len() - 1].outputs.items().len();
    for model in models {
        size += model_weight(model) + model.inputs.items().len();
    }
    size
}

/// Whether a model has no more inputs and outputs than a word has bits.
fn is_slim(model: &Model) -> bool
    ensures { IsTrue result ↔ IsSlim model.now }
{
    model.inputs.items().len() <= MOST_BITS && model.outputs.items().len() <= MOST_BITS
}

/// Refuses models that are too large to be compiled: the first that is too wide, too many, or too large together.
/// Linear in the rows.
pub(crate) fn check_size(models: &[Model]) -> Result<(), CompileFault>
    requires { AreModels models.now }
    ensures small { OnOk result (CanBeCompiled models.now) }
    ensures fault { IfErr result (IsCompileFault models.now) }
{
    for (before, model) in models.iter().enumerate() {
        if !is_slim(model) {
            return Err(CompileFault::TooWide(before as u32 + 1));
        }
    }
    if models.len() > MOST_MODELS {
        return Err(CompileFault::TooLong);
    }
    if total_size(models) > MOST_UNITS {
        return Err(CompileFault::TooMany);
    }
    Ok(())
}
