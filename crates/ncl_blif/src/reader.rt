//! The reader of a text.
ghost use Rattle.std.specs.Prelude.{◌≡◌, ◌<◌, ◌≤◌, ◌^◌, ◌⊎◌, length, map, All, IfOk, IfErr};
ghost use Rattle.ncl_blif.specs.declared.fault.BlifFault.TheVariants.{Memory as OutOfMemory};
ghost use Rattle.ncl_blif.specs.Numbered.{numbered_model};
ghost use Rattle.ncl_blif.specs.Model.{AreModels};
ghost use Rattle.ncl_blif.specs.Answer.{IsFaultless, IsFirstModelFault, unjoined_model, IsRead, IsRefused};

use crate::draft::{Draft, drafts};
use crate::fault::BlifFault;
use crate::finish::finish;
use crate::model::Model;
use ncl_base::MOST_BYTES;
use std::alloc::Global;

/// The models of drafts, or the fault of the first that has one.
///
/// `n log n` in the signals that the drafts name, and at most linear in their rows, which are moved.
fn finish_all(alloc: Global, drafts: Vec<Draft>) -> Result<Vec<Model>, BlifFault>
    requires few { length drafts.items < 2 ^ 32 }
    requires few_inputs { All (λ draft. length draft.inputs < 2 ^ 32) drafts.items }
    requires few_covers { All (λ draft. length draft.covers < 2 ^ 32) drafts.items }
    ensures faultless { IfOk result (λ models. All IsFaultless drafts.entry.items) }
    ensures read { IfOk result (λ models. models.items ≡ map numbered_model drafts.entry.items) }
    ensures refused { IfErr result (λ fault. (fault ≡ OutOfMemory) ⊎ IsFirstModelFault drafts.entry.items fault) }
{
    let mut models = Vec::new(alloc);
    let mut number = 0u32;
    for draft in drafts {
        number += 1;
        models.push(finish(alloc, draft, number)?)?;
    }
    Ok(models)
}

/// The number of the first draft, from 1, that has not as many inputs as the one before has outputs.
/// Linear in the drafts.
fn first_unjoined(drafts: &[Draft]) -> Option<u32>
    requires { length drafts.now < 2 ^ 32 }
    ensures { result ≡ unjoined_model 1 drafts.now }
{
    for place in 1..drafts.len() {
        if drafts[place].inputs() != drafts[place - 1].outputs().len() {
            return Some(place as u32 + 1);
        }
    }
    None
}

/// The models that a text of Berkeley BLIF says, or what breaks it first.
///
/// What synthesis tools write is read: comments, continued lines, covers of the ON-set and of the OFF-set,
/// dashes, and a last model without `.end`. Lines are asked in order, then each model for its bits, its
/// drivers and its cycles, and at last whether each model has as many inputs as the one before has outputs.
/// Near linear in the text: each name is looked up in an ordered map, and nothing else takes more than a pass.
pub fn read_blif(alloc: Global, text: &[u8]) -> Result<Vec<Model>, BlifFault>
    requires { length text.now ≤ MOST_BYTES }
    ensures read { IfOk result (λ models. IsRead text.now models.items) }
    ensures models { IfOk result (λ models. AreModels models.items) }
    ensures refused { IfErr result (λ fault. (fault ≡ OutOfMemory) ⊎ IsRefused text.now fault) }
{
    let drafts = drafts(alloc, text)?;
    let unjoined = first_unjoined(&drafts);
    let models = finish_all(alloc, drafts)?;
    if let Some(number) = unjoined {
        return Err(BlifFault::Width(number));
    }
    Ok(models)
}
