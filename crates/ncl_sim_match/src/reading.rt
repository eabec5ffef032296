//! The bytes of files, as models, as delays and as words.
ghost use Rattle.std.specs.Prelude.{◌≢◌, ◌≡◌, ◌≤◌, IfErr, IfOk, length};
ghost use Rattle.ncl_base.specs.declared.source.TheConstants.{MOST_BYTES};
ghost use Rattle.ncl_blif.specs.declared.fault.BlifFault.TheVariants.{Memory as ModelsMemory};
ghost use Rattle.ncl_delay.specs.declared.fault.DelayFault.TheVariants.{Memory as DelayMemory};
ghost use Rattle.ncl_delay.specs.declared.fault.WordsFault.TheVariants.{Memory as WordsMemory};
ghost use Rattle.ncl_report.specs.BlifText.{blif_line};
ghost use Rattle.ncl_report.specs.DelayText.{delay_line, words_line};
ghost use Rattle.ncl_check.specs.Refusals.{TellsLine};
ghost use Rattle.ncl_sim_match.specs.ModelsText.{AreModelsText, AreRefusedModels};
ghost use Rattle.ncl_sim_match.specs.Simulating.{AreDelaysText, AreRefusedDelays, AreRefusedWords, AreWordsText};

use ncl_base::{MOST_BYTES, Word};
use ncl_blif::{BlifFault, Model, read_blif};
use ncl_check::Refusal;
use ncl_delay::{DelayFault, Delays, WordsFault, read_delays, read_words};
use ncl_netlist::Netlist;
use ncl_report::{blif_text, delay_text, words_text};
use ncl_shape::Pipeline;
use std::alloc::Global;

/// The models that the bytes of a file say, or the line that tells the first thing that keeps them from saying any.
///
/// Costs as reading does: near linear in the bytes.
pub(crate) fn models_in(alloc: Global, bytes: &[u8]) -> Result<Vec<Model>, Refusal>
    requires { length bytes.now ≤ MOST_BYTES }
    ensures models { IfOk result (λ models. AreModelsText bytes.now models.items) }
    ensures refused { IfErr result (TellsLine (AreRefusedModels bytes.now)) }
{
    match read_blif(alloc, bytes) {
        Ok(models) => Ok(models),
        Err(fault) => Err(no_models(alloc, fault)),
    }
}

/// The delays that the bytes of a file state for the cells of a netlist, or the line that tells the first that breaks.
///
/// Costs as reading does: near linear in the bytes.
pub(crate) fn delays_in(alloc: Global, bytes: &[u8], netlist: &Netlist) -> Result<Delays, Refusal>
    requires { length bytes.now ≤ MOST_BYTES }
    ensures delays { IfOk result (AreDelaysText netlist.now bytes.now) }
    ensures refused { IfErr result (TellsLine (AreRefusedDelays netlist.now bytes.now)) }
{
    match read_delays(alloc, bytes, netlist) {
        Ok(delays) => Ok(delays),
        Err(fault) => Err(no_delays(alloc, fault)),
    }
}

/// The words that the bytes of a file say, each as wide as the pipeline, or the line that tells the first that breaks.
///
/// Linear in the bytes.
pub(crate) fn words_in(
    alloc: Global,
    bytes: &[u8],
    pipeline: &Pipeline,
) -> Result<Vec<Word>, Refusal>
    requires { length bytes.now ≤ MOST_BYTES }
    ensures words { IfOk result (λ words. AreWordsText (length pipeline.now.inputs) bytes.now words.items) }
    ensures refused { IfErr result (TellsLine (AreRefusedWords (length pipeline.now.inputs) bytes.now)) }
{
    pipeline.facts();
    match read_words(alloc, bytes, pipeline.inputs().len()) {
        Ok(words) => Ok(words),
        Err(fault) => Err(no_words(alloc, fault)),
    }
}

/// The line for a text of no models.
fn no_models(alloc: Global, fault: BlifFault) -> Refusal
    ensures { TellsLine (λ text. (fault ≢ ModelsMemory) × (text ≡ blif_line fault)) result }
{
    match fault {
        BlifFault::Memory => Refusal::Memory,
        fault => Refusal::of(blif_text(alloc, &fault)),
    }
}

/// The line for a text of no delays.
fn no_delays(alloc: Global, fault: DelayFault) -> Refusal
    ensures { TellsLine (λ text. (fault ≢ DelayMemory) × (text ≡ delay_line fault)) result }
{
    match fault {
        DelayFault::Memory => Refusal::Memory,
        fault => Refusal::of(delay_text(alloc, &fault)),
    }
}

/// The line for a text of no words.
fn no_words(alloc: Global, fault: WordsFault) -> Refusal
    ensures { TellsLine (λ text. (fault ≢ WordsMemory) × (text ≡ words_line fault)) result }
{
    match fault {
        WordsFault::Memory => Refusal::Memory,
        fault => Refusal::of(words_text(alloc, &fault)),
    }
}
