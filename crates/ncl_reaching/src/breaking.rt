//! A run that goes wrong.
ghost use Rattle.std.specs.Prelude.{◌≡◌, ◌<◌, ◌∷◌, [], ℕ, IfOk, Some, length, slice_get};
ghost use Rattle.ncl_shape.specs.declared.bank.Bank.{Bank};
ghost use Rattle.ncl_shape.specs.declared.bank.Bit.{Bit};
ghost use Rattle.ncl_machine.specs.Held.{IsFor, meaning};
ghost use Rattle.ncl_machine.specs.State.{reset};
ghost use Rattle.ncl_faults.specs.Faults.{BothRails as IsBothRails, Incomplete as IsIncomplete, NoRail as IsNoRail, Orphan as IsOrphan};
ghost use Rattle.ncl_hazard.specs.Why.{brings};
ghost use Rattle.ncl_reaching.specs.Asking.{fault_of};
ghost use Rattle.ncl_reaching.specs.Breaking.{BringsFault, BreaksIn, register_cell};

use crate::fault::Fault;
use crate::stopping::push_stop;
use ncl_base::{Items, Memory, Word};
use ncl_hazard::{
    Steps, acknowledging_items, coming_items, going_items, lacking_items, losing_run,
    reaching_items, try_items,
};
use ncl_machine::State;
use ncl_netlist::CellId;
use ncl_shape::Pipeline;
use std::alloc::Global;

/// A run over an input that goes wrong.
#[derive(Debug, Drop)]
pub struct WrongRun {
    /// Its items, in order, from reset.
    pub steps: Steps,
    /// The cell that loses its excitation in the last step, if that is what goes wrong.
    pub lost: Option<CellId>,
}

/// An input on its way to the stage after so many others of a pipeline.
#[derive(Drop)]
pub(crate) struct Way<'a> {
    pub(crate) pipeline: &'a Pipeline<'a>,
    pub(crate) before: usize,
    pub(crate) input: &'a Word,
}

/// A run over an input that breaks what a fault names which the input brings to the stage after so many others, in a pipeline in
/// which no bank holds a word at reset. The word is the one that comes to that stage.
///
/// Linear in nets, cells and pins, but where an output has no rail: there it takes some rounds over all cells until nothing can
/// move.
pub(crate) fn breaking_run(
    alloc: Global,
    way: &Way,
    fault: Fault,
    word: &Word,
) -> Result<WrongRun, Memory>
    requires brought { BringsFault way.now.pipeline.now way.now.before way.now.input.now (fault_of fault) }
    requires word { word.now ≡ brings way.now.pipeline.now.stages way.now.before way.now.input.now }
    ensures { IfOk result (λ run. BreaksIn way.now.pipeline.now way.now.before way.now.input.now (fault_of fault) run) }
{
    way.pipeline.facts();
    match fault {
        Fault::BothRails(_) => illegal_run(alloc, way),
        Fault::NoRail(_) => stopping_run(alloc, way),
        Fault::Incomplete(bit) => bit_run(alloc, way, bit, word),
        Fault::Orphan(place) => gate_run(alloc, way, place),
    }
}

/// The state at reset with one word offered. Linear in nets, cells and bits.
fn start(alloc: Global, pipeline: &Pipeline, input: &Word) -> Result<State, Memory>
    requires { length input.now ≡ length pipeline.now.inputs }
    ensures made { IfOk result (IsFor pipeline.now) }
    ensures reset { IfOk result (λ state. meaning state ≡ reset pipeline.now (input.now ∷ [])) }
{
    State::new(alloc, pipeline, &[input.clone()?])
}

/// Both rails of an output: the word comes through the stage.
fn illegal_run(alloc: Global, way: &Way) -> Result<WrongRun, Memory>
    requires { (output : ℕ) × BringsFault way.now.pipeline.now way.now.before way.now.input.now (IsBothRails output) }
    ensures { (output : ℕ) → BringsFault way.now.pipeline.now way.now.before way.now.input.now (IsBothRails output) → IfOk result (λ run. BreaksIn way.now.pipeline.now way.now.before way.now.input.now (IsBothRails output) run) }
{
    let pipeline = way.pipeline;
    pipeline.facts();
    let mut state = start(alloc, pipeline, way.input)?;
    let coming = reaching_items(alloc, pipeline, way.before + 1)?;
    let mut run = Vec::new(alloc);
    try_items(pipeline, &mut state, &mut run, &coming)?;
    Ok(WrongRun {
        steps: Items::from_vec(run),
        lost: None,
    })
}

/// No rail of an output: the word comes through the stage, and then all goes on until nothing can move.
fn stopping_run(alloc: Global, way: &Way) -> Result<WrongRun, Memory>
    requires { (output : ℕ) × BringsFault way.now.pipeline.now way.now.before way.now.input.now (IsNoRail output) }
    ensures { (output : ℕ) → BringsFault way.now.pipeline.now way.now.before way.now.input.now (IsNoRail output) → IfOk result (λ run. BreaksIn way.now.pipeline.now way.now.before way.now.input.now (IsNoRail output) run) }
{
    let pipeline = way.pipeline;
    pipeline.facts();
    let order = pipeline.origins().order();
    let mut state = start(alloc, pipeline, way.input)?;
    let coming = reaching_items(alloc, pipeline, way.before + 1)?;
    let mut run = Vec::new(alloc);
    try_items(pipeline, &mut state, &mut run, &coming)?;
    push_stop(alloc, pipeline, &mut state, &mut run, order)?;
    Ok(WrongRun {
        steps: Items::from_vec(run),
        lost: None,
    })
}

/// A bit that isn't waited for: all but its register cells comes through the stage into the bank after it, which acknowledges.
fn bit_run(alloc: Global, way: &Way, bit: usize, word: &Word) -> Result<WrongRun, Memory>
    requires brought { BringsFault way.now.pipeline.now way.now.before way.now.input.now (IsIncomplete bit) }
    requires word { word.now ≡ brings way.now.pipeline.now.stages way.now.before way.now.input.now }
    ensures { IfOk result (λ run. BreaksIn way.now.pipeline.now way.now.before way.now.input.now (IsIncomplete bit) run) }
{
    let pipeline = way.pipeline;
    pipeline.facts();
    let order = pipeline.origins().order();
    let mut state = start(alloc, pipeline, way.input)?;
    let coming = lacking_items(alloc, pipeline, way.before, bit)?;
    let going = acknowledging_items(alloc, pipeline, &state, order)?;
    let cell = register_of(pipeline, way.before, bit, word.bits()[bit]);
    let run = losing_run(alloc, pipeline, &mut state, cell, &coming, &going)?;
    Ok(WrongRun {
        steps: Items::from_vec(run),
        lost: Some(cell),
    })
}

/// The register cell of a rail of a bit of a bank.
fn register_of(pipeline: &Pipeline, bank: usize, bit: usize, high: bool) -> CellId
    requires { (b : Bank) × (slice_get pipeline.now.banks bank ≡ Some b) × (bit < length b.bits) }
    ensures { (b : Bank) (x : Bit) → slice_get pipeline.now.banks bank ≡ Some b → slice_get b.bits bit ≡ Some x → result ≡ register_cell x high }
{
    let bit = &pipeline.banks()[bank].bits.items()[bit];
    if high { bit.rail1 } else { bit.rail0 }
}

/// An orphan: the word comes and goes through all cells but the gate.
fn gate_run(alloc: Global, way: &Way, place: usize) -> Result<WrongRun, Memory>
    requires { BringsFault way.now.pipeline.now way.now.before way.now.input.now (IsOrphan place) }
    ensures { IfOk result (λ run. BreaksIn way.now.pipeline.now way.now.before way.now.input.now (IsOrphan place) run) }
{
    let pipeline = way.pipeline;
    pipeline.facts();
    let order = pipeline.origins().order();
    let mut state = start(alloc, pipeline, way.input)?;
    let own = &pipeline.stages()[way.before];
    let cell = own.cells.items()[place].cell;
    let coming = coming_items(alloc, pipeline, way.before + 1, cell)?;
    let going = going_items(alloc, pipeline, &state, way.before + 1, cell, order)?;
    let run = losing_run(alloc, pipeline, &mut state, cell, &coming, &going)?;
    Ok(WrongRun {
        steps: Items::from_vec(run),
        lost: Some(cell),
    })
}
