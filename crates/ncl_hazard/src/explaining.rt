//! Why a cell is an orphan.
ghost use Rattle.std.specs.Prelude.{◌≡◌, ◌<◌, ◌≤◌, ◌-◌, ◌∷◌, [], ℕ, IfOk, IsErrOf, length};
ghost use Rattle.ncl_machine.specs.Held.{IsFor, meaning};
ghost use Rattle.ncl_machine.specs.State.{reset};
ghost use Rattle.ncl_hazard.specs.Trying.{HasNoDataBank, Loses};
ghost use Rattle.ncl_hazard.specs.Explained.{AreSoundBefore, BringsOrphan, IsExplained, IsOrphanAt, IsPastLimit, StandsAt};

use crate::schedule::{coming_items, going_items};
use crate::search::least_bringing;
use crate::trying::losing_run;
use ncl_base::{Items, Memory, Word};
use ncl_machine::State;
use ncl_netlist::CellId;
use ncl_shape::{Item, Pipeline, Stage};
use ncl_space::SpaceFault;
use std::alloc::Global;

/// The items of a run, in order.
pub type Steps = Items<Item>;

/// Why a cell is an orphan.
#[derive(Debug, Drop)]
pub enum Explained {
    /// The input brings to the cell's stage a word that shows it: the run, over this input alone, starts at reset, and in
    /// its last step the cell loses its excitation without firing.
    Shown { input: Word, run: Steps },
    /// No input brings such a word: the stages before never hand it on.
    NoWord,
}

/// The place in a stage of a cell that it has. Linear in the cells of the stage.
fn place_of(stage: &Stage, cell: CellId) -> usize
    requires { (place : ℕ) × StandsAt stage.now cell place }
    ensures { StandsAt stage.now cell result }
{
    for (place, gate) in stage.cells.items().iter().enumerate() {
        if gate.cell.0 == cell.0 {
            return place;
        }
    }
    unreachable!()
}

/// The state at reset with one word offered. Linear in nets, cells and bits.
fn start(alloc: Global, pipeline: &Pipeline, input: &Word) -> Result<State, Memory>
    requires { length input.now ≡ length pipeline.now.inputs }
    ensures made { IfOk result (IsFor pipeline.now) }
    ensures reset { IfOk result (λ state. meaning state ≡ reset pipeline.now (input.now ∷ [])) }
{
    State::new(alloc, pipeline, &[input.clone()?])
}

/// A run over an input that brings an orphan's word to the stage after so many others, in whose last step the orphan loses
/// its excitation. The stages before are sound.
///
/// Linear in nets, cells and pins: each cell is tried at most twice.
fn shown_run(
    alloc: Global,
    pipeline: &Pipeline,
    before: usize,
    cell: CellId,
    input: &Word,
) -> Result<Vec<Item>, Memory>
    requires within { before < length pipeline.now.stages }
    requires null { HasNoDataBank pipeline.now }
    requires sound { AreSoundBefore pipeline.now before }
    requires brings { BringsOrphan pipeline.now before cell input.now }
    ensures { IfOk result (λ run. Loses pipeline.now (reset pipeline.now (input.now ∷ [])) cell run.items) }
{
    pipeline.facts();
    let order = pipeline.origins().order();
    let mut state = start(alloc, pipeline, input)?;
    let coming = coming_items(alloc, pipeline, before + 1, cell)?;
    let going = going_items(alloc, pipeline, &state, before + 1, cell, order)?;
    losing_run(alloc, pipeline, &mut state, cell, &coming, &going)
}

/// Why a cell of a stage is an orphan: the least input, as a binary number, that brings to the stage a word that shows it,
/// and a run of the firing machine over that input in whose last step the cell loses its excitation; or that no input
/// brings such a word. Stages count from 1. No bank is reset to DATA, the stages before are sound, and the stage alone was
/// judged, with some limit, to have this orphan.
///
/// The search for the input goes twice over the cells of the stages up to this one, by diagrams with at most `limit` nodes;
/// `Full` comes exactly where the functions of the nets on the way and of the question have more. The run is found in time
/// linear in nets, cells and pins.
pub fn explain(
    alloc: Global,
    pipeline: &Pipeline,
    stage: u32,
    cell: CellId,
    limit: u32,
) -> Result<Explained, SpaceFault>
    requires stage { 1 ≤ stage }
    requires limit { 1 ≤ limit }
    requires null { HasNoDataBank pipeline.now }
    requires orphan { IsOrphanAt pipeline.now (stage - 1) cell }
    ensures explained { IfOk result (IsExplained pipeline.now (stage - 1) cell limit) }
    ensures full { IsErrOf result SpaceFault.Full → IsPastLimit pipeline.now (stage - 1) cell limit }
{
    pipeline.facts();
    let before = stage as usize - 1;
    let own = &pipeline.stages()[before];
    let place = place_of(own, cell);
    let Some(input) = least_bringing(alloc, pipeline, before, place, limit)? else {
        return Ok(Explained::NoWord);
    };
    let run = shown_run(alloc, pipeline, before, cell, &input)?;
    Ok(Explained::Shown {
        input,
        run: Items::from_vec(run),
    })
}
