//! The least word that shows an orphan of a stage.
ghost use Rattle.std.specs.Prelude.{◌≡◌, ◌<◌, ◌≤◌, IfOk, IsErrOf, OnOk, Some, length, slice_get};
ghost use Rattle.ncl_shape.specs.Stage.{StageData};
ghost use Rattle.ncl_hazard.specs.Explained.{AreSoundBefore};
ghost use Rattle.ncl_hazard.specs.Why.{least_input, why_count};
ghost use Rattle.ncl_faults.specs.Faults.{Orphan as IsOrphan};
ghost use Rattle.ncl_stage.specs.LeastWords.{least_word_by};
ghost use Rattle.ncl_hazard.specs.Search.{ascending, made_count};

use crate::joining::joined_stage;
use ncl_base::Word;
use ncl_diagram::Diagram;
use ncl_orphan::orphan;
use ncl_shape::{Pipeline, Stage};
use ncl_space::SpaceFault;
use ncl_stage::{BitOrder, Variant, values_in};
use std::alloc::Global;

/// The least word, as a binary number, at which a cell of a stage is high and nothing observes it, if there is one.
///
/// It goes over the cells twice, by diagrams with at most `limit` nodes. `Full` comes exactly where the functions of all
/// nets, and those that are asked without the cell, have more.
pub(crate) fn least_showing(
    alloc: Global,
    stage: &Stage,
    cell: usize,
    limit: u32,
) -> Result<Option<Word>, SpaceFault>
    requires cell { cell < length stage.now.cells }
    requires limit { 1 ≤ limit }
    ensures word { IfOk result (λ word. word ≡ least_word_by (ascending stage.now) stage.now (IsOrphan cell)) }
    ensures few { OnOk result (made_count stage.now cell ≤ limit) }
    ensures full { IsErrOf result SpaceFault.Full → limit < made_count stage.now cell }
{
    stage.facts();
    let bits = stage.inputs.items().len();
    let order = BitOrder::ascending(alloc, bits)?;
    let mut space = Diagram::new(alloc, bits, limit);
    let base = values_in(alloc, &mut space, stage, order, Variant::Base)?;
    orphan(alloc, &mut space, stage, &base, cell)
}

/// The least input that brings to the stage after so many others a word that shows an orphan, the gate at a place of the
/// stage, if some input does. The stages before are sound.
///
/// It goes twice over the cells of the stages on the way, by diagrams with at most `limit` nodes. `Full` comes exactly
/// where the functions of an explanation have more.
pub(crate) fn least_bringing(
    alloc: Global,
    pipeline: &Pipeline,
    before: usize,
    place: usize,
    limit: u32,
) -> Result<Option<Word>, SpaceFault>
    requires within { before < length pipeline.now.stages }
    requires sound { AreSoundBefore pipeline.now before }
    requires cell { (s : StageData) → slice_get pipeline.now.stages before ≡ Some s → place < length s.cells }
    requires limit { 1 ≤ limit }
    ensures word { (s : StageData) → slice_get pipeline.now.stages before ≡ Some s → IfOk result (λ word. word ≡ least_input pipeline.now before s place) }
    ensures few { OnOk result (why_count pipeline.now before place ≤ limit) }
    ensures full { IsErrOf result SpaceFault.Full → limit < why_count pipeline.now before place }
{
    pipeline.facts();
    let joined = joined_stage(alloc, pipeline, before + 1)?;
    let own = &pipeline.stages()[before];
    let cell = joined.cells.items().len() - own.cells.items().len() + place;
    least_showing(alloc, &joined, cell, limit)
}
