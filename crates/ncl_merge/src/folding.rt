//! Folding the cells of a stage.
ghost use Rattle.std.specs.Prelude.{All, ◌||◌, ◌+◌, ◌++◌, [], ◌∷◌, drop, IfOk, true, false, ◌≡◌, ◌<◌, ◌≤◌, length, set, Some, None, slice_get, MatchOption};
ghost use Rattle.ncl_netlist.specs.declared.ids.NetId.{NetId};
ghost use Rattle.ncl_shape.specs.declared.stage.StageCell.{StageCell as Cell};
ghost use Rattle.ncl_cell_rules.specs.Tables.{IsTable};
ghost use Rattle.ncl_merge.specs.Fold.{FoldsTo, pins_of};
ghost use Rattle.ncl_merge.specs.Folding.{HasNoFoldable, AreFewer, AreFoldsOf, AreAllFolds, with_slot, HasNoneIn, IsFoldedStage, with_gate, IsFolding, CountsPins, IsFoldedAt, HasNoneAt, HasNone, present};

use crate::counts::{all_pins, put_places};
use crate::joint::Joint;
use crate::search::{Gate, compose};
use crate::tabled_stage::TabledStage;
use ncl_base::{Items, Memory};
use ncl_shape::{Pipeline, Stage, StageCell};
use std::alloc::Global;

/// The cell in a slot, if one is there.
fn cell_at(done: &[Option<StageCell>], place: usize) -> Option<&StageCell>
    ensures { MatchOption result ((g : Cell) → slice_get done.now place ≡ Some (Some g) → ⊥) (λ g. slice_get done.now place ≡ Some (Some g.now)) }
{
    if done.len() <= place {
        return None;
    }
    done[place].as_ref()
}

/// The gate that the cell in a slot is folded with into another, if it drives the net of this pin of that.
fn fold_at(
    tabled: &TabledStage,
    done: &[Option<StageCell>],
    cell: &StageCell,
    pin: usize,
    place: usize,
) -> Option<Gate>
    requires folding { IsFolding tabled.now.stage done.now cell.now }
    requires pin { pin < length cell.now.ins.items }
    requires one { (net : NetId) → slice_get cell.now.ins.items pin ≡ Some net → slice_get tabled.now.pins net.0 ≡ Some 1 }
    ensures { MatchOption result ((net : NetId) → slice_get cell.now.ins.items pin ≡ Some net → HasNoneAt done.now cell.now place net) (λ gate. IsFoldedAt tabled.now.stage done.now cell.now place gate.kind gate.ins.items) }
{
    tabled.facts();
    let driver = cell_at(done, place)?;
    if driver.out != cell.ins[pin] {
        return None;
    }
    let joint = Joint {
        driver,
        reader: cell,
        pin,
    };
    compose(&joint)
}

/// A slot whose cell is folded, and the gate that it is folded with into another.
#[derive(Drop)]
pub(crate) struct Fold {
    pub place: usize,
    pub gate: Gate,
}

/// The first slot whose cell can be folded into the next cell, where counts of pins and places of cells tell which are tried.
fn find_fold(tabled: &TabledStage, done: &[Option<StageCell>], cell: &StageCell) -> Option<Fold>
    requires { IsFolding tabled.now.stage done.now cell.now }
    ensures { MatchOption result (HasNone tabled.now done.now cell.now) (λ fold. IsFoldedAt tabled.now.stage done.now cell.now fold.place fold.gate.kind fold.gate.ins.items) }
{
    for (pin, net) in cell.ins.iter().enumerate() {
        if let Some(place) = tabled.place_of(*net) {
            if let Some(gate) = fold_at(tabled, done, cell, pin, place) {
                return Some(Fold { place, gate });
            }
        }
    }
    None
}

/// Empties a slot.
fn empty(done: &mut Vec<Option<StageCell>>, place: usize)
    requires { place < length done.old.items }
    ensures { done.new.items ≡ set done.old.items place None }
{
    done[place] = None;
}

/// The cell with another gate.
fn with_gate(cell: StageCell, gate: Gate) -> StageCell
    ensures { result ≡ with_gate cell gate.kind gate.ins.items }
{
    let StageCell {
        cell: number,
        out,
        ..
    } = cell;
    let Gate { kind, ins } = gate;
    StageCell {
        cell: number,
        kind,
        ins,
        out,
    }
}

/// A cell, and whether others were folded into it.
#[derive(Drop)]
pub(crate) struct Folded {
    pub cell: StageCell,
    pub folded: bool,
}

/// Folds into the next cell those in the slots that can be folded into it.
fn fold_into(tabled: &TabledStage, done: &mut Vec<Option<StageCell>>, cell: StageCell) -> Folded
    requires { IsFolding tabled.now.stage done.old.items cell }
    ensures folding { IsFolding tabled.now.stage done.new.items result.cell }
    ensures long { length done.new.items ≡ length done.old.items }
    ensures few { length (present done.new.items) ≤ length (present done.old.items) }
    ensures fewer { result.folded ≡ true → length (present done.new.items) < length (present done.old.items) }
    ensures same { result.folded ≡ false → (done.new.items ≡ done.old.items) × (result.cell ≡ cell) × HasNone tabled.now done.old.items cell }
{
    let mut cell = cell;
    let mut folded = false;
    while let Some(fold) = find_fold(tabled, done, &cell) {
        empty(done, fold.place);
        cell = with_gate(cell, fold.gate);
        folded = true;
    }
    Folded { cell, folded }
}

/// The same cell once more.
pub(crate) fn copied(cell: &StageCell) -> Result<StageCell, Memory>
    ensures { IfOk result (λ copy. copy ≡ cell.now) }
{
    Ok(cell.clone()?)
}

/// Adds the cell of a slot, if it has one.
fn add_present(cells: &mut Vec<StageCell>, slot: &Option<StageCell>) -> Result<(), Memory>
    ensures { IfOk result (λ _. cells.new.items ≡ cells.old.items ++ with_slot slot.now []) }
{
    if let Some(cell) = slot {
        cells.push(copied(cell)?)?;
    }
    Ok(())
}

/// The cells in the slots.
fn present(alloc: Global, done: &[Option<StageCell>]) -> Result<Vec<StageCell>, Memory>
    ensures { IfOk result (λ cells. cells.items ≡ present done.now) }
{
    let mut cells = Vec::with_capacity(alloc, done.len())?;
    for slot in done {
        add_present(&mut cells, slot)?;
    }
    Ok(cells)
}

/// Folds into the next cell of the stage those in the slots, and puts it into a slot; whether there were any.
fn put_next(
    tabled: &TabledStage,
    done: &mut Vec<Option<StageCell>>,
    cell: StageCell,
) -> Result<bool, Memory>
    requires { IsFolding tabled.now.stage done.old.items cell }
    ensures folding { IfOk result (λ _. FoldsTo tabled.now.stage (present done.new.items ++ drop (length done.old.items + 1) tabled.now.stage.cells)) }
    ensures long { IfOk result (λ _. length done.new.items ≡ length done.old.items + 1) }
    ensures few { IfOk result (λ _. length (present done.new.items) ≤ length (present done.old.items) + 1) }
    ensures fewer { IfOk result (λ folded. folded ≡ true → length (present done.new.items) < length (present done.old.items) + 1) }
    ensures same { IfOk result (λ folded. folded ≡ false → (done.new.items ≡ done.old.items ++ Some cell ∷ []) × HasNone tabled.now done.old.items cell) }
{
    let next = fold_into(tabled, done, cell);
    done.push(Some(next.cell))?;
    Ok(next.folded)
}

/// The cells of the stage.
pub(crate) fn cells_of(stage: &Stage) -> &[StageCell]
    ensures { result.now ≡ stage.now.cells }
{
    stage.cells.items()
}

/// The cells of a stage after folds, or `None` where no cell can be folded whose net is counted once. Each cell is looked
/// at once, and once more for each that is folded into it.
fn fold_stage(alloc: Global, tabled: &TabledStage) -> Result<Option<Vec<StageCell>>, Memory>
    ensures { IfOk result (λ found. MatchOption found (HasNoneIn tabled.now.stage tabled.now.pins) (λ cells. IsFoldedStage tabled.now.stage cells.items)) }
{
    tabled.facts();
    let cells = tabled.cells();
    let mut done: Vec<Option<StageCell>> = Vec::with_capacity(alloc, cells.len())?;
    let mut folded = false;
    for cell in cells {
        if put_next(tabled, &mut done, copied(cell)?)? {
            folded = true;
        }
    }
    if folded {
        Ok(Some(present(alloc, &done)?))
    } else {
        Ok(None)
    }
}

/// The same, where a table has room for the place of each cell at its net.
pub(crate) fn fold_next_stage(
    alloc: Global,
    stage: &Stage,
    pins: &[u32],
    places: &mut [usize],
) -> Result<Option<Vec<StageCell>>, Memory>
    requires counts { CountsPins stage.now pins.now }
    requires inside { All (λ (c : Cell). c.out.0 < length places.old) stage.now.cells }
    ensures { IfOk result (λ found. MatchOption found (HasNoneIn stage.now pins.now) (λ cells. IsFoldedStage stage.now cells.items)) }
{
    stage.facts();
    put_places(places, cells_of(stage));
    let tabled = TabledStage {
        stage,
        pins,
        places,
    };
    fold_stage(alloc, &tabled)
}

/// The cells of a stage, and whether any were folded.
#[derive(Drop)]
pub(crate) struct StageFolds {
    pub cells: Items<StageCell>,
    pub folded: bool,
}

/// Some cells once more.
fn copied_all(alloc: Global, cells: &[StageCell]) -> Result<Vec<StageCell>, Memory>
    ensures { IfOk result (λ copy. copy.items ≡ cells.now) }
{
    Ok(cells.to_vec(alloc)?)
}

/// The cells of a stage after folds, which are its own where no cell can be folded.
fn fold_or_copy(
    alloc: Global,
    stage: &Stage,
    pins: &[u32],
    places: &mut [usize],
) -> Result<StageFolds, Memory>
    requires counts { CountsPins stage.now pins.now }
    requires inside { All (λ (c : Cell). c.out.0 < length places.old) stage.now.cells }
    ensures { IfOk result (λ folds. AreFoldsOf stage.now pins.now folds.cells folds.folded) }
{
    match fold_next_stage(alloc, stage, pins, places)? {
        Some(cells) => Ok(StageFolds {
            cells: Items::from_vec(cells),
            folded: true,
        }),
        None => Ok(StageFolds {
            cells: Items::from_vec(copied_all(alloc, cells_of(stage))?),
            folded: false,
        }),
    }
}

/// The folds of all stages.
#[derive(Drop)]
pub(crate) struct AllFolds {
    pub stages: Vec<Items<StageCell>>,
    pub folded: bool,
}

/// Puts the folds of one stage behind those of others.
fn put_folds(all: &mut AllFolds, next: StageFolds) -> Result<(), Memory>
    ensures stages { IfOk result (λ _. all.new.stages.items ≡ all.old.stages.items ++ next.cells ∷ []) }
    ensures folded { all.new.folded ≡ all.old.folded || next.folded }
{
    if next.folded {
        all.folded = true;
    }
    all.stages.push(next.cells)?;
    Ok(())
}

/// Folds what can be folded in each stage of a pipeline, once. Near linear in the cells. The only error is want of memory.
pub(crate) fn fold_stages(
    alloc: Global,
    pipeline: &Pipeline,
    pins: &[u32],
    places: &mut [usize],
) -> Result<AllFolds, Memory>
    requires pins { IsTable pipeline.now.netlist 0 (pins_of pipeline.now.netlist) pins.now }
    requires places { length places.old ≡ length pipeline.now.netlist.nets }
    ensures { IfOk result (λ all. AreAllFolds pipeline.now.stages pins.now all.stages.items all.folded (length pipeline.now.stages)) }
{
    let mut all = AllFolds {
        stages: Vec::new(alloc),
        folded: false,
    };
    for stage in pipeline.stages() {
        let next = fold_or_copy(alloc, stage, pins, places)?;
        put_folds(&mut all, next)?;
    }
    Ok(all)
}

/// Folds what can be folded in a pipeline, once: the cells of its stages after it, or `None` where nothing is foldable.
///
/// Near linear in the nets and cells. The only error is want of memory.
pub fn fold_pipeline(
    alloc: Global,
    pipeline: &Pipeline,
) -> Result<Option<Vec<Items<StageCell>>>, Memory>
    ensures { IfOk result (λ found. MatchOption found (HasNoFoldable pipeline.now) (λ lists. AreFewer pipeline.now.stages lists.items)) }
{
    let netlist = pipeline.netlist();
    let pins = all_pins(alloc, netlist)?;
    let mut places = vec![in alloc; 0; netlist.nets().len()]?;
    let all = fold_stages(alloc, pipeline, &pins, &mut places)?;
    if all.folded {
        Ok(Some(all.stages))
    } else {
        Ok(None)
    }
}
