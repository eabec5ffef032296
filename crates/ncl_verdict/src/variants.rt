//! The variants of a stage, and what is said at one of them.
ghost use Rattle.std.specs.Prelude.{◌≡◌, ◌<◌, ◌++◌, [], ◌∷◌, All, IfOk, OnOk, Some, length, map, slice_get};
ghost use Rattle.ncl_faults.specs.Faults.{StageFault};
ghost use Rattle.ncl_stage.specs.LeastWords.{below, faults_of};
ghost use Rattle.ncl_verdict.specs.InSpace.{IsAfterBase, IsAsked, stopped_within};
ghost use Rattle.ncl_verdict.specs.Judgement.{after_base, at_variant, cell_number, first_of, verdict_of};

use crate::asked::Asked;
use crate::asking::asked_word;
use crate::file_order::cells_in_file_order;
use crate::verdict::Verdict;
use ncl_base::{Memory, Word};
use ncl_netlist::CellId;
use ncl_shape::Stage;
use ncl_space::{Space, SpaceFault};
use ncl_stage::Variant;
use std::alloc::Global;

/// The variants of a stage after Base in their order: without each input bit, then without each cell in the order of the file.
/// An error is want of memory.
///
/// Takes time for sorting the cells.
pub fn variants_after_base(alloc: Global, stage: &Stage) -> Result<Vec<Variant>, Memory>
    ensures { IfOk result (λ variants. variants.items ≡ after_base stage.now) }
{
    let cells = cells_in_file_order(alloc, stage)?;
    let mut variants = Vec::new(alloc);
    push_bits(&mut variants, stage.inputs.items().len())?;
    push_cells(&mut variants, cells.as_slice())?;
    Ok(variants)
}

/// Puts so many input bits after some variants.
fn push_bits(variants: &mut Vec<Variant>, bits: usize) -> Result<(), Memory>
    ensures { OnOk result (variants.new.items ≡ variants.old.items ++ map Variant.Bit (below bits)) }
{
    for bit in 0..bits {
        variants.push(Variant::Bit(bit))?;
    }
    Ok(())
}

/// Puts cells, told by number and place, after some variants.
fn push_cells(variants: &mut Vec<Variant>, cells: &[(u32, usize)]) -> Result<(), Memory>
    ensures { OnOk result (variants.new.items ≡ variants.old.items ++ map (λ cell. Variant.Cell cell.1) cells.now) }
{
    for (_, place) in cells {
        variants.push(Variant::Cell(*place))?;
    }
    Ok(())
}

/// What is said at some variants after Base, in their order: the first that is said. An error is want of memory.
///
/// For each of them it goes over the cells once, or twice.
pub(crate) fn first_said<P: Space>(
    alloc: Global,
    space: &mut P,
    asked: &Asked,
    variants: &[Variant],
) -> Result<Option<Verdict>, Memory>
    requires asked { let now = P.meaning space.old in IsAsked now now.limit asked.now }
    requires after { All (IsAfterBase asked.now.stage) variants.now }
    ensures { IfOk result (λ answer. answer ≡ first_of (map (at_variant (stopped_within (P.meaning space.old).limit) asked.now.stage) variants.now)) }
{
    for variant in variants {
        if let Some(verdict) = said_at(alloc, space, asked, *variant)? {
            return Ok(Some(verdict));
        }
    }
    Ok(None)
}

/// What is said at a variant after Base, if anything is. What the space made for earlier variants may be there too. An error is
/// want of memory.
///
/// It goes over the cells once, or twice.
pub(crate) fn said_at<P: Space>(
    alloc: Global,
    space: &mut P,
    asked: &Asked,
    variant: Variant,
) -> Result<Option<Verdict>, Memory>
    requires asked { let now = P.meaning space.old in IsAsked now now.limit asked.now }
    requires after { IsAfterBase asked.now.stage variant }
    ensures answer { IfOk result (λ answer. answer ≡ at_variant (stopped_within (P.meaning space.old).limit) asked.now.stage variant) }
    ensures asked { IsAsked (P.meaning space.new) (P.meaning space.old).limit asked.now }
{
    let stage = asked.stage();
    match asked_word(alloc, space, asked, variant) {
        Ok(Some(word)) => Ok(told(stage, variant, word)),
        Ok(None) => Ok(None),
        Err(fault) => stopped(stage, fault),
    }
}

/// What a word says that shows the fault of a variant after Base.
fn told(stage: &Stage, variant: Variant, word: Word) -> Option<Verdict>
    requires { IsAfterBase stage.now variant }
    ensures { (fault : StageFault) → faults_of stage.now variant ≡ fault ∷ [] → result ≡ Some (verdict_of stage.now fault word) }
{
    stage.facts();
    match variant {
        Variant::Base => None,
        Variant::Bit(bit) => Some(Verdict::Incomplete {
            stage: stage.number,
            bit: bit as u32 + 1,
            word,
        }),
        Variant::Cell(cell) => Some(Verdict::Orphan {
            stage: stage.number,
            cell: cell_at(stage, cell),
            word,
        }),
    }
}

/// What a refusal of the space says: that the limit is passed, if it isn't want of memory.
pub(crate) fn stopped(stage: &Stage, fault: SpaceFault) -> Result<Option<Verdict>, Memory>
    ensures { IfOk result (λ answer. (fault ≡ SpaceFault.Full) × (answer ≡ Some (Verdict.Limit stage.now.number))) }
{
    match fault {
        SpaceFault::Full => Ok(Some(Verdict::Limit {
            stage: stage.number,
        })),
        SpaceFault::Memory => Err(Memory),
    }
}

/// The cell at a place of a stage, by its number.
fn cell_at(stage: &Stage, place: usize) -> CellId
    requires { place < length stage.now.cells }
    ensures { result ≡ cell_number (slice_get stage.now.cells place) }
{
    stage.cells.items()[place].cell
}
