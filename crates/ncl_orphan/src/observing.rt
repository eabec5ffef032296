//! Observability.
ghost use Rattle.std.specs.Prelude.{◌≡◌, ◌<◌, IfOk, IsErrOf, OnOk, false, length, true};
ghost use Rattle.std.specs.Option.{option_map};
ghost use Rattle.ncl_space.specs.Functions.{least};
ghost use Rattle.ncl_space.specs.Space.{IsLive, Keeps, Restores, fits};
ghost use Rattle.ncl_stage.specs.BitOrder.{placed};
ghost use Rattle.ncl_faults.specs.Faults.{Orphan};
ghost use Rattle.ncl_stage.specs.LeastWords.{least_word_by};
ghost use Rattle.ncl_stage.specs.StageTables.{AreValues};
ghost use Rattle.ncl_stage.specs.Tables.{tables_by};

use ncl_base::Word;
use ncl_gates::Kind;
use ncl_shape::Stage;
use ncl_space::{Ref, Space, SpaceFault};
use ncl_stage::{Values, Variant, all_data, least_one};
use std::alloc::Global;

/// The least word at which a cell is high though all outputs are DATA without it, if there is one: the least in the
/// order of `base`, which has the values of the stage under Base. The cell is a place in the stage's cells, and the word
/// has the bits of the bank in their order.
///
/// It goes over the cells once, and evaluates only those that a changed net reaches. It makes the functions
/// of all nets without the cell, of the DATA of each output, of their conjunctions, and of the cell with the
/// last of these, before it looks for a word.
/// `Full` comes exactly where the beads held with those of all these functions are more than the limit.
/// Whatever the answer, the space is as it was.
pub fn orphan<P: Space>(
    alloc: Global,
    space: &mut P,
    stage: &Stage,
    base: &Values,
    cell: usize,
) -> Result<Option<Word>, SpaceFault>
    requires base { AreValues (P.meaning space.old) stage.now Variant.Base base.now }
    requires cell { cell < length stage.now.cells }
    ensures word { IfOk result (λ word. word ≡ least_word_by base.now.wiring.order stage.now (Orphan cell)) }
    ensures back { Restores (P.meaning space.old) (P.meaning space.new) }
    ensures full { IsErrOf result SpaceFault.Full → fits (P.meaning space.old) (tables_by base.now.wiring.order stage.now (Variant.Cell cell)) ≡ false }
    ensures fits { OnOk result (fits (P.meaning space.old) (tables_by base.now.wiring.order stage.now (Variant.Cell cell)) ≡ true) }
{
    let start = space.mark();
    let word = orphan_word(alloc, space, stage, base, cell);
    space.release(start);
    word
}

/// The same, but what was made stays, whatever the answer: the caller goes back where it wants.
pub fn orphan_word<P: Space>(
    alloc: Global,
    space: &mut P,
    stage: &Stage,
    base: &Values,
    cell: usize,
) -> Result<Option<Word>, SpaceFault>
    requires base { AreValues (P.meaning space.old) stage.now Variant.Base base.now }
    requires cell { cell < length stage.now.cells }
    ensures word { IfOk result (λ word. word ≡ least_word_by base.now.wiring.order stage.now (Orphan cell)) }
    ensures kept { Keeps (P.meaning space.old) (P.meaning space.new) }
    ensures full { IsErrOf result SpaceFault.Full → fits (P.meaning space.old) (tables_by base.now.wiring.order stage.now (Variant.Cell cell)) ≡ false }
    ensures fits { OnOk result (fits (P.meaning space.old) (tables_by base.now.wiring.order stage.now (Variant.Cell cell)) ≡ true) }
{
    stage.facts();
    space.facts();
    let high = unobserved(alloc, space, stage, base, cell)?;
    Ok(least_one(space, base.order(), high))
}

/// That the cell is high, and all outputs are DATA without it. What is made before a refusal stays.
fn unobserved<P: Space>(
    alloc: Global,
    space: &mut P,
    stage: &Stage,
    base: &Values,
    cell: usize,
) -> Result<Ref, SpaceFault>
    requires base { AreValues (P.meaning space.old) stage.now Variant.Base base.now }
    requires cell { cell < length stage.now.cells }
    ensures live { IfOk result (IsLive (P.meaning space.new)) }
    ensures least { IfOk result (λ r. option_map (placed base.now.wiring.order) (least true (length stage.now.inputs) ((P.meaning space.new).table r)) ≡ least_word_by base.now.wiring.order stage.now (Orphan cell)) }
    ensures kept { Keeps (P.meaning space.old) (P.meaning space.new) }
    ensures full { IsErrOf result SpaceFault.Full → fits (P.meaning space.old) (tables_by base.now.wiring.order stage.now (Variant.Cell cell)) ≡ false }
    ensures fits { OnOk result (fits (P.meaning space.old) (tables_by base.now.wiring.order stage.now (Variant.Cell cell)) ≡ true) }
{
    stage.facts();
    space.facts();
    let all = all_data(alloc, space, stage, base, Variant::Cell(cell))?;
    let high = base.of(stage.cells.items()[cell].out);
    space.apply(Kind::Th22, &[high, all])
}
