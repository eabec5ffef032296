//! Input-completeness.
ghost use Rattle.std.specs.Prelude.{◌≡◌, ◌<◌, IfOk, IsErrOf, OnOk, false, length, true};
ghost use Rattle.ncl_space.specs.Space.{Keeps, Restores, fits};
ghost use Rattle.ncl_faults.specs.Faults.{Incomplete};
ghost use Rattle.ncl_stage.specs.LeastWords.{least_word_by};
ghost use Rattle.ncl_stage.specs.StageTables.{AreValues};
ghost use Rattle.ncl_stage.specs.Tables.{tables_by};

use ncl_base::Word;
use ncl_shape::Stage;
use ncl_space::{Space, SpaceFault};
use ncl_stage::{Values, Variant, all_data, least_one};
use std::alloc::Global;

/// The least word at which all outputs are DATA though an input bit is NULL, if there is one: the least in the order of
/// `base`, which has the values of the stage under Base. The bit counts from 0, and the word has the bits of the bank in
/// their order.
///
/// It goes over the cells once, and evaluates only those that a changed net reaches. It makes the functions
/// of all nets without the bit, of the DATA of each output and of their conjunctions before it looks for a
/// word. `Full` comes exactly where the beads held with those of all these functions are more than the limit. Whatever
/// the answer, the space is as it was.
pub fn input_complete<P: Space>(
    alloc: Global,
    space: &mut P,
    stage: &Stage,
    base: &Values,
    bit: usize,
) -> Result<Option<Word>, SpaceFault>
    requires base { AreValues (P.meaning space.old) stage.now Variant.Base base.now }
    requires bit { bit < length stage.now.inputs }
    ensures word { IfOk result (λ word. word ≡ least_word_by base.now.wiring.order stage.now (Incomplete bit)) }
    ensures back { Restores (P.meaning space.old) (P.meaning space.new) }
    ensures full { IsErrOf result SpaceFault.Full → fits (P.meaning space.old) (tables_by base.now.wiring.order stage.now (Variant.Bit bit)) ≡ false }
    ensures fits { OnOk result (fits (P.meaning space.old) (tables_by base.now.wiring.order stage.now (Variant.Bit bit)) ≡ true) }
{
    let start = space.mark();
    let word = incomplete_word(alloc, space, stage, base, bit);
    space.release(start);
    word
}

/// The same, but what was made stays, whatever the answer: the caller goes back where it wants.
pub fn incomplete_word<P: Space>(
    alloc: Global,
    space: &mut P,
    stage: &Stage,
    base: &Values,
    bit: usize,
) -> Result<Option<Word>, SpaceFault>
    requires base { AreValues (P.meaning space.old) stage.now Variant.Base base.now }
    requires bit { bit < length stage.now.inputs }
    ensures word { IfOk result (λ word. word ≡ least_word_by base.now.wiring.order stage.now (Incomplete bit)) }
    ensures kept { Keeps (P.meaning space.old) (P.meaning space.new) }
    ensures full { IsErrOf result SpaceFault.Full → fits (P.meaning space.old) (tables_by base.now.wiring.order stage.now (Variant.Bit bit)) ≡ false }
    ensures fits { OnOk result (fits (P.meaning space.old) (tables_by base.now.wiring.order stage.now (Variant.Bit bit)) ≡ true) }
{
    stage.facts();
    space.facts();
    let all = all_data(alloc, space, stage, base, Variant::Bit(bit))?;
    Ok(least_one(space, base.order(), all))
}
