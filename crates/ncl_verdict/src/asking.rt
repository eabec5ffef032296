//! What is asked of a variant, over what earlier variants made while that is little.
ghost use Rattle.std.specs.Prelude.{◌≡◌, ◌<◌, ℕ, [], ◌∷◌, IfOk, IsErrOf, IsTrue, OnOk, Option, false, true};
ghost use Rattle.ncl_space.specs.Space.{Keeps, fits, is_within};
ghost use Rattle.ncl_faults.specs.Faults.{StageFault};
ghost use Rattle.ncl_stage.specs.LeastWords.{faults_of, least_word_by};
ghost use Rattle.ncl_stage.specs.StageTables.{AreValues};
ghost use Rattle.ncl_stage.specs.Tables.{count, tables_by};
ghost use Rattle.ncl_verdict.specs.InSpace.{AskedData, IsAfterBase, IsAsked};

use crate::asked::Asked;
use ncl_base::Word;
use ncl_complete::incomplete_word;
use ncl_orphan::orphan_word;
use ncl_space::{Mark, Space, SpaceFault};
use ncl_stage::Variant;
use std::alloc::Global;

/// How many nodes of variants may stay, where Base has no more than so many.
const NODES_THAT_STAY: u32 = 1 << 13;

const SMALL_BASE: u32 = 1 << 12;

/// The least word that shows the fault of a variant after Base, if there is one, in the order of the functions of Base: that all
/// outputs are DATA without an input bit, or that a cell is high though they are DATA without it. What the space made for
/// earlier variants may be there too. `Full` comes exactly where the nodes of Base and of this variant are more than the limit:
/// what is too much over earlier variants is asked again over Base alone. It goes over the cells once, or twice.
pub(crate) fn asked_word<P: Space>(
    alloc: Global,
    space: &mut P,
    asked: &Asked,
    variant: Variant,
) -> Result<Option<Word>, SpaceFault>
    requires asked { let now = P.meaning space.old in IsAsked now now.limit asked.now }
    requires after { IsAfterBase asked.now.stage variant }
    ensures word { (fault : StageFault) → faults_of asked.now.stage variant ≡ fault ∷ [] → IfOk result (λ word. word ≡ least_word_by asked.now.base.wiring.order asked.now.stage fault) }
    ensures full { IsErrOf result SpaceFault.Full → is_within (P.meaning space.old).limit (count asked.now.stage variant) ≡ false }
    ensures fits { OnOk result (is_within (P.meaning space.old).limit (count asked.now.stage variant) ≡ true) }
    ensures asked { IsAsked (P.meaning space.new) (P.meaning space.old).limit asked.now }
{
    space.facts();
    let start = asked.start();
    match word_over(alloc, space, asked, variant) {
        Ok(word) => {
            make_room(space, start);
            Ok(word)
        }
        Err(SpaceFault::Memory) => Err(SpaceFault::Memory),
        Err(SpaceFault::Full) => {
            space.release(start);
            word_over(alloc, space, asked, variant)
        }
    }
}

/// The same over all that the space holds. What is made stays.
fn word_over<P: Space>(
    alloc: Global,
    space: &mut P,
    asked: &Asked,
    variant: Variant,
) -> Result<Option<Word>, SpaceFault>
    requires base { AreValues (P.meaning space.old) asked.now.stage Variant.Base asked.now.base }
    requires after { IsAfterBase asked.now.stage variant }
    ensures word { (fault : StageFault) → faults_of asked.now.stage variant ≡ fault ∷ [] → IfOk result (λ word. word ≡ least_word_by asked.now.base.wiring.order asked.now.stage fault) }
    ensures kept { Keeps (P.meaning space.old) (P.meaning space.new) }
    ensures full { IsErrOf result SpaceFault.Full → fits (P.meaning space.old) (tables_by asked.now.base.wiring.order asked.now.stage variant) ≡ false }
    ensures fits { OnOk result (fits (P.meaning space.old) (tables_by asked.now.base.wiring.order asked.now.stage variant) ≡ true) }
{
    let stage = asked.stage();
    let base = asked.base();
    match variant {
        Variant::Base => Ok(None),
        Variant::Bit(bit) => incomplete_word(alloc, space, stage, base, bit),
        Variant::Cell(cell) => orphan_word(alloc, space, stage, base, cell),
    }
}

/// Goes back to Base where much was made since, or where Base itself is large. Takes no memory.
fn make_room<P: Space>(space: &mut P, start: Mark)
    requires { IsTrue ((P.meaning space.old).stands start) }
    ensures { (limit : Option ℕ) (asked : AskedData) → asked.start ≡ start → IsAsked (P.meaning space.old) limit asked → IsAsked (P.meaning space.new) limit asked }
{
    let made = space.mark().count - start.count;
    if start.count > SMALL_BASE || made > NODES_THAT_STAY {
        space.release(start);
    }
}
