//! The faults of a stage over the inputs of the chain that it ends.
ghost use Rattle.std.specs.Prelude.{◌≡◌, ◌<◌, ◌≤◌, ◌+◌, All, IfOk, IsErrOf, length, map};
ghost use Rattle.std.specs.Option.{option_map};
ghost use Rattle.ncl_diagram.specs.Diagram.{diagram_space};
ghost use Rattle.ncl_space.specs.Space.{Restores};
ghost use Rattle.ncl_faults.specs.declared.variant.Variant.{Variant as StageVariant};
ghost use Rattle.ncl_faults.specs.Faults.{Orphan as IsOrphan};
ghost use Rattle.ncl_stage.specs.LeastWords.{faults_of, first_of, least_word_by};
ghost use Rattle.ncl_stage.specs.StageTables.{AreValues};
ghost use Rattle.ncl_verdict.specs.InSpace.{IsAfterBase};
ghost use Rattle.ncl_hazard.specs.Search.{ascending, question_count};
ghost use Rattle.ncl_reaching.specs.Asking.{EndsWith, IsPast, inputs_of_chain, lesser, shown_of};
ghost use Rattle.ncl_reaching.specs.Reaching.{first_at, first_shown, shown_by};

use crate::fault::{Fault, Found};
use crate::lesser::lesser;
use ncl_base::Word;
use ncl_complete::{RailFault, valid_rails};
use ncl_diagram::Diagram;
use ncl_orphan::orphan;
use ncl_shape::Stage;
use ncl_space::{Space, SpaceFault};
use ncl_stage::{BitOrder, Values, Variant, values_in};
use ncl_verdict::variants_after_base;
use std::alloc::Global;

/// A stage at the end of a chain, and the functions of the chain's nets under Base.
#[derive(Drop)]
struct Ending<'a> {
    chain: &'a Stage,
    stage: &'a Stage,
    base: &'a Values,
}

/// The first fault of the stage at the end of a chain that some input shows, in the order of the judgement, with the least such
/// input as a binary number.
///
/// For each input bit of the stage twice, and for each gate of it once, it goes over the gates of the chain that a change reaches,
/// by diagrams with at most `limit` nodes. `Full` comes only where the functions of some question have more.
pub(crate) fn ask(
    alloc: Global,
    chain: &Stage,
    stage: &Stage,
    limit: u32,
) -> Result<Option<Found>, SpaceFault>
    requires ends { EndsWith chain.now stage.now }
    requires limit { 1 ≤ limit }
    ensures found { IfOk result (λ found. option_map shown_of found ≡ first_shown (inputs_of_chain (ascending chain.now) chain.now stage.now) stage.now) }
    ensures full { IsErrOf result SpaceFault.Full → (variant : StageVariant) × (limit < question_count chain.now variant) }
{
    chain.facts();
    let bits = chain.inputs.items().len();
    let order = BitOrder::ascending(alloc, bits)?;
    let mut space = Diagram::new(alloc, bits, limit);
    let base = values_in(alloc, &mut space, chain, order, Variant::Base)?;
    let ending = Ending {
        chain,
        stage,
        base: &base,
    };
    found_over(alloc, &mut space, &ending)
}

/// The same over the functions under Base.
fn found_over(
    alloc: Global,
    space: &mut Diagram,
    ending: &Ending,
) -> Result<Option<Found>, SpaceFault>
    requires base { AreValues (diagram_space space.old) ending.now.chain.now Variant.Base ending.now.base.now }
    requires ends { EndsWith ending.now.chain.now ending.now.stage.now }
    ensures found { IfOk result (λ found. option_map shown_of found ≡ first_shown (inputs_of_chain ending.now.base.now.wiring.order ending.now.chain.now ending.now.stage.now) ending.now.stage.now) }
    ensures full { IsErrOf result SpaceFault.Full → IsPast (diagram_space space.old) ending.now.base.now.wiring.order ending.now.chain.now }
{
    if let Some(found) = found_in_outputs(alloc, space, ending.chain, ending.base)? {
        return Ok(Some(found));
    }
    let variants = variants_after_base(alloc, ending.stage)?;
    first_found(alloc, space, ending, variants.as_slice())
}

/// The first fault of an output that some input shows, with the least such input.
fn found_in_outputs(
    alloc: Global,
    space: &mut Diagram,
    chain: &Stage,
    base: &Values,
) -> Result<Option<Found>, SpaceFault>
    requires base { AreValues (diagram_space space.old) chain.now Variant.Base base.now }
    ensures found { IfOk result (λ found. option_map shown_of found ≡ first_of (map (shown_by (least_word_by base.now.wiring.order chain.now)) (faults_of chain.now Variant.Base))) }
    ensures back { Restores (diagram_space space.old) (diagram_space space.new) }
    ensures full { IsErrOf result SpaceFault.Full → IsPast (diagram_space space.old) base.now.wiring.order chain.now }
{
    let start = space.mark();
    let fault = valid_rails(alloc, space, chain, base);
    space.release(start);
    match fault {
        Ok(Some(RailFault::BothRails(output, input))) => Ok(Some(Found {
            fault: Fault::BothRails(output),
            input,
        })),
        Ok(Some(RailFault::NoRail(output, input))) => Ok(Some(Found {
            fault: Fault::NoRail(output),
            input,
        })),
        Ok(None) => Ok(None),
        Err(fault) => Err(fault),
    }
}

/// The first fault at some variants of the stage, in their order, that some input shows, with the least such input.
fn first_found(
    alloc: Global,
    space: &mut Diagram,
    ending: &Ending,
    variants: &[Variant],
) -> Result<Option<Found>, SpaceFault>
    requires base { AreValues (diagram_space space.old) ending.now.chain.now Variant.Base ending.now.base.now }
    requires ends { EndsWith ending.now.chain.now ending.now.stage.now }
    requires after { All (IsAfterBase ending.now.stage.now) variants.now }
    ensures found { IfOk result (λ found. option_map shown_of found ≡ first_of (map (first_at (inputs_of_chain ending.now.base.now.wiring.order ending.now.chain.now ending.now.stage.now) ending.now.stage.now) variants.now)) }
    ensures full { IsErrOf result SpaceFault.Full → IsPast (diagram_space space.old) ending.now.base.now.wiring.order ending.now.chain.now }
{
    space.facts();
    for variant in variants {
        if let Some(found) = found_at(alloc, space, ending, *variant)? {
            return Ok(Some(found));
        }
    }
    Ok(None)
}

/// The fault at a variant of the stage that some input shows, with the least such input.
fn found_at(
    alloc: Global,
    space: &mut Diagram,
    ending: &Ending,
    variant: Variant,
) -> Result<Option<Found>, SpaceFault>
    requires base { AreValues (diagram_space space.old) ending.now.chain.now Variant.Base ending.now.base.now }
    requires ends { EndsWith ending.now.chain.now ending.now.stage.now }
    requires after { IsAfterBase ending.now.stage.now variant }
    ensures found { IfOk result (λ found. option_map shown_of found ≡ first_at (inputs_of_chain ending.now.base.now.wiring.order ending.now.chain.now ending.now.stage.now) ending.now.stage.now variant) }
    ensures back { Restores (diagram_space space.old) (diagram_space space.new) }
    ensures full { IsErrOf result SpaceFault.Full → IsPast (diagram_space space.old) ending.now.base.now.wiring.order ending.now.chain.now }
{
    let chain = ending.chain;
    let stage = ending.stage;
    let base = ending.base;
    stage.facts();
    let gates = chain.cells.items().len() - stage.cells.items().len();
    match variant {
        Variant::Base => Ok(None),
        Variant::Bit(bit) => {
            let zero = gates - 2 * stage.inputs.items().len() + 2 * bit;
            let word = bit_word(alloc, space, chain, base, (zero, zero + 1))?;
            Ok(word.map(|input| Found {
                fault: Fault::Incomplete(bit),
                input,
            }))
        }
        Variant::Cell(place) => {
            let word = orphan(alloc, space, chain, base, gates + place)?;
            Ok(word.map(|input| Found {
                fault: Fault::Orphan(place),
                input,
            }))
        }
    }
}

/// The least input at which the follower at one of two places is an orphan of the chain: they follow the rails of a bit.
fn bit_word(
    alloc: Global,
    space: &mut Diagram,
    chain: &Stage,
    base: &Values,
    places: (usize, usize),
) -> Result<Option<Word>, SpaceFault>
    requires base { AreValues (diagram_space space.old) chain.now Variant.Base base.now }
    requires zero { places.0 < length chain.now.cells }
    requires one { places.1 < length chain.now.cells }
    ensures word { IfOk result (λ word. word ≡ lesser (least_word_by base.now.wiring.order chain.now (IsOrphan places.0)) (least_word_by base.now.wiring.order chain.now (IsOrphan places.1))) }
    ensures back { Restores (diagram_space space.old) (diagram_space space.new) }
    ensures full { IsErrOf result SpaceFault.Full → IsPast (diagram_space space.old) base.now.wiring.order chain.now }
{
    chain.facts();
    let word = orphan(alloc, space, chain, base, places.0)?;
    let other = orphan(alloc, space, chain, base, places.1)?;
    Ok(lesser(word, other, chain.inputs.items().len()))
}
