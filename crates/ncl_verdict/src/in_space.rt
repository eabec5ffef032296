//! The judgement of a stage in a space.
ghost use Rattle.std.specs.Prelude.{◌≡◌, ◌<◌, IfOk, IfNone, MatchResult, length, map};
ghost use Rattle.ncl_space.specs.Beads.{distinct_beads};
ghost use Rattle.ncl_space.specs.Space.{IsNew, Keeps};
ghost use Rattle.ncl_stage.specs.BitOrder.{bit_order};
ghost use Rattle.ncl_stage.specs.StageTables.{AreValues, net_tables};
ghost use Rattle.ncl_verdict.specs.InSpace.{IsReady, output_of, rail_verdict, stopped_within};
ghost use Rattle.ncl_verdict.specs.Judgement.{after_base, at_variant, first_of, of_stage};

use crate::asked::Asked;
use crate::variants::{first_said, stopped, variants_after_base};
use crate::verdict::Verdict;
use ncl_base::Memory;
use ncl_complete::{RailFault, valid_rails};
use ncl_shape::Stage;
use ncl_space::{Space, SpaceFault};
use ncl_stage::{Values, Variant, values};
use std::alloc::Global;

/// What is said of a stage that is not sound, or has more nodes than the limit of the space: under Base,
/// then without each input bit, then without each cell in the order of the file. The space is new, and of the width
/// of the stage's input.
///
/// It asks any space, so that two of them can be compared; `judge_stage` asks diagrams. For each input bit and each
/// cell it goes over the cells once. An error is want of memory.
pub fn first_answer<P: Space>(
    alloc: Global,
    space: &mut P,
    stage: &Stage,
) -> Result<Option<Verdict>, Memory>
    requires width { (P.meaning space.old).width ≡ length stage.now.inputs }
    requires new { IsNew (P.meaning space.old) }
    ensures { IfOk result (λ answer. answer ≡ of_stage (stopped_within (P.meaning space.old).limit) stage.now) }
{
    match under_base(alloc, space, stage)? {
        Ok(base) => after_base(alloc, space, stage, &base),
        Err(verdict) => Ok(Some(verdict)),
    }
}

/// What is said under Base; where nothing is, the functions of the nets under Base. The space is new, and of the width of the
/// stage's input. It goes over the cells once.
pub(crate) fn under_base<P: Space>(
    alloc: Global,
    space: &mut P,
    stage: &Stage,
) -> Result<Result<Values, Verdict>, Memory>
    requires width { (P.meaning space.old).width ≡ length stage.now.inputs }
    requires new { IsNew (P.meaning space.old) }
    ensures answer { let said = at_variant (stopped_within (P.meaning space.old).limit) stage.now Variant.Base in
        IfOk result (λ answer. MatchResult answer
        (λ base. (said ≡ None) × IsReady (P.meaning space.new) stage.now base)
        (λ verdict. said ≡ Some verdict)) }
    ensures kept { Keeps (P.meaning space.old) (P.meaning space.new) }
{
    let base = match values(alloc, space, stage, Variant::Base) {
        Ok(base) => base,
        Err(SpaceFault::Full) => {
            return Ok(Err(Verdict::Limit {
                stage: stage.number,
            }));
        }
        Err(SpaceFault::Memory) => return Err(Memory),
    };
    match at_outputs(alloc, space, stage, &base)? {
        Some(verdict) => Ok(Err(verdict)),
        None => Ok(Ok(base)),
    }
}

/// The first that is said after Base. A variant for each input bit and each cell.
pub(crate) fn after_base<P: Space>(
    alloc: Global,
    space: &mut P,
    stage: &Stage,
    base: &Values,
) -> Result<Option<Verdict>, Memory>
    requires { IsReady (P.meaning space.old) stage.now base.now }
    ensures { IfOk result (λ answer. answer ≡ first_of (map (at_variant (stopped_within (P.meaning space.old).limit) stage.now) (after_base stage.now))) }
{
    let asked = Asked::of(space, stage, base);
    let variants = variants_after_base(alloc, stage)?;
    first_said(alloc, space, &asked, variants.as_slice())
}

/// What is said under Base, once the functions of the nets are made.
fn at_outputs<P: Space>(
    alloc: Global,
    space: &mut P,
    stage: &Stage,
    base: &Values,
) -> Result<Option<Verdict>, Memory>
    requires width { (P.meaning space.old).width ≡ length stage.now.inputs }
    requires base { AreValues (P.meaning space.old) stage.now Variant.Base base.now }
    requires order { base.now.wiring.order ≡ bit_order stage.now }
    requires held { (P.meaning space.old).held ≡ distinct_beads (length stage.now.inputs) (net_tables stage.now Variant.Base) }
    ensures answer { IfOk result (λ answer. answer ≡ at_variant (stopped_within (P.meaning space.old).limit) stage.now Variant.Base) }
    ensures ready { IfOk result (λ answer. IfNone answer (IsReady (P.meaning space.new) stage.now base.now)) }
    ensures kept { Keeps (P.meaning space.old) (P.meaning space.new) }
{
    match valid_rails(alloc, space, stage, base) {
        Ok(Some(fault)) => Ok(Some(told(stage, fault))),
        Ok(None) => Ok(None),
        Err(fault) => stopped(stage, fault),
    }
}

/// The verdict of a fault of an output.
fn told(stage: &Stage, fault: RailFault) -> Verdict
    requires { output_of fault < length stage.now.outputs }
    ensures { result ≡ rail_verdict stage.now fault }
{
    stage.facts();
    match fault {
        RailFault::BothRails(output, word) => Verdict::BothRails {
            stage: stage.number,
            output: output as u32 + 1,
            word,
        },
        RailFault::NoRail(output, word) => Verdict::NoRail {
            stage: stage.number,
            output: output as u32 + 1,
            word,
        },
    }
}
