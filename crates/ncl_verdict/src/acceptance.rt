//! Sound stages that are told without their variants.
ghost use Rattle.std.specs.Prelude.{◌≡◌, IfOk, None, true};
ghost use Rattle.ncl_verdict.specs.Judgement.{of_stage, stopped_at};

use crate::few::are_few;
use crate::ready::Ready;
use ncl_base::Memory;
use ncl_space::{Space, SpaceFault};
use ncl_stage::all_observed;
use std::alloc::Global;

/// Whether a stage of which nothing is said under Base is sound, with no variant that passes the limit, as far as can be told
/// without a variant: its nets depend on few bits, and each is observed by the gates that read it.
///
/// One function for each cell and two for each pin. An error is want of memory.
pub(crate) fn is_accepted(alloc: Global, ready: &mut Ready) -> Result<bool, Memory>
    ensures accepted { IfOk result (λ answer. answer ≡ true → of_stage (stopped_at ready.old.limit) ready.old.stage ≡ None) }
    ensures stage { ready.new.stage ≡ ready.old.stage }
    ensures limit { ready.new.limit ≡ ready.old.limit }
{
    let few = are_few(alloc, ready)?;
    if !few {
        return Ok(false);
    }
    let stage = ready.stage;
    stage.facts();
    match all_observed(alloc, &mut ready.space, stage, &ready.base) {
        Ok(answer) => Ok(answer),
        Err(SpaceFault::Full) => Ok(false),
        Err(SpaceFault::Memory) => Err(Memory),
    }
}
