//! What one thread hears of variants.
ghost use Rattle.std.specs.Prelude.{◌≡◌, IfOk, Some};
ghost use Rattle.ncl_verdict.specs.InSpace.{IsAsked};
ghost use Rattle.ncl_verdict.specs.Sharing.{IsPart, SharedData};

use crate::asked::Asked;
use crate::ready::Ready;
use crate::shared::{Shared, TAKEN_AT_ONCE};
use crate::sharing::Part;
use crate::variants::said_at;
use ncl_base::Memory;
use ncl_space::Space;
use std::alloc::Global;

/// What threads share, each of which hears a part of some variants.
pub(crate) trait Hear {
    /// The variants.
    ghost shared: { Self → SharedData };

    /// What is heard of the variants that one thread takes, in a space of its own, in which Base is made first. An error is want of
    /// memory.
    fn hear_part(&self, alloc: Global) -> Result<Part, Memory>
        ensures { IfOk result (IsPart (shared self.now)) };
}

impl<'a> Hear for Shared<'a> {
    ghost shared = { λ a. a };

    fn hear_part(&self, alloc: Global) -> Result<Part, Memory> {
        let Ok(ready) = Ready::of(alloc, self.stage(), self.limit())? else {
            return Ok(Part {
                silent: Vec::new(alloc),
                said: None,
            });
        };
        let Ready {
            stage,
            mut space,
            base,
            ..
        } = ready;
        let asked = Asked::of(&space, stage, &base);
        hear_taken(alloc, &mut space, &asked, self)
    }
}

/// What is heard of the variants that one thread takes, in a space that has the functions of Base. It notes the place of the
/// one at which something is said.
fn hear_taken<P: Space>(
    alloc: Global,
    space: &mut P,
    asked: &Asked,
    shared: &Shared,
) -> Result<Part, Memory>
    requires asked { IsAsked (P.meaning space.old) (Some shared.now.limit) asked.now }
    requires stage { asked.now.stage ≡ shared.now.stage }
    ensures { IfOk result (IsPart shared.now) }
{
    let variants = shared.variants();
    let mut silent = Vec::from_elem(alloc, false, variants.len())?;
    let mut at = 0;
    let mut end = 0;
    'asking: for _ in 0..variants.len() {
        if at >= end {
            at = shared.take();
            end = at.saturating_add(TAKEN_AT_ONCE);
        }
        if at >= variants.len() || shared.is_told_before(at) {
            return Ok(Part { silent, said: None });
        }
        if let Some(verdict) = said_at(alloc, space, asked, variants[at])? {
            shared.tell(at);
            let said = Some((at, verdict));
            return Ok(Part { silent, said });
        }
        silent[at] = true;
        at += 1;
    }
    Ok(Part { silent, said: None })
}
