//! What is replied to bytes that are refused.
ghost use Rattle.std.specs.Prelude.{◌≡◌, ℕ, List, IfOk};
ghost use Rattle.ncl_check.specs.Text.{IsRefusedText};
ghost use Rattle.ncl_check.specs.Refusals.{TellsLine};
ghost use Rattle.ncl_check.specs.declared.reply.Outcome.TheVariants.{NoPipeline};

use crate::reply::{Outcome, Reply};
use crate::text::Refusal;
use ncl_base::Memory;

/// The reply to bytes that are the text of no pipeline. An error is want of memory.
pub fn refused(refusal: Refusal) -> Result<Reply, Memory>
    ensures outcome { IfOk result (λ reply. reply.outcome ≡ NoPipeline) }
    ensures text { (bytes : List ℕ) → TellsLine (IsRefusedText bytes) refusal → IfOk result (λ reply. IsRefusedText bytes reply.text.items) }
{
    match refusal {
        Refusal::Told(text) => Ok(Reply {
            outcome: Outcome::NoPipeline,
            text,
        }),
        Refusal::Memory => Err(Memory),
    }
}
