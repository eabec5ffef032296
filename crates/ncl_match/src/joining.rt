//! The answer to two runs of outputs, one after the other.
ghost use Rattle.std.specs.Prelude.{◌≡◌, ◌+◌, ◌≤◌, ℕ, List};
ghost use Rattle.ncl_blif.specs.declared.model.Model.{Model};
ghost use Rattle.ncl_match.specs.Circuit.{Circuit};
ghost use Rattle.ncl_match.specs.Answer.{IsBitAnswer, IsRunAnswer};

use crate::answer::{BitAnswer, RunAnswer};
use crate::order::is_before;
use ncl_base::Word;

/// The answer to one output as that to a run.
pub(crate) fn run_of(answer: BitAnswer, output: u32) -> RunAnswer
    ensures { (c : Circuit) (models : List Model) (limit low : ℕ) → output ≡ low + 1 → IsBitAnswer c models limit output answer → IsRunAnswer c models limit low output result }
{
    match answer {
        BitAnswer::Same => RunAnswer::Same,
        BitAnswer::Differ(word) => RunAnswer::Differ { word, output },
        BitAnswer::Full => RunAnswer::Full(output),
    }
}

/// The answer to two runs, one after the other: an output that passes the limit comes first, then the lesser of two
/// words, and of one word the earlier output.
pub(crate) fn joined(first: RunAnswer, second: RunAnswer) -> RunAnswer
    ensures { (c : Circuit) (models : List Model) (limit low middle high : ℕ) → low ≤ middle → middle ≤ high → IsRunAnswer c models limit low middle first → IsRunAnswer c models limit middle high second
        → IsRunAnswer c models limit low high result }
{
    match first {
        RunAnswer::Same => second,
        RunAnswer::Full(output) => RunAnswer::Full(output),
        RunAnswer::Differ { word, output } => with_difference(word, output, second),
    }
}

/// The same where the first run has a difference.
fn with_difference(word: Word, output: u32, second: RunAnswer) -> RunAnswer
    ensures { (c : Circuit) (models : List Model) (limit low middle high : ℕ) → low ≤ middle → middle ≤ high → IsRunAnswer c models limit low middle (RunAnswer.Differ word output) → IsRunAnswer c models limit middle high second
        → IsRunAnswer c models limit low high result }
{
    match second {
        RunAnswer::Same => RunAnswer::Differ { word, output },
        RunAnswer::Full(later) => RunAnswer::Full(later),
        RunAnswer::Differ {
            word: other,
            output: later,
        } => {
            if is_before(&other, &word) {
                RunAnswer::Differ {
                    word: other,
                    output: later,
                }
            } else {
                RunAnswer::Differ { word, output }
            }
        }
    }
}
