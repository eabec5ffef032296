//! What a check of a netlist ends with.
ghost use Rattle.std.specs.Prelude.{◌≡◌};
ghost use Rattle.ncl_check.specs.Reply.{outcome_of};

use ncl_verdict::Verdict;

/// How a check ends.
#[derive(Clone, Copy, Debug, PartialEq, Eq)]
pub enum Outcome {
    /// The bytes are a netlist that has the shape of a pipeline, and every stage is sound.
    Accepted,
    /// A stage has a fault.
    Refused,
    /// The bytes are no netlist, or the netlist has no shape.
    NoPipeline,
    /// A stage has more nodes than the limit.
    Unjudged,
}

/// How a check ended, and the line that tells it.
#[derive(Debug, Drop)]
pub struct Reply {
    pub outcome: Outcome,
    /// The line, with its line feed.
    pub text: Vec<u8>,
}

impl Outcome {
    /// How a check ends whose judgement is this verdict.
    pub fn of(verdict: &Verdict) -> Outcome
        ensures { result ≡ outcome_of verdict.now }
    {
        match verdict {
            Verdict::Accepted => Outcome::Accepted,
            Verdict::BothRails { .. } | Verdict::NoRail { .. } => Outcome::Refused,
            Verdict::Incomplete { .. } | Verdict::Orphan { .. } => Outcome::Refused,
            Verdict::Limit { .. } => Outcome::Unjudged,
        }
    }
}
