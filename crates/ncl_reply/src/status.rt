//! The statuses of checks.
ghost use Rattle.std.specs.Prelude.{◌≡◌};
ghost use Rattle.ncl_reply.specs.Status.{status_of};

use ncl_check::Outcome;

/// The status of a check that ends so.
pub fn status_of(outcome: Outcome) -> u8
    ensures { result ≡ status_of outcome }
{
    match outcome {
        Outcome::Accepted => 0,
        Outcome::Refused => 1,
        Outcome::NoPipeline => 3,
        Outcome::Unjudged => 6,
    }
}
