//! Runs of stages.
ghost use Rattle.std.specs.Prelude.{◌≡◌, ◌+◌, ◌<◌, ◌≤◌, ◌^◌, length};
ghost use Rattle.ncl_verdict.specs.Runs.{IsRun};

use ncl_shape::Stage;
use std::marker::Model;
use std::sync::atomic::{AtomicUsize, Ordering};

/// Stages that stand one after another in a pipeline, the first at a place of it, each of which may have at most `limit` nodes; and
/// the least place of the pipeline at which a stage is known to be refused, which its runs share.
#[derive(Drop)]
pub(crate) struct Run<'a> {
    stages: &'a [Stage],
    place: usize,
    limit: u32,
    refused: &'a AtomicUsize,
}

impl<'a> Model for Run<'a> {
    ghost use Rattle.ncl_verdict.specs.Runs.{IsRun, RunData};

    ghost Value = { RunData };

    ghost view = { λ a. record { stages = a.stages.now; place = a.place; limit = a.limit } };

    ghost invariant = { λ a. IsRun (record { stages = a.stages.now; place = a.place; limit = a.limit }) };
}

impl<'a> Run<'a> {
    /// Stages from a place of a pipeline on. Takes no memory.
    pub(crate) fn of(
        stages: &'a [Stage],
        place: usize,
        limit: u32,
        refused: &'a AtomicUsize,
    ) -> Run<'a>
        requires limit { 1 ≤ limit }
        requires room { place + length stages.now < 2 ^ 64 }
        ensures { result ≡ record { stages = stages.now; place = place; limit = limit } }
    {
        Run {
            stages,
            place,
            limit,
            refused,
        }
    }

    /// The stages.
    pub(crate) fn stages(&self) -> &'a [Stage]
        ensures stages { result.now ≡ self.now.stages }
        ensures run { IsRun self.now }
    {
        self.stages
    }

    /// Where the first of them stands.
    pub(crate) fn place(&self) -> usize
        ensures { result ≡ self.now.place }
    {
        self.place
    }

    /// How many nodes each may have.
    pub(crate) fn limit(&self) -> u32
        ensures { result ≡ self.now.limit }
    {
        self.limit
    }

    /// The least place at which a stage is known to be refused.
    pub(crate) fn refused(&self) -> &'a AtomicUsize {
        self.refused
    }

    /// Whether a stage is known to be refused that stands before the stage of this number in the run.
    pub(crate) fn is_refused_before(&self, number: usize) -> bool
        requires { number < length self.now.stages }
    {
        self.refused.load(Ordering::SeqCst) < self.place + number
    }

    /// Notes that the stage of this number in the run is refused.
    pub(crate) fn refuse(&self, number: usize)
        requires { number < length self.now.stages }
    {
        self.refused
            .fetch_min(self.place + number, Ordering::SeqCst);
    }
}
