//! What a simulation tells.
use ncl_base::Items;
use ncl_delay::Fired;
use ncl_machine::{Item, Pair};
use std::marker::Model;

/// What the sink took, and when.
#[derive(Clone, Debug, Drop)]
pub struct Taken {
    /// The time of the step that took the pair.
    pub time: u64,
    /// The rails of the outputs then.
    pub pair: Pair,
}

/// How a run ends.
#[derive(Clone, Copy, Debug, PartialEq, Eq)]
pub enum End {
    /// Nothing can move any more.
    Quiet,
    /// The last step, at this time, took back an item that was enabled: of these the one of the least number.
    Hazard { item: Item, time: u64 },
    /// Something could still move, but the run has as many steps as one of a sound pipeline can have.
    Over,
}

/// A timed run: its steps in their order, what was delivered, and how it ends.
///
/// Contracts see it as a record.
#[derive(Debug, Drop)]
pub struct Trace {
    /// The steps in their order.
    pub steps: Items<Fired>,
    /// What the sink took, in its order.
    pub delivered: Items<Taken>,
    /// How the run ends.
    pub end: End,
}

impl Model for Trace {
    ghost use Rattle.ncl_sim.specs.TimedRun.{TraceData};

    ghost Value = { TraceData };

    ghost view = { λ a. record { steps = a.steps; delivered = a.delivered; end = a.end } };
}
