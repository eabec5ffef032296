//! Numbered calls, some of which fail.
ghost use Rattle.std.specs.Prelude.{◌≡◌};
ghost use Rattle.ncl_base.specs.Held.{next_count, next_fails};

use crate::source::Failed;

/// Calls that are numbered from 1, and a count of those that failed.
#[derive(Drop)]
pub(crate) struct Calls {
    /// The numbers that fail.
    pub(crate) failing: Vec<u64>,
    /// The calls so far, which count no further than 2^64 - 1.
    pub(crate) made: u64,
    /// The calls that failed, which count no further than that either.
    pub(crate) faults: u64,
}

impl Calls {
    /// No calls yet. Takes no memory.
    pub(crate) fn new(failing: Vec<u64>) -> Calls
        ensures { result ≡ record { failing = failing; made = 0; faults = 0 } }
    {
        Calls {
            failing,
            made: 0,
            faults: 0,
        }
    }

    /// Counts a call, and says whether its number is one that fails. Linear in these numbers.
    pub(crate) fn count(&mut self) -> bool
        ensures fails { result ≡ next_fails self.old.failing.items self.old.made }
        ensures counted { self.new ≡ record self.old { made = next_count self.old.made } }
    {
        self.made = self.made.saturating_add(1);
        self.failing.contains(&self.made)
    }

    /// Counts a fault.
    pub(crate) fn fail(&mut self) -> Failed
        ensures { self.new ≡ record self.old { faults = next_count self.old.faults } }
    {
        self.faults = self.faults.saturating_add(1);
        Failed
    }
}
