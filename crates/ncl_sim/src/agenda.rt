//! What waits, with the first at hand.
ghost use Rattle.std.specs.Prelude.{◌≡◌, ◌<◌, ℕ, None, Some, IfNone, IfOk, IfSome, OnOk, length, replicate, set, slice_get};
ghost use Rattle.ncl_sim.specs.Queue.{IsFirst, NoneWaits, is_waiting};

use crate::calendar::Calendar;
use ncl_base::Memory;
use std::alloc::Global;
use std::cmp::Reverse;
use std::marker::Model;

/// For each number when its item is due, if it waits, and the same as a queue.
///
/// Contracts see it as the table of dues.
#[derive(Drop)]
pub(crate) struct Agenda {
    waits: Vec<Option<u64>>,
    queue: Calendar,
}

impl Model for Agenda {
    ghost use Rattle.std.specs.Prelude.{List, Option, ℕ};
    ghost use Rattle.ncl_sim.specs.Agenda.{IsQueueOf};
    ghost use Rattle.ncl_sim.specs.Calendar.{all_events};

    ghost Value = { List (Option ℕ) };

    ghost view = { λ a. a.waits.items };

    ghost invariant = { λ a. IsQueueOf a.waits.items (all_events a.queue) };
}

impl Agenda {
    /// Nothing waits at so many numbers. Linear in their count.
    pub(crate) fn new(alloc: Global, count: usize) -> Result<Agenda, Memory>
        ensures { IfOk result (λ agenda. agenda ≡ replicate count None) }
    {
        let waits = vec![in alloc; None; count]?;
        let queue = Calendar::new(alloc)?;
        Ok(Agenda { waits, queue })
    }

    /// Whether something waits at a number.
    pub(crate) fn is_waiting(&self, number: u32) -> bool
        requires { number < length self.now }
        ensures { result ≡ is_waiting (slice_get self.now number) }
    {
        self.waits[number as usize].is_some()
    }

    /// Lets a number wait at which nothing waits. Takes time in the logarithm of how many wait.
    #[inline(always)]
    pub(crate) fn wait(&mut self, number: u32, due: u64) -> Result<(), Memory>
        requires { slice_get self.old number ≡ Some None }
        ensures { OnOk result (self.new ≡ set self.old number (Some due)) }
    {
        self.queue.push(Reverse((due, number)))?;
        self.waits[number as usize] = Some(due);
        Ok(())
    }

    /// Takes out what is due first, and of one time the least number. Takes time in the logarithm of how many wait.
    pub(crate) fn take_first(&mut self) -> Option<(u64, u32)>
        ensures first { IfSome result (IsFirst self.old) }
        ensures taken { IfSome result (λ e. self.new ≡ set self.old e.1 None) }
        ensures none { IfNone result (NoneWaits self.old) }
    {
        let Some(Reverse(first)) = self.queue.pop() else {
            return None;
        };
        self.waits[first.1 as usize] = None;
        Some(first)
    }
}
