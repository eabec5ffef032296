//! A queue of events, after R. Brown's calendar queues (Communications of the ACM 31(10), 1988).
ghost use Rattle.std.specs.Prelude.{◌≡◌, ◌<◌, ℕ, All, IfNone, IfOk, IfSome, OnErr, OnOk, true, false, [], ◌∷◌, ◌++◌, length};
ghost use Rattle.std.specs.List.Sorted.{IsPermutation, IsSorted};
ghost use Rattle.std.specs.BinaryHeap.{IsHeap, heap_items};
ghost use Rattle.std.specs.declared.cmp.Reverse.{Reverse};
ghost use Rattle.ncl_sim.specs.Calendar.{ComesBeforeAll, IsDueAfter, IsDueAt, IsSoon, all_events, event_cmp};
ghost use Rattle.ncl_sim.specs.Queue.{IsBefore};

use crate::wheel::{Event, Wheel};
use ncl_base::Memory;
use std::alloc::Global;
use std::collections::BinaryHeap;
use std::marker::Model;

/// Events, of which the first comes out first.
///
/// What is due soon waits in the list of its time, which is sorted when its time comes, so that most events cost
/// no more than their part of that. What is due later, or by the time of the list that was opened last, waits in a heap.
///
/// Contracts see it as these parts: what is opened, the wheel, and what is in the heap.
#[derive(Drop)]
pub(crate) struct Calendar {
    /// What is left of the list that was opened last, its first event at the end.
    opened: Vec<Event>,
    wheel: Wheel,
    others: BinaryHeap<Event>,
}

impl Model for Calendar {
    ghost use Rattle.std.specs.BinaryHeap.{heap_items};
    ghost use Rattle.ncl_sim.specs.Calendar.{CalendarData, IsCalendar};

    ghost Value = { CalendarData };

    ghost view = { λ a. record { opened = a.opened.items; wheel = a.wheel; others = heap_items a.others } };

    ghost invariant = { λ a. IsCalendar a.opened.items a.wheel (heap_items a.others) };
}

/// Opens the next list, where none of the last is left.
fn refill(opened: &mut Vec<Event>, wheel: &mut Wheel)
    requires sorted { IsSorted event_cmp opened.old.items }
    requires due { All (IsDueAt wheel.old.time) opened.old.items }
    requires later { All (IsDueAfter wheel.old.time) wheel.old.waiting }
    ensures same { IsPermutation (opened.old.items ++ wheel.old.waiting) (opened.new.items ++ wheel.new.waiting) }
    ensures sorted { IsSorted event_cmp opened.new.items }
    ensures due { All (IsDueAt wheel.new.time) opened.new.items }
    ensures later { All (IsDueAfter wheel.new.time) wheel.new.waiting }
    ensures all { opened.new.items ≡ [] → wheel.new.waiting ≡ [] }
{
    if !opened.is_empty() {
        return;
    }
    wheel.open(opened);
    opened.sort_unstable();
}

/// Whether an event comes before another: by its due, and of one due by its number.
fn is_before(event: (u64, u32), other: (u64, u32)) -> bool
    ensures before { result ≡ true → IsBefore event other }
    ensures after { result ≡ false → IsBefore other event }
{
    if event.0 == other.0 {
        return event.1 < other.1;
    }
    event.0 < other.0
}

/// Whether the last of some sorted events comes before those of a heap.
fn is_first(opened: &[Event], others: &BinaryHeap<Event>) -> bool
    requires sorted { IsSorted event_cmp opened.now }
    requires in_order { IsHeap event_cmp (heap_items others.now) }
    ensures some { result ≡ true → 0 < length opened.now }
    ensures first { result ≡ true → (e : Reverse (ℕ × ℕ)) → ComesBeforeAll e opened.now → ComesBeforeAll e (heap_items others.now) }
    ensures other { result ≡ false → (e : Reverse (ℕ × ℕ)) → ComesBeforeAll e (heap_items others.now) → ComesBeforeAll e opened.now }
{
    let Some(last) = opened.last() else {
        return false;
    };
    let Some(other) = others.peek() else {
        return true;
    };
    is_before(last.0, other.0)
}

/// Puts an event into a heap. Takes time in the logarithm of how many it has.
#[inline(never)]
fn push_other(others: &mut BinaryHeap<Event>, event: Event) -> Result<(), Memory>
    requires { IsHeap event_cmp (heap_items others.old) }
    ensures in_order { IsHeap event_cmp (heap_items others.new) }
    ensures more { OnOk result (IsPermutation (event ∷ heap_items others.old) (heap_items others.new)) }
    ensures unchanged { OnErr result (heap_items others.new ≡ heap_items others.old) }
{
    others.push(event)?;
    Ok(())
}

impl Calendar {
    /// No events.
    pub(crate) fn new(alloc: Global) -> Result<Calendar, Memory>
        ensures { IfOk result (λ calendar. calendar ≡ record { opened = []; wheel = record { time = 0; waiting = [] }; others = [] }) }
    {
        let wheel = Wheel::new(alloc)?;
        Ok(Calendar {
            opened: Vec::new(alloc),
            wheel,
            others: BinaryHeap::new(alloc),
        })
    }

    /// Puts an event in: what is due soon into a list of the wheel, and the rest into the heap.
    ///
    /// Takes constant time where it is due soon, or else time in the logarithm of how many are not.
    #[inline(always)]
    pub(crate) fn push(&mut self, event: Event) -> Result<(), Memory>
        ensures more { OnOk result (IsPermutation (event ∷ all_events self.old) (all_events self.new)) }
        ensures soon { IsSoon self.old.wheel.time event.0.0 → self.new.others ≡ self.old.others }
        ensures time { self.new.wheel.time ≡ self.old.wheel.time }
        ensures unchanged { OnErr result (self.new ≡ self.old) }
    {
        if self.wheel.has_list(event.0.0) {
            self.wheel.put(event)?;
            return Ok(());
        }
        push_other(&mut self.others, event)?;
        Ok(())
    }

    /// Takes out the first event. Then the wheel stands at its due, or at that of what is left of the list that was opened.
    ///
    /// Where the next list is opened, that takes the time to sort it and to look at 63 lists at most, and else it takes time
    /// in the logarithm of how many events were not due soon.
    pub(crate) fn pop(&mut self) -> Option<Event>
        ensures rest { IfSome result (λ e. IsPermutation (all_events self.old) (e ∷ all_events self.new)) }
        ensures first { IfSome result (λ e. ComesBeforeAll e (all_events self.old)) }
        ensures time { IfSome result (λ e. self.new.opened ≡ [] → self.new.wheel.time ≡ e.0.0) }
        ensures none { IfNone result (all_events self.old ≡ []) }
        ensures left { IfNone result (all_events self.new ≡ []) }
    {
        refill(&mut self.opened, &mut self.wheel);
        if is_first(self.opened.as_slice(), &self.others) {
            return self.opened.pop();
        }
        let Some(first) = self.others.pop() else {
            return None;
        };
        if !self.opened.is_empty() {
            return Some(first);
        }
        self.wheel.pass(first.0.0);
        Some(first)
    }
}
