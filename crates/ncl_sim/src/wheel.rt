//! Lists of what is due soon, one for each time.
ghost use Rattle.std.specs.Prelude.{◌≡◌, ◌↔◌, ℕ, ◌+◌, ◌%◌, ◌<◌, All, IfNone, IfOk, IfSome, IsTrue, OnErr, OnOk, [], ◌∷◌, ◌++◌, length, map};
ghost use Rattle.std.specs.List.Sorted.{IsPermutation};
ghost use Rattle.ncl_sim.specs.Calendar.{IsDueAfter, IsDueAt, IsNextList, IsSoon, list_at};

use ncl_base::Memory;
use std::alloc::Global;
use std::cmp::Reverse;
use std::marker::Model;
use std::mem;

/// A due and a number, turned round so that the first is the greatest.
pub(crate) type Event = Reverse<(u64, u32)>;

/// How many lists there are.
const LISTS: u64 = 64;

/// A wheel of lists, at a time: what is due within the next 63 units waits in the list of its due, modulo 64.
///
/// Contracts see it as its time and what waits in its lists.
#[derive(Drop)]
pub(crate) struct Wheel {
    time: u64,
    /// Whether all lists are known to be empty.
    idle: bool,
    lists: Vec<Vec<Event>>,
}

impl Model for Wheel {
    ghost use Rattle.std.specs.Prelude.{map};
    ghost use Rattle.ncl_sim.specs.Calendar.{IsWheel, WheelData, joined};

    ghost Value = { WheelData };

    ghost view = { λ a. record { time = a.time; waiting = joined (map (λ l. l.items) a.lists.items) } };

    ghost invariant = { λ a. IsWheel a.time a.idle (map (λ l. l.items) a.lists.items) };
}

/// How far the next list that isn't empty is ahead of a time. Looks at 63 lists at most.
fn next_list(lists: &[Vec<Event>], time: u64) -> Option<usize>
    requires { length lists.now ≡ 64 }
    ensures next { IfSome result (λ ahead. IsNextList time ahead (map (λ l. l.items) lists.now)) }
    ensures none { IfNone result ((k : ℕ) → 0 < k → k < 64 → list_at (map (λ l. l.items) lists.now) ((time % 64 + k) % 64) ≡ []) }
{
    let own = (time % LISTS) as usize;
    for ahead in 1..lists.len() {
        if !lists[(own + ahead) % 64].is_empty() {
            return Some(ahead);
        }
    }
    None
}

/// Puts an event to the end of a full list, which takes memory. Stays out of line, since few events find their list full.
#[inline(never)]
fn append_to_full(list: &mut Vec<Event>, event: Event) -> Result<(), Memory>
    ensures more { OnOk result (list.new.items ≡ list.old.items ++ event ∷ []) }
    ensures unchanged { OnErr result (list.new.items ≡ list.old.items) }
{
    list.push(event)?;
    Ok(())
}

/// Puts an event to the end of a list.
#[inline(always)]
fn append(list: &mut Vec<Event>, event: Event) -> Result<(), Memory>
    ensures more { OnOk result (list.new.items ≡ list.old.items ++ event ∷ []) }
    ensures unchanged { OnErr result (list.new.items ≡ list.old.items) }
{
    if list.len() == list.capacity() {
        return append_to_full(list, event);
    }
    list.push(event)?;
    Ok(())
}

impl Wheel {
    /// Nothing waits, at time 0.
    pub(crate) fn new(alloc: Global) -> Result<Wheel, Memory>
        ensures { IfOk result (λ wheel. wheel ≡ record { time = 0; waiting = [] }) }
    {
        let mut lists = Vec::with_capacity(alloc, 64)?;
        for _ in 0..LISTS {
            lists.push(Vec::new(alloc))?;
        }
        Ok(Wheel {
            time: 0,
            idle: true,
            lists,
        })
    }

    /// Whether there is a list for this due.
    pub(crate) fn has_list(&self, due: u64) -> bool
        ensures { IsTrue result ↔ IsSoon self.now.time due }
    {
        if due <= self.time {
            return false;
        }
        due - self.time < LISTS
    }

    /// Puts an event to the list of its due.
    #[inline(always)]
    pub(crate) fn put(&mut self, event: Event) -> Result<(), Memory>
        requires { IsSoon self.old.time event.0.0 }
        ensures time { self.new.time ≡ self.old.time }
        ensures more { OnOk result (IsPermutation (event ∷ self.old.waiting) self.new.waiting) }
        ensures unchanged { OnErr result (self.new.waiting ≡ self.old.waiting) }
    {
        let slot = (event.0.0 % LISTS) as usize;
        append(&mut self.lists[slot], event)?;
        self.idle = false;
        Ok(())
    }

    /// Goes on to the next time at which something is due, and opens its list. Looks at 63 lists at most.
    pub(crate) fn open(&mut self, opened: &mut Vec<Event>)
        requires { opened.old.items ≡ [] }
        ensures same { IsPermutation self.old.waiting (opened.new.items ++ self.new.waiting) }
        ensures due { All (IsDueAt self.new.time) opened.new.items }
        ensures later { All (IsDueAfter self.new.time) self.new.waiting }
        ensures all { opened.new.items ≡ [] → self.new.waiting ≡ [] }
    {
        if self.idle {
            return;
        }
        let Some(ahead) = next_list(self.lists.as_slice(), self.time) else {
            self.idle = true;
            return;
        };
        let slot = ((self.time % LISTS) as usize + ahead) % 64;
        mem::swap(opened, &mut self.lists[slot]);
        self.time = opened[0].0.0;
    }

    /// Goes on to a time, where nothing waits.
    pub(crate) fn pass(&mut self, time: u64)
        requires { self.old.waiting ≡ [] }
        ensures time { self.new.time ≡ time }
        ensures waiting { self.new.waiting ≡ [] }
    {
        self.time = time;
    }
}
