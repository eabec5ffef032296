//! Answers of earlier operations, of which some are kept.
ghost use Rattle.std.specs.Prelude.{◌≡◌, ◌≤◌, ◌+◌, [], ◌∷◌, IfSome, length};
ghost use Rattle.ncl_diagram.specs.declared.answers.TheConstants.{MOST_SLOTS};
ghost use Rattle.ncl_diagram.specs.declared.slot.TheConstants.{MOST_PLACES};
ghost use Rattle.ncl_diagram.specs.Memo.{places};
ghost use Rattle.ncl_diagram.specs.Slot.{are_below};

use crate::memo::Key;
use crate::slot::{MOST_PLACES, Slot};
use ncl_gates::Kind;
use ncl_space::Ref;
use std::alloc::Global;

/// How many slots there are at first, and at most.
const FIRST_SLOTS: usize = 1 << 10;

const MOST_SLOTS: usize = 1 << 14;

/// From how many nodes on that go at once all answers are forgotten.
const MANY_NODES: usize = 1 << 13;

/// Whether the functions of an answer stand below a place.
fn are_below(floor: u32, key: Key, found: Ref) -> bool
    ensures { result ≡ are_below floor (found.place ∷ places key) }
{
    found.place < floor
        && key.a.place < floor
        && key.b.place < floor
        && key.c.place < floor
        && key.d.place < floor
}

/// Some answers, each in the slot of its key, where a later one takes the place of an earlier one.
///
/// An answer counts while all its functions stand below the floor, the lowest place that was ever free again
/// after a release: what stands there has stood since the answer was found. The floor is at most 2^24, so
/// that an answer with a place that a slot can't name isn't kept. However many nodes there are, there are at
/// most `MOST_SLOTS` slots.
#[derive(Drop)]
pub(crate) struct Answers {
    pub(crate) slots: Vec<Slot>,
    pub(crate) floor: u32,
    ghost few: { length slots.items ≤ MOST_SLOTS },
    ghost nameable: { floor ≤ MOST_PLACES },
}

impl Answers {
    ghost use Rattle.ncl_diagram.specs.Kept.{AreLeft, HasMore, HasNone, HasSlots, IsAnswerKept};

    /// No answers. Takes no memory.
    pub(crate) fn new(alloc: Global) -> Answers
        ensures { result.slots.items ≡ [] }
    {
        Answers {
            slots: Vec::new(alloc),
            floor: MOST_PLACES,
        }
    }

    /// The slot of a key that has this hash.
    pub(crate) fn slot_of(&self, kind: Kind, hash: u64) -> usize {
        let mixed = hash.wrapping_add(kind as u8 as u64);
        mixed as usize & self.slots.len().saturating_sub(1)
    }

    /// The answer of a key, where its slot has it.
    pub(crate) fn find(&self, at: usize, kind: Kind, key: Key) -> Option<Ref>
        ensures { IfSome result (IsAnswerKept self.now kind key) }
    {
        if at >= self.slots.len() {
            return None;
        }
        let found = self.slots[at].answer(kind, key)?;
        if are_below(self.floor, key, found) {
            Some(found)
        } else {
            None
        }
    }

    /// Keeps the answer of a key, in place of what a slot has.
    pub(crate) fn note(&mut self, at: usize, kind: Kind, key: Key, found: Ref)
        ensures floor { self.new.floor ≡ self.old.floor }
        ensures slots { HasMore self.old self.new kind key found }
    {
        if at < self.slots.len() && are_below(self.floor, key, found) {
            self.slots[at] = Slot::new(kind, key, found);
        }
    }

    /// Makes more slots where there are many nodes, and forgets the answers. Where no memory is had for
    /// them it goes on without. Linear in the slots that are made.
    pub(crate) fn grow(&mut self, nodes: usize)
        ensures floor { self.new.floor ≡ self.old.floor }
        ensures slots { HasSlots self.old self.new }
    {
        let count = self.slots.len();
        if count >= MOST_SLOTS || nodes < FIRST_SLOTS / 4 || nodes < count / 4 {
            return;
        }
        let more = (2 * count).clamp(FIRST_SLOTS, MOST_SLOTS);
        self.slots.truncate(0);
        let _ = self.slots.resize(more, Slot::empty());
    }

    /// Nodes from so many on go, and how many these are. Where they are few, answers that speak of later ones don't count any
    /// more; where they are many, all answers are forgotten, and each that comes counts again. Then it is linear in the slots.
    pub(crate) fn release(&mut self, count: u32, gone: usize)
        ensures { AreLeft (count + 2) self.old self.new }
    {
        if gone < MANY_NODES {
            self.lower(count);
        } else {
            self.forget();
        }
    }

    /// Lowers the floor to where so many nodes end.
    fn lower(&mut self, count: u32)
        ensures slots { self.new.slots.items ≡ self.old.slots.items }
        ensures lower { self.new.floor ≤ self.old.floor }
        ensures below { self.new.floor ≤ count + 2 }
    {
        self.floor = self.floor.min(count.saturating_add(2));
    }

    /// Forgets all answers. The slots stay, where memory is had for them.
    fn forget(&mut self)
        ensures { HasNone self.new }
    {
        let count = self.slots.len();
        self.slots.truncate(0);
        let _ = self.slots.resize(count, Slot::empty());
        self.floor = MOST_PLACES;
    }
}
