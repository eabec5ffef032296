//! An answer in two words.
ghost use Rattle.std.specs.Prelude.{◌≡◌, ◌≢◌, ◌∷◌, ◌<◌, ◌^◌, None, Some, true, IfNone, IfSome};
ghost use Rattle.ncl_space.specs.declared.space.Ref.{Ref};
ghost use Rattle.ncl_diagram.specs.Memo.{places};
ghost use Rattle.ncl_diagram.specs.Slot.{are_below, below_answer, first_of, kind_number};

use crate::memo::Key;
use ncl_gates::Kind;
use ncl_space::Ref;
use std::marker::Model;

/// How many places a slot can name: those of 24 bits.
pub(crate) const MOST_PLACES: u32 = 1 << 24;

/// Where the answer begins in the second word.
const FOUND_SHIFT: u32 = 38;

/// The answer of an operation, seen as what it says, or as None where it says nothing.
///
/// It takes 16 bytes. The first word has 16 bits of pin c, then 24 of b and 24 of a. The second has the
/// answer's place in its top 26, then 6 of the gate, whose number is 0 where there is no answer, 24 of pin
/// d, and the 8 higher ones of c.
#[derive(Clone, Copy)]
pub(crate) struct Slot {
    first: u64,
    second: u64,
}

impl Model for Slot {
    ghost use Rattle.std.specs.Prelude.{Option};
    ghost use Rattle.ncl_diagram.specs.Slot.{AreWords, Entry, entry_at, first_word, second_word};

    ghost Value = { Option Entry };

    ghost view = { λ s. entry_at s.first s.second };

    ghost invariant = { λ s. AreWords s.first s.second };

    ghost inverse = { λ e. record { first = first_word e; second = second_word e } };

    ghost inverse_ok = { λ s h i. record { first = h.0 i; second = h.1 i } };
}

/// The number of a gate, from 1.
fn kind_number(kind: Kind) -> u64
    ensures number { result ≡ kind_number kind }
    ensures few { result < 2 ^ 6 }
{
    kind as u64 + 1
}

/// The first word of a key. The last shift drops the 8 higher bits of pin c.
fn first_of(key: Key) -> u64
    ensures { are_below MOST_PLACES (places key) ≡ true → result ≡ first_of key }
{
    let top = (key.c.place as u64) << 48;
    let middle = (key.b.place as u64) << 24;
    top | middle | key.a.place as u64
}

/// The second word of a key, with 0 for the answer.
fn below_answer(kind: Kind, key: Key) -> u64
    ensures { are_below MOST_PLACES (places key) ≡ true → result ≡ below_answer kind key }
{
    let top = kind_number(kind) << 32;
    let middle = (key.d.place as u64) << 8;
    top | middle | (key.c.place >> 16) as u64
}

impl Slot {
    /// A slot that says nothing.
    pub(crate) fn empty() -> Slot
        ensures { result ≡ None }
    {
        Slot {
            first: 0,
            second: 0,
        }
    }

    /// The slot of an answer.
    pub(crate) fn new(kind: Kind, key: Key, found: Ref) -> Slot
        requires { are_below MOST_PLACES (found.place ∷ places key) ≡ true }
        ensures { result ≡ Some (record { kind = kind; key = key; found = found }) }
    {
        let answer = (found.place as u64) << FOUND_SHIFT;
        Slot {
            first: first_of(key),
            second: answer | below_answer(kind, key),
        }
    }

    /// The answer, where it is that of this operation. Of a key that has a place too high for a slot it may
    /// be that of another.
    pub(crate) fn answer(&self, kind: Kind, key: Key) -> Option<Ref>
        ensures some { IfSome result (λ found. are_below MOST_PLACES (places key) ≡ true
            → self.now ≡ Some (record { kind = kind; key = key; found = found })) }
        ensures none { IfNone result ((found : Ref)
            → self.now ≢ Some (record { kind = kind; key = key; found = found })) }
    {
        // The bits below the answer.
        let mask = (1 << FOUND_SHIFT) - 1;
        if self.first != first_of(key) || self.second & mask != below_answer(kind, key) {
            return None;
        }
        Some(Ref {
            place: (self.second >> FOUND_SHIFT) as u32,
        })
    }
}
