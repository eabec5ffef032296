//! Turns: the inputs of a node in the order, and with the inversions, in which a pattern takes them. What comes of
//! them isn't trusted: each form is tried at each word before it is taken.

use crate::form::FormPin::{Inner, One, Zero};
use crate::form::{Form, FormGate, FormPin, MOST_INNER};
use crate::pattern::{Pattern, PatternGate};
use crate::waits::Waits;
use arrayvec::ArrayVec;
use ncl_decomp::table::{cofactor, inverted};

/// The bit of each input in the number of a word.
const BITS: [u32; 4] = [1, 2, 4, 8];

/// A table with its inputs in some order and some of them inverted, and what stands then at each place for 1; or that
/// of the inverse function, and then rails are exchanged.
#[derive(Clone, Copy, Default)]
pub(crate) struct Turn {
    table: u16,
    ones: [FormPin; 4],
    exchanged: bool,
}

/// Whether a table falls where an input rises, at some words, and rises at none.
fn falls(table: u16, k: usize) -> bool {
    let before = cofactor(table, k, false);
    let after = cofactor(table, k, true);
    before & !after != 0 && after & !before == 0
}

/// A table with the inputs at two places exchanged, the first before the second.
fn swapped(table: u16, first: usize, second: usize) -> u16 {
    let (moved, step) = match (first, second) {
        (0, 1) => (0x2222u16, 1u32),
        (0, 2) => (0x0A0A, 3),
        (0, 3) => (0x00AA, 7),
        (1, 2) => (0x0C0C, 2),
        (1, 3) => (0x00CC, 6),
        (2, 3) => (0x00F0, 4),
        _ => return table,
    };
    let up = (table & moved) << step;
    let down = (table >> step) & moved;
    (table & !(moved | (moved << step))) | up | down
}

/// The inverse of a pin.
fn inverse(pin: FormPin) -> FormPin {
    match pin {
        Zero(place) => One(place),
        One(place) => Zero(place),
        Inner(place) => Inner(place),
    }
}

impl Turn {
    /// The table with those inputs inverted at which it only falls.
    fn rising(table: u16, exchanged: bool) -> Turn {
        let ones = [One(0), One(1), One(2), One(3)];
        let mut turn = Turn {
            table,
            ones,
            exchanged,
        };
        for k in 0..4usize {
            if falls(turn.table, k) {
                turn.table = inverted(turn.table, k);
                turn.ones[k] = Zero(k);
            }
        }
        turn
    }

    /// The same with what stands at two places exchanged, the first before the second.
    fn swapped(&self, first: usize, second: usize) -> Turn {
        let mut turn = *self;
        turn.table = swapped(self.table, first, second);
        turn.ones[first % 4] = self.ones[second % 4];
        turn.ones[second % 4] = self.ones[first % 4];
        turn
    }

    /// What stands on a pin of a pattern.
    fn pin(&self, pin: FormPin) -> FormPin {
        match pin {
            Zero(place) => inverse(self.ones[place % 4]),
            One(place) => self.ones[place % 4],
            Inner(place) => Inner(place),
        }
    }

    /// A gate of a pattern over the inputs.
    fn gate(&self, gate: &PatternGate) -> FormGate {
        let mut pins: ArrayVec<FormPin, 4> = ArrayVec::new();
        for pin in gate.pins {
            let _ = pins.try_push(self.pin(*pin));
        }
        FormGate {
            kind: gate.kind,
            pins,
        }
    }

    /// The word of a pattern at a word of the inputs.
    fn own_word(&self, word: u32) -> u32 {
        let mut own = 0u32;
        for (place, pin) in self.ones.iter().enumerate() {
            let one = match *pin {
                Zero(input) => word & BITS[input % 4] == 0,
                One(input) => word & BITS[input % 4] != 0,
                Inner(_) => false,
            };
            if one {
                own |= BITS[place % 4];
            }
        }
        own
    }

    /// The words of the inputs where the word of a pattern is one of these.
    fn mask(&self, own: u16) -> u16 {
        let mut mask = 0u16;
        for word in 0..16u32 {
            if (own >> (self.own_word(word) % 16)) & 1 == 1 {
                mask |= 1u16 << word;
            }
        }
        mask
    }

    /// For which inputs a pattern waits.
    pub(crate) fn waits(&self, pattern: &Pattern) -> Waits {
        let mut waits = Waits::NONE;
        for (place, pin) in self.ones.iter().enumerate() {
            if let Zero(input) | One(input) = *pin {
                waits = waits.with(input, self.mask(pattern.waits.mask(place)));
            }
        }
        waits
    }

    /// Whether a pattern waits at least for these.
    fn covers(&self, pattern: &Pattern, waits: Waits) -> bool {
        for (place, pin) in self.ones.iter().enumerate() {
            let own = pattern.waits.mask(place);
            let wanted = match *pin {
                Zero(input) | One(input) => waits.mask(input),
                Inner(_) => 0,
            };
            if wanted != 0 && own != u16::MAX && wanted & !self.mask(own) != 0 {
                return false;
            }
        }
        true
    }

    /// The gates of a pattern over the inputs.
    pub(crate) fn form(&self, pattern: &Pattern) -> Form {
        let mut inner: ArrayVec<FormGate, MOST_INNER> = ArrayVec::new();
        for gate in pattern.inner {
            let _ = inner.try_push(self.gate(gate));
        }
        let (of_zero, of_one) = if self.exchanged {
            (&pattern.one, &pattern.zero)
        } else {
            (&pattern.zero, &pattern.one)
        };
        Form {
            inner,
            zero: self.gate(of_zero),
            one: self.gate(of_one),
            waits: self.waits(pattern),
        }
    }
}

/// The turns that have at a place what they have there, or at a later place.
fn with_later_at(turns: &[Turn], place: usize, inputs: usize) -> ArrayVec<Turn, 48> {
    let mut more: ArrayVec<Turn, 48> = ArrayVec::new();
    for turn in turns {
        for other in place..inputs {
            let _ = more.try_push(turn.swapped(place, other));
        }
    }
    more
}

/// The turns of a function of so many inputs, two to four: the function or its inverse, in each order, so at most 48.
pub(crate) fn turns_of(inputs: usize, table: u16) -> ArrayVec<Turn, 48> {
    let mut turns: ArrayVec<Turn, 48> = ArrayVec::new();
    turns.push(Turn::rising(table, false));
    turns.push(Turn::rising(!table, true));
    for place in 1..inputs.min(4) {
        turns = with_later_at(turns.as_slice(), place - 1, inputs.min(4));
    }
    turns
}

/// The first turn at which a function is that of a pattern, which waits for these inputs.
pub(crate) fn turn_for<'a>(pattern: &Pattern, turns: &'a [Turn], waits: Waits) -> Option<&'a Turn> {
    for turn in turns {
        if turn.table == pattern.table && turn.covers(pattern, waits) {
            return Some(turn);
        }
    }
    None
}
