//! Nodes that hold a source together: each waits for it at some words.
ghost use Rattle.std.specs.Prelude.{◌≤◌, length};

use crate::together::{MOST_HOLDERS, MOST_SOURCES, Together};
use arrayvec::ArrayVec;
use ncl_network::{Signal, SignalSource};
use ncl_template::Waits;

/// What stands where there is no signal.
const NONE: Signal = Signal {
    from: SignalSource::Const(false),
    inverted: false,
};

/// What a node of at most four inputs reads, and for what it waits.
#[derive(Clone, Copy, PartialEq, Eq)]
pub(crate) struct Sharer {
    ins: [Signal; 4],
    count: usize,
    waits: Waits,
}

impl Sharer {
    /// A node that reads these and waits so, if these are at most four.
    pub(crate) fn of(ins: &[Signal], waits: Waits) -> Option<Sharer> {
        let mut sharer = Sharer {
            ins: [NONE; 4],
            count: ins.len(),
            waits,
        };
        for (place, signal) in ins.iter().enumerate() {
            *sharer.ins.get_mut(place)? = *signal;
        }
        Some(sharer)
    }

    /// What it reads.
    fn signals(&self) -> &[Signal] {
        &self.ins[..self.count.min(4)]
    }

    /// When it waits for a source, where all that it reads is among some sources.
    fn rule(&self, sources: &[SignalSource], source: SignalSource) -> Option<Rule> {
        let mut rule = Rule {
            places: [NO_PLACE; 4],
            turned: 0,
            words: 0,
        };
        for (k, signal) in self.signals().iter().enumerate() {
            let place = sources.iter().position(|from| *from == signal.from)?;
            rule.places[k % 4] = place;
            if signal.inverted {
                rule.turned |= 1u32 << (k % 4);
            }
            if signal.from == source {
                rule.words |= self.waits.mask(k);
            }
        }
        Some(rule)
    }
}

/// The place of no source: there every number of few sources has the bit 0.
const NO_PLACE: usize = 31;

/// When a node waits for a source, by the number that has the bits of some sources: the places of those that it reads, which of them
/// are inverted, and at which of its words it waits.
#[derive(Clone, Copy, Default)]
struct Rule {
    places: [usize; 4],
    turned: u32,
    words: u16,
}

impl Rule {
    /// Whether it waits at a number.
    fn waits(&self, number: u32) -> bool {
        let mut word = self.turned;
        for (k, place) in self.places.iter().enumerate() {
            word ^= ((number >> (place % 32)) & 1) << (k % 4);
        }
        (self.words >> (word % 16)) & 1 == 1
    }
}

/// The nodes that wait for a source at some words, at most six.
#[derive(Clone, Copy)]
pub(crate) struct Few {
    at: [Option<Sharer>; MOST_HOLDERS],
}

impl Few {
    /// None.
    pub(crate) const NONE: Few = Few {
        at: [None; MOST_HOLDERS],
    };

    /// Whether there is no free place.
    fn is_full(&self) -> bool {
        self.at.iter().all(|sharer| sharer.is_some())
    }

    /// Puts a node in the place of another, if that is there, or in a free place.
    pub(crate) fn exchange(&mut self, old: Option<Sharer>, new: Option<Sharer>) {
        for place in self.at.iter_mut() {
            if *place == old {
                *place = new;
                return;
            }
        }
    }

    /// The words of some signals, each of another source, at which none waits for a source: all, where there is no place for
    /// one node more.
    pub(crate) fn unheld(&self, ins: &[Signal], source: SignalSource) -> u16 {
        if self.at.iter().all(|sharer| sharer.is_none()) {
            return u16::MAX;
        }
        let mut together = Together::new();
        together.add_all(ins);
        for sharer in self.at.iter() {
            if let Some(sharer) = sharer {
                together.add_all(sharer.signals());
            }
        }
        let count = together.count.min(MOST_SOURCES);
        let words = unheld_by(self, &together.at[..count], ins, source);
        if words != 0 && self.is_full() {
            return u16::MAX;
        }
        words
    }
}

/// The number of a word of signals, where the bits of their sources are the first of a number.
fn word_of(ins: &[Signal], number: u32) -> u32 {
    let mut word = 0u32;
    for (place, signal) in ins.iter().enumerate() {
        let bit = [1u32, 2, 4, 8][place % 4];
        if (number & bit != 0) != signal.inverted {
            word |= bit;
        }
    }
    word
}

/// When each of some nodes waits for a source.
fn rules_of(
    few: &Few,
    sources: &[SignalSource],
    source: SignalSource,
) -> ArrayVec<Rule, MOST_HOLDERS> {
    let mut rules = ArrayVec::new();
    for sharer in few.at {
        if let Some(sharer) = sharer
            && let Some(rule) = sharer.rule(sources, source)
            && rules.len() < MOST_HOLDERS
        {
            rules.push(rule);
        }
    }
    rules
}

/// The words of the first of some sources at which none of some nodes waits for a source, whatever the others are. Exponential in
/// the sources, which are at most ten.
fn unheld_by(few: &Few, sources: &[SignalSource], ins: &[Signal], source: SignalSource) -> u16
    requires { length sources.now ≤ MOST_SOURCES }
{
    let rules = rules_of(few, sources, source);
    let mut words = 0u16;
    for number in 0..1u32 << sources.len() {
        if !rules.iter().any(|rule| rule.waits(number)) {
            words |= 1u16 << (word_of(ins, number) % 16);
        }
    }
    words
}
