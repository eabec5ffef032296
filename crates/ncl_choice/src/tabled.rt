//! Small nodes by the sources that they are functions of.
use crate::cut::{Cut, MOST_CUTS, NodeCuts, code_of, cuts_of, has_all};
use ncl_base::Memory;
use ncl_decomp::table::input;
use ncl_network::Signal;
use ncl_plans::{Op, Small};
use std::alloc::Global;
use std::collections::HashMap;

/// The most functions of the same sources that are looked at.
const MOST_LIKE: usize = 32;

/// A small node as a function of the sources of a cut: bit w of its table is its bit at the word w, and bit k of w is the source with
/// the number k there.
#[derive(Clone, Copy)]
pub(crate) struct Tabled {
    pub place: u32,
    pub table: u16,
    /// Where the one of the same sources stands that came before it.
    before: u32,
}

/// Small nodes by the sources that they are functions of.
#[derive(Drop)]
pub(crate) struct Tables {
    /// How many inputs the network has.
    pub inputs: u32,
    cuts: Vec<NodeCuts>,
    tables: Vec<[u16; MOST_CUTS]>,
    all: Vec<Tabled>,
    last: HashMap<[u32; 4], u32>,
}

/// The word of the sources of a cut, where those of a larger one, some of them inverted, have this word.
fn word_within(cut: Cut, larger: Cut, inverted: [bool; 4], word: u32) -> u32 {
    let mut found = 0u32;
    for (k, code) in cut.codes.iter().enumerate() {
        if let Some(place) = larger.place_of(*code)
            && ((word >> (place % 4)) & 1 == 1) != inverted[place % 4]
        {
            found |= 1u32 << (k % 4);
        }
    }
    found
}

/// A function of the sources of a cut as one of those of a larger one, some of them inverted.
pub(crate) fn spread(table: u16, cut: Cut, larger: Cut, inverted: [bool; 4]) -> u16 {
    let mut found = 0u16;
    for word in 0..16u32 {
        if (table >> (word_within(cut, larger, inverted, word) % 16)) & 1 == 1 {
            found |= 1u16 << word;
        }
    }
    found
}

/// The table of an operation on functions.
fn op_table(op: Op, first: u16, second: u16, third: u16) -> u16 {
    match op {
        Op::And => first & second,
        Op::Differ => first ^ second,
        Op::Majority => (first & second) | (first & third) | (second & third),
        Op::Choose => (!first & second) | (first & third),
    }
}

impl Tables {
    /// Of no small nodes, in a network of so many inputs.
    pub(crate) fn new(alloc: Global, inputs: u32) -> Tables {
        Tables {
            inputs,
            cuts: Vec::new(alloc),
            tables: Vec::new(alloc),
            all: Vec::new(alloc),
            last: HashMap::new(alloc),
        }
    }

    /// The table of a small node over the sources of a cut, if it is a function of some of them.
    fn node_table(&self, cut: Cut, place: usize) -> Option<u16> {
        let own = self.cuts.get(place)?;
        let tables = self.tables.get(place)?;
        for (other, table) in own.cuts.iter().take(own.count).zip(tables) {
            if has_all(cut, *other) {
                return Some(spread(*table, *other, cut, [false; 4]));
            }
        }
        None
    }

    /// The table of a signal over the sources of a cut, if it is one of these or a function of some of them.
    fn signal_table(&self, cut: Cut, signal: Signal) -> Option<u16> {
        let code = code_of(self.inputs, signal.from);
        let table = match cut.place_of(code) {
            Some(place) => input(place),
            None => self.node_table(cut, code.checked_sub(self.inputs)? as usize)?,
        };
        Some(if signal.inverted { !table } else { table })
    }

    /// The table of an operation over the sources of a cut.
    fn small_table(&self, cut: Cut, small: &Small) -> Option<u16> {
        let first = self.signal_table(cut, small.first)?;
        let second = self.signal_table(cut, small.second)?;
        let third = self.signal_table(cut, small.third)?;
        Some(op_table(small.op, first, second, third))
    }

    /// Adds a small node as a function of the sources of a cut.
    fn list(&mut self, cut: Cut, place: u32, table: u16) -> Result<(), Memory> {
        let before = match self.last.get(&cut.codes) {
            Some(last) => *last,
            None => u32::MAX,
        };
        let Ok(number) = u32::try_from(self.all.len()) else {
            return Ok(());
        };
        self.all.push(Tabled {
            place,
            table,
            before,
        })?;
        self.last.insert(cut.codes, number)?;
        Ok(())
    }

    /// Adds a small node that comes after those that there are.
    fn add(&mut self, alloc: Global, place: u32, small: &Small) -> Result<(), Memory> {
        let signals = [small.first, small.second, small.third];
        let cuts = cuts_of(alloc, self.inputs, &self.cuts, &signals)?;
        let mut tables = [0u16; MOST_CUTS];
        for (cut, own) in cuts.cuts.iter().take(cuts.count).zip(tables.iter_mut()) {
            if let Some(table) = self.small_table(*cut, small) {
                *own = table;
                self.list(*cut, place, table)?;
            }
        }
        self.cuts.push(cuts)?;
        self.tables.push(tables)?;
        Ok(())
    }

    /// Adds the small nodes that aren't there yet. Linear in these.
    pub(crate) fn add_all(&mut self, alloc: Global, smalls: &[Small]) -> Result<(), Memory> {
        for place in self.cuts.len()..smalls.len() {
            if let Ok(number) = u32::try_from(place) {
                self.add(alloc, number, &smalls[place])?;
            }
        }
        Ok(())
    }

    /// Small nodes that are functions of these sources, the last first, of many only some.
    pub(crate) fn of(&self, alloc: Global, cut: Cut) -> Result<Vec<Tabled>, Memory> {
        let mut found = Vec::new(alloc);
        let mut at = self.last.get(&cut.codes).copied();
        for _ in 0..MOST_LIKE {
            let Some(number) = at else {
                return Ok(found);
            };
            let tabled = self.all.get(number as usize).copied();
            if let Some(tabled) = tabled {
                found.push(tabled)?;
            }
            at = tabled.map(|tabled| tabled.before);
        }
        Ok(found)
    }
}
