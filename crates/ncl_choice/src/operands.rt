//! What is there already of some leaves: these, and small nodes that are functions of them.
use crate::cut::{Cut, EMPTY, NONE, code_of, with};
use crate::tabled::spread;
use crate::trying::{Reached, Trying};
use ncl_base::Memory;
use ncl_decomp::table::input;
use ncl_network::SignalSource;
use std::alloc::Global;

/// The most operands that are looked at for a node.
const MOST_OPERANDS: usize = 28;

/// Four leaves: their sources, whether they are inverted, and how late they come.
#[derive(Clone, Copy)]
pub(crate) struct Ground {
    pub sources: Cut,
    pub inverted: [bool; 4],
    levels: [u32; 4],
}

/// What an operand is.
#[derive(Clone, Copy, PartialEq, Eq)]
pub(crate) enum OperandSource {
    /// The leaf with this number.
    Leaf(usize),
    /// The small node at this place.
    Node(u32),
}

/// A leaf or a small node, its table over the leaves, and how late it comes.
#[derive(Clone, Copy)]
pub(crate) struct Operand {
    pub from: OperandSource,
    pub table: u16,
    pub level: u32,
}

impl Ground {
    /// Of leaves in a network of so many inputs, if all are there and no two of one source.
    pub(crate) fn of(inputs: u32, reached: [Reached; 4]) -> Option<Ground> {
        let mut ground = Ground {
            sources: EMPTY,
            inverted: [false; 4],
            levels: [0; 4],
        };
        for (k, one) in reached.iter().enumerate() {
            let signal = one.signal?;
            let code = code_of(inputs, signal.from);
            if ground.leaf_of(code).is_some() {
                return None;
            }
            ground.sources.codes[k % 4] = code;
            ground.inverted[k % 4] = signal.inverted;
            ground.levels[k % 4] = one.level;
        }
        Some(ground)
    }

    /// The leaf that is of the source with this number, if one is.
    pub(crate) fn leaf_of(&self, code: u32) -> Option<usize> {
        self.sources.place_of(code)
    }

    /// The sources of some leaves, the bits of a number, if they are there and at least two.
    fn cut(&self, some: u32) -> Option<Cut> {
        let mut cut = EMPTY;
        for (k, code) in self.sources.codes.iter().enumerate() {
            if (some >> (k % 4)) & 1 == 1 {
                if *code == NONE {
                    return None;
                }
                cut = with(cut, *code)?;
            }
        }
        if cut.codes[1] == NONE {
            return None;
        }
        Some(cut)
    }

    /// A function of the sources of a cut as one of the leaves.
    fn table(&self, cut: Cut, table: u16) -> u16 {
        spread(table, cut, self.sources, self.inverted)
    }

    /// The leaves as operands.
    fn leaves(&self, alloc: Global) -> Result<Vec<Operand>, Memory> {
        let mut found = Vec::new(alloc);
        for (k, code) in self.sources.codes.iter().enumerate() {
            if *code != NONE {
                found.push(Operand {
                    from: OperandSource::Leaf(k),
                    table: input(k),
                    level: self.levels[k % 4],
                })?;
            }
        }
        Ok(found)
    }
}

impl<'a> Trying<'a> {
    /// Whether a small node may be read.
    fn is_kept(&self, place: u32) -> bool {
        !self
            .lost
            .iter()
            .any(|other| other.from == SignalSource::Node(place))
    }

    /// How late a small node comes.
    fn level(&self, place: u32) -> u32 {
        match self.levels.get(place as usize) {
            Some(level) => *level,
            None => 0,
        }
    }

    /// Adds the small nodes that are functions of these leaves.
    fn add_nodes(
        &self,
        alloc: Global,
        ground: &Ground,
        cut: Cut,
        found: &mut Vec<Operand>,
    ) -> Result<(), Memory> {
        for tabled in &self.tables.of(alloc, cut)? {
            if found.len() < MOST_OPERANDS && self.is_kept(tabled.place) {
                found.push(Operand {
                    from: OperandSource::Node(tabled.place),
                    table: ground.table(cut, tabled.table),
                    level: self.level(tabled.place),
                })?;
            }
        }
        Ok(())
    }

    /// The leaves, and small nodes that are functions of some of them: fifteen look-ups.
    pub(crate) fn operands(&self, alloc: Global, ground: &Ground) -> Result<Vec<Operand>, Memory> {
        let mut found = ground.leaves(alloc)?;
        for some in 3..16u32 {
            if let Some(cut) = ground.cut(some) {
                self.add_nodes(alloc, ground, cut, &mut found)?;
            }
        }
        Ok(found)
    }
}
