//! Functions of few sources as nodes.

use ncl_base::{Items, Memory};
use ncl_blif::{Lit, Row};
use ncl_decomp::table::{cofactor, depends, inverted};
use ncl_network::{Node, Signal, SignalSource};
use ncl_plans::Leaves;
use std::alloc::Global;

/// What stands where there is no source.
const NONE: SignalSource = SignalSource::Const(false);

/// At most four sources, each once.
#[derive(Clone, Copy)]
pub(crate) struct Sources {
    pub at: [SignalSource; 4],
    pub count: usize,
}

impl Sources {
    /// No source.
    pub(crate) fn new() -> Sources {
        Sources {
            at: [NONE; 4],
            count: 0,
        }
    }

    /// Adds a source, if it isn't there, and tells whether there is room for it.
    pub(crate) fn add(&mut self, from: SignalSource) -> bool {
        if self.at.iter().any(|other| *other == from) {
            return true;
        }
        if self.count >= 4 {
            return false;
        }
        self.at[self.count] = from;
        self.count += 1;
        true
    }

    /// Adds the sources of signals but for a node, and tells whether there is room for them.
    pub(crate) fn add_all(&mut self, signals: &[Signal], but: SignalSource) -> bool {
        for signal in signals {
            if signal.from != but && !self.add(signal.from) {
                return false;
            }
        }
        true
    }

    /// The sources as signals that aren't inverted.
    pub(crate) fn signals(&self) -> [Signal; 4] {
        self.at.map(|from| Signal {
            from,
            inverted: false,
        })
    }

    /// The sources as leaves.
    pub(crate) fn leaves(&self) -> Leaves {
        Leaves {
            first: self.at[0],
            second: self.at[1],
            third: self.at[2],
            fourth: self.at[3],
        }
    }
}

/// How a function changes where an input rises.
#[derive(Clone, Copy)]
enum Way {
    Stays,
    Rises,
    Falls,
    Both,
}

/// How the function of a table changes where an input rises.
fn way_of(table: u16, k: usize) -> Way {
    let before = cofactor(table, k, false);
    let after = cofactor(table, k, true);
    if before == after {
        Way::Stays
    } else if before & !after == 0 {
        Way::Rises
    } else if after & !before == 0 {
        Way::Falls
    } else {
        Way::Both
    }
}

/// Whether the function of a table depends on as many of its first inputs.
pub(crate) fn depends_on(table: u16, count: usize) -> bool {
    for k in 0..count.min(4) {
        if !depends(table, k) {
            return false;
        }
    }
    true
}

/// Whether an input is 1 at a word.
fn is_one(word: u16, k: usize) -> bool {
    word & [1u16, 2, 4, 8][k % 4] != 0
}

/// The value of a table at a word.
fn value(table: u16, word: u16) -> bool {
    (table >> (word % 16)) & 1 == 1
}

/// A function of few inputs that rises or stays where some of them rise.
#[derive(Clone, Copy)]
struct Function {
    table: u16,
    rises: [bool; 4],
    inputs: usize,
}

impl Function {
    /// Whether the function is 1 at a word, and at none with fewer of the inputs at which it rises.
    fn is_least(&self, word: u16) -> bool {
        for k in 0..4usize {
            let below = word & !([1u16, 2, 4, 8][k]);
            if self.rises[k] && is_one(word, k) && value(self.table, below) {
                return false;
            }
        }
        value(self.table, word)
    }

    /// The row of such a word.
    fn row(&self, alloc: Global, word: u16) -> Result<Row, Memory> {
        let mut lits = Vec::new(alloc);
        for k in 0..self.inputs {
            let lit = if is_one(word, k) {
                Lit::One
            } else if self.rises[k % 4] {
                Lit::Dash
            } else {
                Lit::Zero
            };
            lits.push(lit)?;
        }
        Ok(Items::from_vec(lits))
    }

    /// The rows of its ON-set.
    fn rows(&self, alloc: Global) -> Result<Items<Row>, Memory> {
        let mut rows = Vec::new(alloc);
        for word in 0..16u16 {
            if self.is_least(word) {
                rows.push(self.row(alloc, word)?)?;
            }
        }
        Ok(Items::from_vec(rows))
    }
}

/// The node of a function of some sources, by its table: the signals at which it only falls are inverted.
pub(crate) fn node_of(alloc: Global, sources: &Sources, table: u16) -> Result<Node, Memory> {
    let mut function = Function {
        table,
        rises: [true; 4],
        inputs: sources.count,
    };
    let mut ins = Vec::new(alloc);
    for k in 0..sources.count.min(4) {
        let way = way_of(table, k);
        let falls = way == Way::Falls;
        if falls {
            function.table = inverted(function.table, k);
        }
        function.rises[k] = way != Way::Both;
        ins.push(Signal {
            from: sources.at[k],
            inverted: falls,
        })?;
    }
    Ok(Node {
        ins: Items::from_vec(ins),
        on: true,
        rows: function.rows(alloc)?,
    })
}
