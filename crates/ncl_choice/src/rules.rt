//! How a function of up to four bits is made of small nodes.
use ncl_base::Memory;
use ncl_decomp::table::{cofactor, depends, input, joined, support};
use ncl_plans::Way;
use std::alloc::Global;

/// How a function is made of small nodes, of which the inputs go by their numbers.
#[derive(Clone, Copy)]
pub(crate) enum Rule {
    /// It depends on at most two inputs.
    Short,
    /// Where this input has this bit the function is constant.
    Top(usize, bool, bool),
    /// Where this input is 1 it is the inverse of what it is where it is 0.
    Parity(usize),
    /// Two inputs matter only through one bit, with this table; the other table takes it in place of the first.
    Join(usize, usize, u16, u16),
    /// What most of the three inputs are that are not this one, where these three bits say which are inverted.
    Majority(usize, bool, bool, bool),
    /// By this input one literal or another.
    Choose(usize),
    /// What it is where this input has this bit, turned where the input has the other bit and this matters.
    Add(usize, bool),
    /// What it is where this input has this bit, or the input has the other bit and it is 1 there.
    Grow(usize, bool),
}

/// A rule, and how many cells it costs.
#[derive(Clone, Copy)]
pub(crate) struct Priced {
    pub rule: Rule,
    pub cells: u32,
}

/// Finds rules, and keeps what functions cost.
#[derive(Drop)]
pub(crate) struct Planner {
    pub way: Way,
    costs: Vec<u8>,
}

/// What is not known yet.
const UNKNOWN: u8 = 255;

/// The rule of an input at the top, if it is one.
fn top_of(table: u16, k: usize) -> Option<Rule> {
    let low = cofactor(table, k, false);
    let high = cofactor(table, k, true);
    if low == high {
        return None;
    }
    if low == 0 || low == 0xFFFF {
        return Some(Rule::Top(k, false, low != 0));
    }
    if high == 0 || high == 0xFFFF {
        return Some(Rule::Top(k, true, high != 0));
    }
    if low == !high {
        return Some(Rule::Parity(k));
    }
    None
}

/// The first rule of an input at the top.
fn top(table: u16) -> Option<Rule> {
    for k in 0..4usize {
        if let Some(rule) = top_of(table, k) {
            return Some(rule);
        }
    }
    None
}

/// The rule of two inputs that matter through one bit, if they do.
pub(crate) fn join(table: u16, first: usize, second: usize) -> Option<Rule> {
    if !depends(table, first) || !depends(table, second) {
        return None;
    }
    let low = cofactor(table, second, false);
    let high = cofactor(table, second, true);
    let base = cofactor(low, first, false);
    let rows = [
        cofactor(low, first, true),
        cofactor(high, first, false),
        cofactor(high, first, true),
    ];
    let other = if rows[0] != base {
        rows[0]
    } else if rows[1] != base {
        rows[1]
    } else {
        rows[2]
    };
    if rows.iter().any(|row| *row != base && *row != other) {
        return None;
    }
    let bit = |row: u16| if row == base { 0u16 } else { 0xFFFF };
    let op = joined(
        second,
        joined(first, 0, bit(rows[0])),
        joined(first, bit(rows[1]), bit(rows[2])),
    );
    Some(Rule::Join(first, second, op, joined(first, base, other)))
}

/// What most of three tables are.
fn majority_table(first: u16, second: u16, third: u16) -> u16 {
    (first & second) | (first & third) | (second & third)
}

/// The table, or its inverse.
pub(crate) fn turned(table: u16, turn: bool) -> u16 {
    if turn { !table } else { table }
}

/// The three inputs that are not this one.
pub(crate) fn others(k: usize) -> [usize; 3] {
    match k {
        0 => [1, 2, 3],
        1 => [0, 2, 3],
        2 => [0, 1, 3],
        _ => [0, 1, 2],
    }
}

/// The rule of a majority of three inputs, some of them inverted, if it is one. A fixed number of steps.
fn majority(table: u16, idle: usize) -> Option<Rule> {
    let [x, y, z] = others(idle);
    for turns in 0..8u32 {
        let first = turns & 1 != 0;
        let second = turns & 2 != 0;
        let third = turns & 4 != 0;
        let found = majority_table(
            turned(input(x), first),
            turned(input(y), second),
            turned(input(z), third),
        );
        if found == table {
            return Some(Rule::Majority(idle, first, second, third));
        }
    }
    None
}

/// The rule of a choice between two literals, if it is one.
fn choice(table: u16) -> Option<Rule> {
    for k in 0..4usize {
        if support(cofactor(table, k, false)) == 1 && support(cofactor(table, k, true)) == 1 {
            return Some(Rule::Choose(k));
        }
    }
    None
}

/// The rule of a small node of three inputs, if it is one.
fn three(table: u16) -> Option<Rule> {
    if support(table) != 3 {
        return None;
    }
    for idle in 0..4usize {
        if !depends(table, idle)
            && let Some(rule) = majority(table, idle)
        {
            return Some(rule);
        }
    }
    choice(table)
}

/// The cheaper of two rules, the first where they cost the same.
fn cheaper(first: Option<Priced>, second: Priced) -> Option<Priced> {
    match first {
        Some(first) if first.cells <= second.cells => Some(first),
        _ => Some(second),
    }
}

impl Planner {
    /// Knows no costs yet.
    pub(crate) fn new(alloc: Global, way: Way) -> Result<Planner, Memory> {
        let costs = vec![in alloc; UNKNOWN; 65_536]?;
        Ok(Planner { way, costs })
    }

    /// About how many cells a function costs.
    #[cycle(pricing)]
    fn cells(&mut self, fuel: u32, table: u16) -> u32 {
        if fuel == 0 {
            return 100;
        }
        if let Some(cells) = self.costs.get(table as usize)
            && *cells != UNKNOWN
        {
            return u32::from(*cells);
        }
        let cells = self.rule(fuel - 1, table).cells;
        if let Some(cost) = self.costs.get_mut(table as usize) {
            *cost = (cells % 256) as u8;
        }
        cells
    }

    /// The cheapest rule of a function, which is taken to need no more steps than the fuel.
    #[cycle(pricing)]
    pub(crate) fn rule(&mut self, fuel: u32, table: u16) -> Priced {
        let inputs = support(table);
        if inputs <= 2 || fuel == 0 {
            let cells = if inputs == 2 { 2 } else { 0 };
            return Priced {
                rule: Rule::Short,
                cells,
            };
        }
        if let Some(rule) = top(table) {
            return self.priced(fuel - 1, table, rule);
        }
        if let Some(found) = self.cheapest_join(fuel - 1, table) {
            return found;
        }
        let mut found = self.cheapest_split(fuel - 1, table);
        if let Some(rule) = three(table) {
            found = cheaper(found, self.priced(fuel - 1, table, rule));
        }
        match found {
            Some(found) => found,
            None => Priced {
                rule: Rule::Short,
                cells: 100,
            },
        }
    }

    /// A rule with what it costs.
    #[cycle(pricing)]
    fn priced(&mut self, fuel: u32, table: u16, rule: Rule) -> Priced {
        let cells = match rule {
            Rule::Short => 0,
            Rule::Top(k, at, _) => self.cells(fuel, cofactor(table, k, !at)).saturating_add(2),
            Rule::Parity(k) => self
                .cells(fuel, cofactor(table, k, false))
                .saturating_add(2),
            Rule::Join(_, _, _, rest) => self.cells(fuel, rest).saturating_add(2),
            Rule::Majority(..) => u32::from(self.way.majority),
            Rule::Choose(_) => u32::from(self.way.choice),
            Rule::Add(k, at) => {
                let low = cofactor(table, k, false);
                let high = cofactor(table, k, true);
                let rest = self.cells(fuel, low ^ high);
                let first = self.cells(fuel, if at { high } else { low });
                first.saturating_add(rest).saturating_add(4)
            }
            Rule::Grow(k, _) => {
                let low = self.cells(fuel, cofactor(table, k, false));
                let high = self.cells(fuel, cofactor(table, k, true));
                low.saturating_add(high).saturating_add(4)
            }
        };
        Priced { rule, cells }
    }

    /// The cheapest rule of two inputs that matter through one bit, the last where several cost the same. A fixed
    /// number of steps.
    #[cycle(pricing)]
    fn cheapest_join(&mut self, fuel: u32, table: u16) -> Option<Priced> {
        let mut found = None;
        for (first, second) in [(2usize, 3usize), (1, 3), (1, 2), (0, 3), (0, 2), (0, 1)] {
            if let Some(rule) = join(table, first, second) {
                let priced = self.priced(fuel, table, rule);
                found = cheaper(found, priced);
            }
        }
        found
    }

    /// The cheapest rule that splits a function by an input. A fixed number of steps.
    #[cycle(pricing)]
    fn cheapest_split(&mut self, fuel: u32, table: u16) -> Option<Priced> {
        let mut found = None;
        for k in 0..4usize {
            if depends(table, k) {
                found = self.cheaper_split(fuel, table, k, found);
            }
        }
        found
    }

    /// The cheapest of a rule and those that split a function by this input.
    #[cycle(pricing)]
    fn cheaper_split(
        &mut self,
        fuel: u32,
        table: u16,
        k: usize,
        found: Option<Priced>,
    ) -> Option<Priced> {
        let low = cofactor(table, k, false);
        let high = cofactor(table, k, true);
        let mut found = cheaper(found, self.priced(fuel, table, Rule::Add(k, false)));
        found = cheaper(found, self.priced(fuel, table, Rule::Add(k, true)));
        if low & !high == 0 {
            found = cheaper(found, self.priced(fuel, table, Rule::Grow(k, false)));
        }
        if high & !low == 0 {
            found = cheaper(found, self.priced(fuel, table, Rule::Grow(k, true)));
        }
        found
    }
}
