//! What each node of a network becomes.
use crate::borrowing::{Wanted, borrowed};
use crate::cut::{Cut, NodeCuts, network_cuts, source_of};
use crate::drafting::{Inputs, draft};
use crate::leaves::{Made, leaves_of, reached_leaves};
use crate::levels::add_levels;
use crate::rules::Planner;
use crate::tabled::Tables;
use crate::trying::{Reached, Trial, Trying};
use ncl_base::Memory;
use ncl_network::{Network, Node, Signal, SignalSource};
use ncl_plans::{
    Arg, Choice, Leaves, Plan, Pool, Stop, Way, cone_of, freed, readers_of, table_of_cone,
};
use std::alloc::Global;

/// How the nodes are looked at.
#[derive(Clone, Copy)]
enum Look {
    /// Each alone.
    Alone,
    /// Through others, and of leaves that come at once the first one first.
    Through,
    /// Through others, and of leaves that come at once the last one first.
    Turned,
}

/// Chooses what each node of a network becomes.
#[derive(Drop)]
pub struct Chooser {
    planner: Planner,
    look: Look,
    readers: Vec<u32>,
    cuts: Vec<NodeCuts>,
    levels: Vec<u32>,
    tables: Tables,
}

/// A node of a network, with the signals that the nodes before it have become.
#[derive(Clone, Copy)]
pub struct Turn<'a> {
    /// The network.
    pub network: &'a Network,
    /// The small nodes so far.
    pub pool: &'a Pool,
    /// The signals, by the places of the nodes.
    pub images: &'a [Signal],
    /// The place of the node.
    pub place: u32,
}

/// A choice, the cells that it frees, and what it adds.
#[derive(Drop)]
struct Weighed {
    choice: Choice,
    freed: usize,
    added: Trial,
}

/// A plan, and what it adds.
#[derive(Drop)]
struct Tried {
    plan: Plan,
    added: Trial,
}

/// The cells that two operations cost.
const TWO_OPERATIONS: usize = 4;

/// The steps that no plan needs more of.
const FUEL: u32 = 12;

/// Whether a source is among others. Linear in them.
fn is_among(sources: &[SignalSource], from: SignalSource) -> bool {
    sources.iter().any(|source| *source == from)
}

/// The sources that a node reads, each once. Quadratic in its inputs.
fn sources_of(alloc: Global, node: &Node) -> Result<Vec<SignalSource>, Memory> {
    let mut found = Vec::new(alloc);
    for signal in node.ins.items() {
        if !is_among(&found, signal.from) {
            found.push(signal.from)?;
        }
    }
    Ok(found)
}

/// The argument that is this leaf.
fn leaf(place: usize) -> Arg {
    Arg {
        place,
        inverted: false,
    }
}

/// The signals that some nodes have become, but for those that have become none yet.
fn images_of(alloc: Global, images: &[Signal], places: &[u32]) -> Result<Vec<Signal>, Memory> {
    let mut found = Vec::new(alloc);
    for place in places {
        if let Some(signal) = images.get(*place as usize) {
            found.push(*signal)?;
        }
    }
    Ok(found)
}

/// The levels of the four leaves.
fn levels_of(leaves: [Reached; 4]) -> [u32; 4] {
    let [first, second, third, fourth] = leaves;
    [first.level, second.level, third.level, fourth.level]
}

/// What saves more cells, or else has fewer gates one after another, the first where both have as many.
fn better(first: Weighed, second: Weighed) -> Weighed {
    let with_first = first.freed.saturating_add(second.added.cells);
    let with_second = second.freed.saturating_add(first.added.cells);
    let is_earlier = second.added.level < first.added.level;
    if with_second > with_first || (with_second == with_first && is_earlier) {
        second
    } else {
        first
    }
}

/// A plan over leaves, with what it adds.
fn tried_plan(
    alloc: Global,
    trying: &Trying,
    plan: Plan,
    leaves: [Reached; 4],
) -> Result<Tried, Memory> {
    let added = trying.added(alloc, &plan, leaves)?;
    Ok(Tried { plan, added })
}

/// What adds fewer cells, or as many and comes earlier, the first where both are alike.
fn cheaper(first: Tried, second: Tried) -> Tried {
    let is_fewer = second.added.cells < first.added.cells;
    let is_earlier = second.added.cells == first.added.cells
        && second.added.level < first.added.level;
    if is_fewer || is_earlier {
        second
    } else {
        first
    }
}

/// A plan, or one of what small nodes compute already, whichever is cheaper. Two operations are looked for only where both what is
/// freed and what the plan adds cost more.
fn or_borrowed(
    alloc: Global,
    trying: &Trying,
    drafted: Tried,
    wanted: Wanted,
    freed: usize,
) -> Result<Tried, Memory> {
    let is_dear = drafted.added.cells > TWO_OPERATIONS && freed > TWO_OPERATIONS;
    let most = if is_dear { 2u8 } else { 1 };
    match borrowed(alloc, trying, wanted, most.min(trying.way.borrowed))? {
        Some(plan) => Ok(cheaper(drafted, tried_plan(alloc, trying, plan, wanted.leaves)?)),
        None => Ok(drafted),
    }
}

impl Chooser {
    /// Looks at each node alone, this way.
    pub fn new(alloc: Global, way: Way) -> Result<Chooser, Memory> {
        Ok(Chooser {
            planner: Planner::new(alloc, way)?,
            look: Look::Alone,
            readers: Vec::new(alloc),
            cuts: Vec::new(alloc),
            levels: Vec::new(alloc),
            tables: Tables::new(alloc, 0),
        })
    }

    /// Begins with the nodes of a network. Linear in them.
    pub fn begin(&mut self, alloc: Global, network: &Network) -> Result<(), Memory> {
        self.readers = readers_of(alloc, network)?;
        self.levels = Vec::new(alloc);
        self.tables = Tables::new(alloc, network.inputs);
        if self.look != Look::Alone {
            self.cuts = network_cuts(alloc, network)?;
        }
        Ok(())
    }

    /// Which way it makes a network anew.
    pub fn way(&self) -> Way {
        self.planner.way
    }

    /// Whether it has no other way to look.
    pub fn is_last(&self) -> bool {
        self.look == Look::Turned
    }

    /// Looks another way from now on, if the last round gained nothing or looked at each node alone.
    pub fn go_on(&mut self, gained: bool) {
        self.look = match self.look {
            Look::Alone => Look::Through,
            Look::Through if gained => Look::Through,
            _ => Look::Turned,
        };
    }

    /// What the nodes have become so far.
    fn made<'a>(&'a self, images: &'a [Signal]) -> Made<'a> {
        Made {
            images,
            levels: &self.levels,
        }
    }

    /// The way to compute a function of four leaves with these levels.
    fn plan(&mut self, alloc: Global, table: u16, levels: [u32; 4]) -> Result<Plan, Memory> {
        let mut steps = Vec::new(alloc);
        let args = [leaf(0), leaf(1), leaf(2), leaf(3)];
        let inputs = Inputs { args, levels };
        let out = draft(&mut self.planner, FUEL, &mut steps, table, inputs)?;
        Ok(Plan { steps, out })
    }

    /// What a node becomes of some sources, through the nodes of a cone.
    fn weighed(
        &mut self,
        alloc: Global,
        turn: &Turn,
        leaves: Leaves,
        cone: Vec<u32>,
    ) -> Result<Weighed, Stop> {
        let nodes = turn.network.nodes.items();
        let table = table_of_cone(alloc, nodes, &cone, leaves)?;
        let reached = reached_leaves(self.made(turn.images), leaves);
        let plan = self.plan(alloc, table, levels_of(reached))?;
        let freed = freed(alloc, self.way(), nodes, &self.readers, &cone)?;
        let lost = images_of(alloc, turn.images, &freed.places)?;
        let trying = Trying {
            way: self.way(),
            pool: turn.pool,
            tables: &self.tables,
            levels: &self.levels,
            lost: &lost,
        };
        let drafted = tried_plan(alloc, &trying, plan, reached)?;
        let wanted = Wanted {
            table,
            leaves: reached,
        };
        let Tried { plan, added } = or_borrowed(alloc, &trying, drafted, wanted, freed.cells)?;
        let choice = Choice { leaves, cone, plan };
        Ok(Weighed {
            choice,
            freed: freed.cells,
            added,
        })
    }

    /// What a node becomes of the sources that it reads.
    fn own_choice(&mut self, alloc: Global, turn: &Turn) -> Result<Weighed, Stop> {
        let Some(node) = turn.network.nodes.items().get(turn.place as usize) else {
            return Err(Stop::GivenUp);
        };
        let sources = sources_of(alloc, node)?;
        let leaves = leaves_of(self.made(turn.images), self.is_last(), &sources);
        let cone = vec![in alloc; turn.place]?;
        self.weighed(alloc, turn, leaves, cone)
    }

    /// What a node becomes of the sources of a cut, if this can be seen.
    fn cut_choice(&mut self, alloc: Global, turn: &Turn, cut: Cut) -> Result<Weighed, Stop> {
        let mut sources = Vec::new(alloc);
        for code in cut.codes {
            sources.push(source_of(turn.network.inputs, code))?;
        }
        let leaves = leaves_of(self.made(turn.images), self.is_last(), &sources);
        let cone = cone_of(alloc, turn.network.nodes.items(), turn.place, leaves)?;
        self.weighed(alloc, turn, leaves, cone)
    }

    /// What a node becomes: of the sources that it reads, or of those of a cut of it, what saves the most cells.
    pub fn choose(&mut self, alloc: Global, turn: &Turn) -> Result<Choice, Stop> {
        add_levels(&mut self.levels, &turn.pool.smalls)?;
        if self.look != Look::Alone && self.way().borrowed > 0 {
            self.tables.add_all(alloc, &turn.pool.smalls)?;
        }
        let mut best = self.own_choice(alloc, turn)?;
        let cuts = match self.cuts.get(turn.place as usize) {
            Some(cuts) => *cuts,
            None => return Ok(best.choice),
        };
        for cut in cuts.cuts.iter().take(cuts.count) {
            match self.cut_choice(alloc, turn, *cut) {
                Ok(other) => best = better(best, other),
                Err(Stop::GivenUp) => {}
                Err(Stop::Memory) => return Err(Stop::Memory),
            }
        }
        Ok(best.choice)
    }
}
