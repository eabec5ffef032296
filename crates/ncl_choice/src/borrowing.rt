//! Plans that read what small nodes compute already (Mishchenko and Brayton 2006, resubstitution).
use crate::cut::code_of;
use crate::operands::{Ground, Operand, OperandSource};
use crate::operations::{Operation, Second, one_operation, two_operations};
use crate::trying::{Reached, Trying};
use ncl_base::Memory;
use ncl_decomp::table::support;
use ncl_network::Signal;
use ncl_plans::{Arg, Op, Plan, Small, Step, Stop};
use std::alloc::Global;

/// The most small nodes behind a plan.
const MOST_BEHIND: usize = 24;

/// The step of a plan that is the small node at this place, where it begins with those at these places.
fn step_arg(places: &[u32], place: u32, inverted: bool) -> Result<Arg, Stop> {
    match places.iter().position(|other| *other == place) {
        Some(at) => Ok(Arg {
            place: at.saturating_add(4),
            inverted,
        }),
        None => Err(Stop::GivenUp),
    }
}

/// An operand, inverted or not, in such a plan.
fn operand_arg(places: &[u32], operand: Operand, inverted: bool) -> Result<Arg, Stop> {
    match operand.from {
        OperandSource::Leaf(place) => Ok(Arg { place, inverted }),
        OperandSource::Node(place) => step_arg(places, place, inverted),
    }
}

/// Adds a step of two arguments, and gives what stands for it, inverted or not.
fn add_step(
    steps: &mut Vec<Step>,
    op: Op,
    first: Arg,
    second: Arg,
    inverted: bool,
) -> Result<Arg, Stop> {
    let place = steps.len().saturating_add(4);
    steps.push(Step {
        op,
        first,
        second,
        third: first,
    })?;
    Ok(Arg { place, inverted })
}

/// Adds an operation on operands.
fn add_operation(
    places: &[u32],
    steps: &mut Vec<Step>,
    operation: &Operation,
) -> Result<Arg, Stop> {
    let [one, other, whole] = operation.turns;
    let first = operand_arg(places, operation.first, one)?;
    let second = operand_arg(places, operation.second, other)?;
    add_step(steps, operation.op, first, second, whole)
}

/// The small nodes among operands, each once.
fn nodes_among(alloc: Global, operands: &[Operand]) -> Result<Vec<u32>, Stop> {
    let mut places = Vec::new(alloc);
    for operand in operands {
        if let OperandSource::Node(place) = operand.from
            && !places.iter().any(|other| *other == place)
        {
            places.push(place)?;
        }
    }
    Ok(places)
}

/// A function of four leaves.
#[derive(Clone, Copy)]
pub(crate) struct Wanted {
    pub table: u16,
    pub leaves: [Reached; 4],
}

/// What plans read: leaves, and small nodes.
#[derive(Clone, Copy)]
struct Site<'a> {
    ground: &'a Ground,
    trying: &'a Trying<'a>,
}

impl<'a> Site<'a> {
    /// How many inputs the network has.
    fn inputs(&self) -> u32 {
        self.trying.tables.inputs
    }

    /// What a signal of a small node is in a plan that begins with the small nodes at these places.
    fn signal_arg(&self, places: &[u32], signal: Signal) -> Result<Arg, Stop> {
        let code = code_of(self.inputs(), signal.from);
        if let Some(place) = self.ground.leaf_of(code) {
            let inverted = signal.inverted != self.ground.inverted[place % 4];
            return Ok(Arg { place, inverted });
        }
        step_arg(places, code.wrapping_sub(self.inputs()), signal.inverted)
    }

    /// Adds the small nodes that a small node reads, but for leaves.
    fn add_read(&self, places: &mut Vec<u32>, small: &Small) -> Result<(), Stop> {
        for signal in [small.first, small.second, small.third] {
            let code = code_of(self.inputs(), signal.from);
            let place = code.wrapping_sub(self.inputs());
            if self.ground.leaf_of(code).is_none() && !places.iter().any(|other| *other == place) {
                places.push(place)?;
            }
        }
        Ok(())
    }

    /// The small nodes behind some, and these, in order, if they are few.
    fn behind(&self, begun: Vec<u32>) -> Result<Vec<u32>, Stop> {
        let mut places = begun;
        for at in 0..MOST_BEHIND {
            let Some(place) = places.get(at).copied() else {
                places.sort_unstable();
                return Ok(places);
            };
            match self.trying.pool.smalls.get(place as usize) {
                Some(small) => self.add_read(&mut places, small)?,
                None => return Err(Stop::GivenUp),
            }
        }
        Err(Stop::GivenUp)
    }

    /// The small nodes at some places as steps.
    fn steps(&self, alloc: Global, places: &[u32]) -> Result<Vec<Step>, Stop> {
        let mut steps = Vec::new(alloc);
        for place in places {
            let Some(small) = self.trying.pool.smalls.get(*place as usize) else {
                return Err(Stop::GivenUp);
            };
            steps.push(Step {
                op: small.op,
                first: self.signal_arg(places, small.first)?,
                second: self.signal_arg(places, small.second)?,
                third: self.signal_arg(places, small.third)?,
            })?;
        }
        Ok(steps)
    }

    /// The plan of an operation on operands.
    fn plan_of_one(&self, alloc: Global, operation: &Operation) -> Result<Plan, Stop> {
        let read = nodes_among(alloc, &[operation.first, operation.second])?;
        let places = self.behind(read)?;
        let mut steps = self.steps(alloc, &places)?;
        let out = add_operation(&places, &mut steps, operation)?;
        Ok(Plan { steps, out })
    }

    /// The plan of an operation on an operand and on another operation.
    fn plan_of_two(&self, alloc: Global, second: &Second) -> Result<Plan, Stop> {
        let inner = second.inner;
        let read = nodes_among(alloc, &[second.first, inner.first, inner.second])?;
        let places = self.behind(read)?;
        let mut steps = self.steps(alloc, &places)?;
        let inner = add_operation(&places, &mut steps, &inner)?;
        let first = operand_arg(&places, second.first, second.turns[0])?;
        let out = add_step(&mut steps, second.op, first, inner, second.turns[1])?;
        Ok(Plan { steps, out })
    }

    /// The plan of a function by at most so many operations.
    fn plan(&self, alloc: Global, table: u16, operations: u8) -> Result<Plan, Stop> {
        let operands = self.trying.operands(alloc, self.ground)?;
        if let Some(found) = one_operation(&operands, table) {
            return self.plan_of_one(alloc, &found);
        }
        if operations > 1
            && let Some(found) = two_operations(&operands, table)
        {
            return self.plan_of_two(alloc, &found);
        }
        Err(Stop::GivenUp)
    }
}

/// The plan of a function by at most so many operations on its leaves and on what small nodes compute of these, if there is one.
pub(crate) fn borrowed(
    alloc: Global,
    trying: &Trying,
    wanted: Wanted,
    operations: u8,
) -> Result<Option<Plan>, Memory> {
    if operations == 0 || support(wanted.table) < 2 {
        return Ok(None);
    }
    let Some(ground) = Ground::of(trying.tables.inputs, wanted.leaves) else {
        return Ok(None);
    };
    let site = Site {
        ground: &ground,
        trying,
    };
    match site.plan(alloc, wanted.table, operations) {
        Ok(plan) => Ok(Some(plan)),
        Err(Stop::GivenUp) => Ok(None),
        Err(Stop::Memory) => Err(Memory),
    }
}
