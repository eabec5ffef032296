//! What a plan would add to a pool.
use crate::levels::{op_level, signal_level};
use crate::tabled::Tables;
use ncl_base::Memory;
use ncl_network::{Signal, SignalSource};
use ncl_plans::{Arg, Form, Op, Plan, Pool, Step, Way, and, choose, differ, majority};
use std::alloc::Global;

/// A signal, if it is there, and the gates on the longest way to it.
#[derive(Clone, Copy)]
pub(crate) struct Reached {
    pub signal: Option<Signal>,
    pub level: u32,
}

/// What a plan would add: so many cells, and so many gates on the longest way to what it computes.
#[derive(Clone, Copy)]
pub(crate) struct Trial {
    pub cells: usize,
    pub level: u32,
}

/// What always gives 0.
const NOTHING: Reached = Reached {
    signal: Some(Signal {
        from: SignalSource::Const(false),
        inverted: false,
    }),
    level: 0,
};

/// What an argument is.
fn reached_by(reached: &[Reached], arg: Arg) -> Reached {
    match reached.get(arg.place) {
        Some(one) => *one,
        None => NOTHING,
    }
}

/// The signal of an argument, if it is there.
fn arg_signal(reached: &[Reached], arg: Arg) -> Option<Signal> {
    let signal = reached_by(reached, arg).signal?;
    Some(Signal {
        from: signal.from,
        inverted: signal.inverted != arg.inverted,
    })
}

/// What a step comes to, if its arguments are there.
fn step_form(signals: &[Reached], step: &Step) -> Option<Form> {
    let first = arg_signal(signals, step.first)?;
    let second = arg_signal(signals, step.second)?;
    match step.op {
        Op::And => Some(and(first, second)),
        Op::Differ => Some(differ(first, second)),
        Op::Majority => majority(first, second, arg_signal(signals, step.third)?),
        Op::Choose => choose(first, second, arg_signal(signals, step.third)?),
    }
}

/// What a step comes to, and whether its small node is to be counted: it isn't there, or is among those that nothing
/// would read.
#[derive(Clone, Copy)]
struct Counted {
    signal: Option<Signal>,
    is_added: bool,
}

/// What plans are tried on: small nodes, what they are functions of, how late they come, and those that nothing else would read.
#[derive(Clone, Copy)]
pub(crate) struct Trying<'a> {
    pub way: Way,
    pub pool: &'a Pool,
    pub tables: &'a Tables,
    pub levels: &'a [u32],
    pub lost: &'a [Signal],
}

impl<'a> Trying<'a> {
    /// The signal of a step, if it is there.
    fn step_signal(&self, reached: &[Reached], step: &Step) -> Counted {
        let none = Counted {
            signal: None,
            is_added: true,
        };
        match step_form(reached, step) {
            None => none,
            Some(Form::Known(signal)) => Counted {
                signal: Some(signal),
                is_added: false,
            },
            Some(Form::New(small, inverted)) => match self.pool.find(&small) {
                None => none,
                Some(place) => {
                    let from = SignalSource::Node(place);
                    Counted {
                        signal: Some(Signal { from, inverted }),
                        is_added: self.lost.iter().any(|other| other.from == from),
                    }
                }
            },
        }
    }

    /// The level of a step, which is known where its node is there.
    fn step_level(&self, reached: &[Reached], step: &Step, signal: Option<Signal>) -> u32 {
        match signal {
            Some(signal) => signal_level(self.levels, signal),
            None => op_level(
                step.op,
                reached_by(reached, step.first).level,
                reached_by(reached, step.second).level,
                reached_by(reached, step.third).level,
            ),
        }
    }

    /// About how many cells an operation becomes.
    fn cells(&self, op: Op) -> usize {
        match op {
            Op::And | Op::Differ => 2,
            Op::Majority => usize::from(self.way.majority),
            Op::Choose => usize::from(self.way.choice),
        }
    }

    /// The cells that a plan over these leaves would add, and its level. Linear in the steps times what is lost.
    pub(crate) fn added(
        &self,
        alloc: Global,
        plan: &Plan,
        leaves: [Reached; 4],
    ) -> Result<Trial, Memory> {
        let [first, second, third, fourth] = leaves;
        let mut reached = vec![in alloc; first, second, third, fourth]?;
        let mut cells = 0usize;
        for step in &plan.steps {
            let Counted { signal, is_added } = self.step_signal(&reached, step);
            if is_added {
                cells = cells.saturating_add(self.cells(step.op));
            }
            let level = self.step_level(&reached, step, signal);
            reached.push(Reached { signal, level })?;
        }
        let level = reached_by(&reached, plan.out).level;
        Ok(Trial { cells, level })
    }
}
