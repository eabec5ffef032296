//! Small nodes that grow in number, none of them twice.
ghost use Rattle.std.specs.Prelude.{◌≡◌, ◌++◌, ◌∷◌, [], IfOk, IfSome, Some, slice_get, length, true};
ghost use Rattle.ncl_plans.specs.Pools.{PutsForm};

use crate::form::Form;
use crate::small::{Op, Small};
use crate::stop::Stop;
use ncl_base::Memory;
use ncl_network::{Signal, SignalSource};
use std::alloc::Global;

/// The most small nodes of a network.
const MOST_POOL_NODES: usize = 16_777_216;

/// How many chains there are of small nodes, and how many nodes of one are looked at.
const CHAINS: u32 = 16_384;

const LONGEST: usize = 64;

/// Small nodes, with chains of those that may be equal.
#[derive(Drop)]
pub struct Pool {
    /// The small nodes, each after those that it reads.
    pub smalls: Vec<Small>,
    heads: Vec<u32>,
    next: Vec<u32>,
}

/// A number for a signal.
fn signal_number(signal: Signal) -> u32 {
    let number = match signal.from {
        SignalSource::Input(place) => place.wrapping_mul(2_654_435_761),
        SignalSource::Node(place) => place.wrapping_mul(2_246_822_519).wrapping_add(97),
        SignalSource::Const(_) => 1,
    };
    if signal.inverted {
        number.wrapping_add(40_503)
    } else {
        number
    }
}

/// The chain that a small node is in.
fn chain(small: &Small) -> usize {
    let op = match small.op {
        Op::And => 0,
        Op::Differ => 7_919,
        Op::Majority => 15_485,
        Op::Choose => 32_452,
    };
    let number = signal_number(small.first)
        .wrapping_mul(31)
        .wrapping_add(signal_number(small.second))
        .wrapping_mul(31)
        .wrapping_add(signal_number(small.third))
        .wrapping_add(op);
    ((number >> 7) % CHAINS) as usize
}

/// Whether two operations are equal.
fn is_same_op(first: Op, second: Op) -> bool
    ensures { result ≡ true → first ≡ second }
{
    first == second
}

/// Whether two signals are equal.
fn is_same_signal(first: Signal, second: Signal) -> bool
    ensures { result ≡ true → first ≡ second }
{
    first.from == second.from && first.inverted == second.inverted
}

/// Whether two small nodes are equal.
fn is_same(first: &Small, second: &Small) -> bool
    ensures { result ≡ true → first.now ≡ second.now }
{
    is_same_op(first.op, second.op)
        && is_same_signal(first.first, second.first)
        && is_same_signal(first.second, second.second)
        && is_same_signal(first.third, second.third)
}

impl Pool {
    /// No small nodes.
    pub fn new(alloc: Global) -> Result<Pool, Memory>
        ensures { IfOk result (λ pool. pool.smalls.items ≡ []) }
    {
        Ok(Pool {
            smalls: Vec::new(alloc),
            heads: vec![in alloc; u32::MAX; CHAINS as usize]?,
            next: Vec::new(alloc),
        })
    }

    /// The place of a small node, if it is found: in its chain at most `LONGEST` nodes are looked at.
    pub fn find(&self, small: &Small) -> Option<u32>
        ensures { IfSome result (λ place. slice_get self.now.smalls.items place ≡ Some small.now) }
    {
        let mut at = *self.heads.get(chain(small))?;
        for _ in 0..LONGEST {
            let other = self.smalls.get(at as usize)?;
            if is_same(other, small) {
                return Some(at);
            }
            at = *self.next.get(at as usize)?;
        }
        None
    }

    /// Adds a small node, and gives its place.
    fn push(&mut self, small: Small) -> Result<u32, Stop>
        ensures { IfOk result (λ place. (place ≡ length self.old.smalls.items) × (self.new.smalls.items ≡ self.old.smalls.items ++ small ∷ [])) }
    {
        if self.smalls.len() >= MOST_POOL_NODES {
            return Err(Stop::GivenUp);
        }
        let place = self.smalls.len() as u32;
        let chain = chain(&small);
        let before = match self.heads.get(chain) {
            Some(head) => *head,
            None => u32::MAX,
        };
        self.next.push(before)?;
        self.smalls.push(small)?;
        if let Some(head) = self.heads.get_mut(chain) {
            *head = place;
        }
        Ok(place)
    }

    /// The signal of a form. Its small node is added where it isn't found.
    pub(crate) fn put(&mut self, form: Form) -> Result<Signal, Stop>
        ensures { IfOk result (PutsForm form self.old.smalls.items self.new.smalls.items) }
    {
        match form {
            Form::Known(signal) => Ok(signal),
            Form::New(small, inverted) => {
                let place = match self.find(&small) {
                    Some(place) => place,
                    None => self.push(small)?,
                };
                Ok(Signal {
                    from: SignalSource::Node(place),
                    inverted,
                })
            }
        }
    }
}
