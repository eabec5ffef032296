//! The table of nodes.
ghost use Rattle.std.specs.Prelude.{ℕ, ◌≡◌, ◌<◌, ◌≤◌, ◌+◌, ◌-◌, [], ◌∷◌, ◌++◌, false, IfOk, OnErr, IsErrOf, length, take, Some, if◌then◌else◌, ◌*◌, ◌^◌};
ghost use Rattle.std.specs.List.{list_any};
ghost use Rattle.std.specs.Hash as fed;
ghost use Rattle.std.specs.Cmp.Rules.{hashing};
ghost use Rattle.std.proofs.Common.{rules};
ghost use Rattle.ncl_diagram.specs.Nodes.{IsCanonical, constant_place, is_node, node_at};

use crate::steps::Steps;
use indexmap::IndexSet;
use ncl_space::{Ref, SpaceFault};
use std::alloc::Global;
use std::hash::{Hash, Hasher};
use std::marker::Model;
use std::sync::ledger::Ledger;

/// How many nodes have a place of 32 bits, since the constants have the first two.
const MOST_NODE_REFS: usize = 4_294_967_294;

/// A node: the bit that it reads, and where it goes on from a 0 and from a 1.
#[derive(Clone, Copy, PartialEq, Eq)]
pub(crate) struct Node {
    pub(crate) bit: u8,
    pub(crate) low: Ref,
    pub(crate) high: Ref,
}

// One write of a bit and two places, where the derived one makes three.
impl Hash for Node {
    ghost hash_input = { λ n. fed.u128 (n.bit * 2 ^ 64 + (n.low.place * 2 ^ 32 + n.high.place)) };

    ghost respects_eq = { Prim.search (hashing, rules) };

    fn hash<H: Hasher>(&self, state: &mut H) {
        let places = self.low.place as u64 * 4_294_967_296 + self.high.place as u64;
        state.write_u128(self.bit as u128 * 18_446_744_073_709_551_616 + places as u128);
    }
}

/// Nodes without doubles, seen as their list.
#[derive(Drop)]
pub(crate) struct Nodes {
    set: IndexSet<Node>,
}

impl Model for Nodes {
    ghost use Rattle.std.specs.Prelude.{List};
    ghost use Rattle.ncl_diagram.specs.declared.nodes.Node.{Node};

    ghost Value = { List Node };

    ghost view = { λ a. a.set.keys };
}

impl Nodes {
    /// No nodes.
    pub(crate) fn new(alloc: Global) -> Nodes
        ensures none { result ≡ [] }
        ensures canonical { (n : ℕ) → IsCanonical n result }
    {
        Nodes {
            set: IndexSet::new(alloc),
        }
    }

    /// Leaves the first nodes alone. Linear in the nodes that go.
    pub(crate) fn truncate(&mut self, count: usize)
        ensures { self.new ≡ take count self.old }
    {
        self.set.truncate(count);
    }

    /// How many there are.
    pub(crate) fn len(&self) -> usize
        ensures { result ≡ length self.now }
    {
        self.set.len()
    }

    /// The node at a place; none at the constants. One step.
    pub(crate) fn read<L: Ledger>(&self, at: Ref, count: &mut Steps<L>) -> Option<Node>
        requires { at.place < length self.now + 2 }
        ensures node { result ≡ node_at self.now at.place }
        ensures steps { count.new ≡ count.old + 1 }
    {
        count.tick();
        if at.place < 2 {
            return None;
        }
        Some(self.set.as_slice()[at.place as usize - 2])
    }

    /// The place of the node, found, or added where the limit allows it. One step.
    pub(crate) fn find_or_add<L: Ledger>(
        &mut self,
        node: Node,
        limit: u32,
        steps: &mut Steps<L>,
    ) -> Result<Ref, SpaceFault>
        requires { length self.old ≤ limit }
        ensures steps { steps.new ≡ steps.old + 1 }
        ensures at { IfOk result (λ r. node_at self.new r.place ≡ Some node) }
        ensures added { IfOk result (λ _. self.new ≡
            (if list_any (is_node node) self.old then self.old else self.old ++ node ∷ [])) }
        ensures few { length self.new ≤ limit }
        ensures one { length self.new ≤ length self.old + 1 }
        ensures err { OnErr result (self.new ≡ self.old) }
        ensures full { IsErrOf result SpaceFault.Full → length self.old ≡ limit }
        ensures absent { IsErrOf result SpaceFault.Full → list_any (is_node node) self.old ≡ false }
    {
        steps.tick();
        let count = self.set.len();
        if count >= limit as usize {
            let Some(at) = self.set.get_index_of(&node) else {
                return Err(SpaceFault::Full);
            };
            if at >= MOST_NODE_REFS {
                return Err(SpaceFault::Memory);
            }
            return Ok(Ref {
                place: at as u32 + 2,
            });
        }
        if count >= MOST_NODE_REFS {
            return Err(SpaceFault::Memory);
        }
        let (at, _) = self.set.insert_full(node)?;
        Ok(Ref {
            place: at as u32 + 2,
        })
    }
}

/// The place of a constant.
pub(crate) fn constant(value: bool) -> Ref
    ensures { result.place ≡ constant_place value }
{
    Ref {
        place: u32::from(value),
    }
}
