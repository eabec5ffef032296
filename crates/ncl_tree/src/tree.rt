//! Trees of gates.
ghost use Rattle.std.specs.Prelude.{◌≡◌, ◌+◌, ◌<◌, ◌≤◌, ◌^◌, IfOk, length};
ghost use Rattle.ncl_gates.specs.Gate.{arity_of};
ghost use Rattle.ncl_tree.specs.Gates.{nets_so_far};
ghost use Rattle.ncl_tree.specs.GateTree.{IsOfFamily, AddsTree};

use crate::gates::Gates;
use arrayvec::ArrayVec;
use ncl_base::Memory;
use ncl_gates::Kind;
use ncl_netlist::NetId;

/// The gates that a tree is made of.
#[derive(Clone, Copy, Debug, PartialEq, Eq)]
pub enum Family {
    /// TH12, TH13 and TH14: high where some input is.
    Any,
    /// TH22, TH33 and TH44: high where all inputs are, and low where all are low.
    All,
}

/// The gate of a family that has so many inputs.
fn kind_of(family: Family, inputs: usize) -> Kind
    requires some { 2 ≤ inputs }
    requires few { inputs ≤ 4 }
    ensures family { IsOfFamily family result }
    ensures arity { arity_of result ≡ inputs }
{
    match (family, inputs) {
        (Family::Any, 2) => Kind::Th12,
        (Family::Any, 3) => Kind::Th13,
        (Family::Any, _) => Kind::Th14,
        (Family::All, 2) => Kind::Th22,
        (Family::All, 3) => Kind::Th33,
        (Family::All, _) => Kind::Th44,
    }
}

/// At most four nets as the inputs of a gate. Linear in them.
fn inputs_of(nets: &[NetId]) -> ArrayVec<NetId, 4>
    requires { length nets.now ≤ 4 }
    ensures { result.items ≡ nets.now }
{
    let mut ins: ArrayVec<NetId, 4> = ArrayVec::new();
    for net in nets {
        ins.push(*net);
    }
    ins
}

/// Adds a balanced tree over these nets, with as few gates as can be, and gives its root: the net itself where
/// there is one. Linear in the leaves. The only error is want of memory.
///
/// Each gate takes the first nets of a queue, and its output joins the end. The first gate takes two, three or four,
/// such that each later one can take four.
pub fn add_tree(gates: &mut Gates, family: Family, leaves: &[NetId]) -> Result<NetId, Memory>
    requires some { 0 < length leaves.now }
    requires room { nets_so_far gates.old + length leaves.now < 2 ^ 32 }
    ensures tree { IfOk result (λ root. AddsTree family leaves.now gates.old.cells gates.new.cells root) }
    ensures first { gates.new.first ≡ gates.old.first }
{
    let mut queue = Vec::from_slice(gates.alloc(), leaves)?;
    let mut at = 0usize;
    let mut taken = (leaves.len() + 1) % 3 + 2;
    while at + 1 < queue.len() {
        let kind = kind_of(family, taken);
        let ins = inputs_of(&queue[at..at + taken]);
        let out = gates.add(kind, ins)?;
        queue.push(out)?;
        at += taken;
        taken = 4;
    }
    Ok(queue[at])
}
