//! Whether a plan computes a node.
ghost use Rattle.std.specs.Prelude.{◌≡◌, OnOk, IfOk, Bool};
ghost use Rattle.ncl_network.specs.declared.network.SignalSource.{SignalSource};
ghost use Rattle.ncl_plans.specs.Cones.{Respects, IsKnown, Computes, ComputesAt, fact, leaf_bits};

use crate::cone::{Known, Leaves, known_bit, learn_all};
use crate::plan::{Plan, plan_bit};
use crate::stop::Stop;
use ncl_decomp::table::word_of;
use ncl_network::{Node, SignalSource};
use std::alloc::Global;

/// A way to compute a node: of four leaves, through nodes in order of which it is the last, and by a plan.
#[derive(Drop)]
pub struct Choice {
    /// The leaves.
    pub leaves: Leaves,
    /// The places of the nodes.
    pub cone: Vec<u32>,
    /// The plan.
    pub plan: Plan,
}

/// That a source has this bit.
fn fact(from: SignalSource, bit: bool) -> Known
    ensures { result ≡ fact from bit }
{
    Known { from, bit }
}

/// What is known where the leaves have the bits of a word, once the nodes at these places have theirs, one after another.
pub fn known_at(
    alloc: Global,
    nodes: &[Node],
    leaves: Leaves,
    cone: &[u32],
    word: [bool; 4],
) -> Result<Vec<Known>, Stop>
    ensures { IfOk result (λ known. (value : SignalSource → Bool) → Respects nodes.now value → leaf_bits value leaves ≡ word → IsKnown value known.items) }
{
    let first = fact(leaves.first, word[0]);
    let second = fact(leaves.second, word[1]);
    let third = fact(leaves.third, word[2]);
    let fourth = fact(leaves.fourth, word[3]);
    let mut known = vec![in alloc; first, second, third, fourth]?;
    learn_all(alloc, nodes, cone, &mut known)?;
    Ok(known)
}

/// Refuses a choice if its plan doesn't give the bit of a node where the leaves have the bits of a word.
fn test_word(
    alloc: Global,
    nodes: &[Node],
    place: u32,
    choice: &Choice,
    word: [bool; 4],
) -> Result<(), Stop>
    ensures { OnOk result (ComputesAt nodes.now place choice.now.leaves choice.now.plan word) }
{
    let known = known_at(alloc, nodes, choice.leaves, &choice.cone, word)?;
    let bit = known_bit(&known, SignalSource::Node(place))?;
    let planned = plan_bit(&choice.plan, Vec::from_array(alloc, word)?)?;
    if bit == planned {
        Ok(())
    } else {
        Err(Stop::GivenUp)
    }
}

/// Refuses a choice whose plan doesn't compute a node: it is tried at the sixteen words of the leaves. Linear in
/// the nodes of the cone and in the steps.
pub fn test(alloc: Global, nodes: &[Node], place: u32, choice: &Choice) -> Result<(), Stop>
    ensures { OnOk result (Computes nodes.now place choice.now.leaves choice.now.plan) }
{
    for number in 0..16 {
        test_word(alloc, nodes, place, choice, word_of(number))?;
    }
    Ok(())
}
