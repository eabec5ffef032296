//! The gates of a stage.
ghost use Rattle.std.specs.Prelude.{◌≡◌, ◌≤◌, ◌<◌, ◌^◌, true, length, IfOk, IfSome};
ghost use Rattle.ncl_decomp.specs.Split.{IsSplit};
ghost use Rattle.ncl_cells.specs.Remade.{IsSameAs};
ghost use Rattle.ncl_rails.specs.Complete.{IsComplete};
ghost use Rattle.ncl_rails.specs.Waiting.{IsCovered, waits_of};
ghost use Rattle.ncl_rails.specs.GatesOf.{CanHaveGates, AreGatesOf};

use crate::complete::complete;
use crate::depth::depth;
use crate::layout::{Layout, lay_out};
use crate::relaxing::{relaxed, told_or_all};
use ncl_base::Memory;
use ncl_cells::{improve, recast, reordered};
use ncl_choice::carries_first;
use ncl_joins::{Joins, has_sums, joins_of, reckoned_depth};
use ncl_network::Network;
use ncl_plans::Way;
use ncl_template::Waits;
use std::alloc::Global;

/// What each node of a network waits for: as is told, if that will do, or as is found.
fn waits_for(
    alloc: Global,
    network: &Network,
    told: Option<Vec<Waits>>,
) -> Result<Vec<Waits>, Memory>
    requires complete { IsComplete network.now }
    requires few { length network.now.nodes < 2 ^ 32 }
    ensures { IfOk result (λ waits. IsCovered network.now (waits_of waits.items)) }
{
    match told {
        Some(waits) => told_or_all(alloc, network, waits),
        None => relaxed(alloc, network),
    }
}

/// The gates of a network whose nodes wait as is told, if that will do, or as is found. Near linear in the network.
fn gates_of(alloc: Global, network: &Network, told: Option<Vec<Waits>>) -> Result<Layout, Memory>
    requires { CanHaveGates network.now }
    ensures { IfOk result (λ layout. AreGatesOf network.now layout.gates layout.outputs.items) }
{
    let complete = complete(alloc, network)?;
    let waits = waits_for(alloc, &complete, told)?;
    let layout = lay_out(alloc, &complete, &waits)?;
    Ok(layout)
}

/// How large a stage is.
#[derive(Clone, Copy)]
struct Size {
    /// How many gates it has.
    gates: usize,
    /// How many stand one after another at most.
    depth: u32,
}

impl Size {
    /// The size of gates over so many inputs. Linear in the gates.
    fn of(alloc: Global, layout: &Layout, inputs: u32) -> Result<Size, Memory>
        ensures { IfOk result (λ size. size.gates ≡ length layout.now.gates.cells) }
    {
        Ok(Size {
            gates: layout.gates.cells().len(),
            depth: depth(alloc, inputs.saturating_mul(2), layout.gates.cells())?,
        })
    }

    /// Whether it is better than another: of fewer gates, and no deeper than that or than so many; or of as many, and less deep.
    fn is_better(self, other: Size, most: u32) -> bool
        ensures { result ≡ true → self.gates ≤ other.gates }
    {
        if self.gates == other.gates {
            return self.depth < other.depth;
        }
        self.gates < other.gates && self.depth <= most.max(other.depth)
    }
}

/// A number and a tenth of it.
fn a_tenth_more(number: u32) -> u32 {
    number.saturating_add(number / 10)
}

/// The most gates that may stand one after another: a tenth more than where each node waits for all that it reads, as is reckoned.
/// Linear in the network.
fn most_depth(alloc: Global, network: &Network) -> Result<u32, Memory>
    requires { CanHaveGates network.now }
{
    let complete = complete(alloc, network)?;
    let depth = reckoned_depth(alloc, &complete)?;
    Ok(a_tenth_more(depth))
}

/// Gates of a network, and how many may stand one after another in others that are taken in their place.
#[derive(Drop)]
struct Usual {
    layout: Layout,
    most: u32,
}

/// The gates of a network, or those of another one with the same answers, where these are better: fewer, and no deeper than the
/// others or than may be; or as many, and less deep. What the nodes of the other one wait for is told or found.
fn better_gates(
    alloc: Global,
    network: &Network,
    usual: Usual,
    other: &Network,
    told: Option<Vec<Waits>>,
) -> Result<Usual, Memory>
    requires network { CanHaveGates network.now }
    requires usual { AreGatesOf network.now usual.layout.gates usual.layout.outputs.items }
    requires other { IsSplit other.now }
    requires same { IsSameAs network.now other.now }
    ensures gates { IfOk result (λ found. AreGatesOf network.now found.layout.gates found.layout.outputs.items) }
    ensures fewer { IfOk result (λ found. length found.layout.gates.cells ≤ length usual.layout.gates.cells) }
{
    let layout = gates_of(alloc, other, told)?;
    let before = Size::of(alloc, &usual.layout, network.inputs)?;
    let after = Size::of(alloc, &layout, network.inputs)?;
    let most = usual.most;
    if after.is_better(before, most) {
        return Ok(Usual { layout, most });
    }
    Ok(usual)
}

/// The gates of a network, or those of another one with the same answers and with some nodes joined, where these are better. Nodes
/// are joined such that so many gates stand one after another, as is reckoned.
fn joined_within(
    alloc: Global,
    network: &Network,
    usual: Usual,
    other: &Network,
    reckoned: u32,
) -> Result<Usual, Memory>
    requires network { CanHaveGates network.now }
    requires usual { AreGatesOf network.now usual.layout.gates usual.layout.outputs.items }
    requires other { IsSplit other.now }
    requires same { IsSameAs network.now other.now }
    ensures gates { IfOk result (λ found. AreGatesOf network.now found.layout.gates found.layout.outputs.items) }
    ensures fewer { IfOk result (λ found. length found.layout.gates.cells ≤ length usual.layout.gates.cells) }
{
    let Some(Joins { offers, waits }) = joins_of(alloc, other, usual.most, reckoned)? else {
        return Ok(usual);
    };
    match recast(alloc, other, &offers)? {
        Some(joined) => better_gates(alloc, network, usual, &joined, Some(waits)),
        None => Ok(usual),
    }
}

/// The same, where nodes are joined as if any number of gates might stand one after another, or where better gates come of it as
/// if no more might than may, or an eighth less, since what is raised afterwards may be deeper than was reckoned.
fn joined_gates(
    alloc: Global,
    network: &Network,
    usual: Usual,
    other: &Network,
) -> Result<Usual, Memory>
    requires network { CanHaveGates network.now }
    requires usual { AreGatesOf network.now usual.layout.gates usual.layout.outputs.items }
    requires other { IsSplit other.now }
    requires same { IsSameAs network.now other.now }
    ensures gates { IfOk result (λ found. AreGatesOf network.now found.layout.gates found.layout.outputs.items) }
    ensures fewer { IfOk result (λ found. length found.layout.gates.cells ≤ length usual.layout.gates.cells) }
{
    let most = usual.most;
    let joined = joined_within(alloc, network, usual, other, u32::MAX)?;
    let joined = joined_within(alloc, network, joined, other, most)?;
    joined_within(alloc, network, joined, other, most - most / 8)
}

/// A network with its carries before its sums, if sums can be made beside carries such that no more than so many gates stand one
/// after another.
fn turned(alloc: Global, network: &Network, most: u32) -> Result<Option<Network>, Memory>
    requires { IsSplit network.now }
    ensures network { IfOk result (λ turned. IfSome turned IsSplit) }
    ensures same { IfOk result (λ turned. IfSome turned (IsSameAs network.now)) }
{
    if !has_sums(alloc, network, most)? {
        return Ok(None);
    }
    let order = carries_first(alloc, network)?;
    reordered(alloc, network, &order)
}

/// The gates of a network, or those of another one with the same answers, where these are better: as it is, with some of its nodes
/// joined, or with its carries before its sums and with some nodes joined.
fn other_gates(
    alloc: Global,
    network: &Network,
    usual: Usual,
    other: &Network,
) -> Result<Usual, Memory>
    requires network { CanHaveGates network.now }
    requires usual { AreGatesOf network.now usual.layout.gates usual.layout.outputs.items }
    requires other { IsSplit other.now }
    requires same { IsSameAs network.now other.now }
    ensures gates { IfOk result (λ found. AreGatesOf network.now found.layout.gates found.layout.outputs.items) }
    ensures fewer { IfOk result (λ found. length found.layout.gates.cells ≤ length usual.layout.gates.cells) }
{
    let found = better_gates(alloc, network, usual, other, None)?;
    let found = joined_gates(alloc, network, found, other)?;
    match turned(alloc, other, found.most)? {
        Some(turned) => joined_gates(alloc, network, found, &turned),
        None => Ok(found),
    }
}

/// The gates of a network, or those of one that is made anew this way, where these are better.
fn anew_gates(alloc: Global, network: &Network, usual: Usual, way: Way) -> Result<Usual, Memory>
    requires network { CanHaveGates network.now }
    requires usual { AreGatesOf network.now usual.layout.gates usual.layout.outputs.items }
    ensures gates { IfOk result (λ found. AreGatesOf network.now found.layout.gates found.layout.outputs.items) }
    ensures fewer { IfOk result (λ found. length found.layout.gates.cells ≤ length usual.layout.gates.cells) }
{
    match improve(alloc, network, way)? {
        Some(other) => other_gates(alloc, network, usual, &other),
        None => Ok(usual),
    }
}

/// The gates of a network, or those of one that is made anew as if each node waited for all, where these are better. Others may be a
/// tenth deeper than its nodes are where each waits for all, as is reckoned.
fn first_gates(alloc: Global, network: &Network) -> Result<Usual, Memory>
    requires { CanHaveGates network.now }
    ensures { IfOk result (λ first. AreGatesOf network.now first.layout.gates first.layout.outputs.items) }
{
    let layout = gates_of(alloc, network, None)?;
    let Some(waiting) = improve(alloc, network, Way::WAITING)? else {
        let most = most_depth(alloc, network)?;
        return other_gates(alloc, network, Usual { layout, most }, network);
    };
    let most = most_depth(alloc, &waiting)?;
    other_gates(alloc, network, Usual { layout, most }, &waiting)
}

/// Gates that compute a network: its own, or those of others with the same answers that are made of it, where these are better:
/// fewer, and no deeper than the others or than they may be; or as many, and less deep. What reads other nodes in place of its own
/// may be a tenth deeper than what was found before. Near linear in the network. The only error is want of memory.
pub(crate) fn stage_gates(alloc: Global, network: &Network) -> Result<Layout, Memory>
    requires { CanHaveGates network.now }
    ensures { IfOk result (λ layout. AreGatesOf network.now layout.gates layout.outputs.items) }
{
    let first = first_gates(alloc, network)?;
    let Usual { layout, .. } = anew_gates(alloc, network, first, Way::EAGER)?;
    let Size { depth, .. } = Size::of(alloc, &layout, network.inputs)?;
    let most = a_tenth_more(depth);
    let found = anew_gates(alloc, network, Usual { layout, most }, Way::BORROWING)?;
    let found = anew_gates(alloc, network, found, Way::BORROWING_TWICE)?;
    Ok(found.layout)
}
