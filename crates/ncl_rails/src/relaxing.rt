//! What nodes wait for: a node need not wait for what another waits for.
ghost use Rattle.std.specs.Prelude.{◌<◌, ◌^◌, length, IfOk};
ghost use Rattle.ncl_rails.specs.Complete.{IsComplete};
ghost use Rattle.ncl_rails.specs.Waiting.{IsCovered, waits_of};

use crate::held::{Cover, is_covered, is_shared, waits_at};
use ncl_base::Memory;
use ncl_joins::{BySource, MOST_HOLDERS, waits_found};
use ncl_network::{Network, Signal, SignalSource};
use ncl_template::{Waits, fit_of};
use std::alloc::Global;

/// What is claimed to hold each input and each node.
#[derive(Drop)]
struct Claims {
    covers: BySource<Cover>,
}

/// Adds a node to those that hold a source together.
fn joined(cover: Cover, by: u32) -> Cover {
    let Cover::Waiters(mut holders) = cover else {
        return cover;
    };
    for holder in holders.iter_mut() {
        if *holder == u32::MAX {
            *holder = by;
            return Cover::Waiters(holders);
        }
    }
    cover
}

/// Whether nodes that are claimed to hold a source together don't.
fn is_unheld(network: &Network, waits: &[Waits], cover: Cover, source: SignalSource) -> bool {
    match cover {
        Cover::Waiters(holders) => !is_shared(network, waits, &holders, source),
        _ => false,
    }
}

impl Claims {
    /// An output that is of it, or a node that waits for it, or nodes that do at some words. Linear in the network.
    fn made(alloc: Global, network: &Network, waits: &[Waits]) -> Result<Claims, Memory> {
        let none = Cover::Waiters([u32::MAX; MOST_HOLDERS]);
        let mut claims = Claims {
            covers: BySource::all(alloc, network, none)?,
        };
        for (by, node) in network.nodes.items().iter().enumerate() {
            claims.claim(by, node.ins.items(), waits_at(waits, by));
        }
        for (at, signal) in network.outputs.items().iter().enumerate() {
            if let Some(cover) = claims.covers.get_mut(signal.from) {
                *cover = Cover::Output(at);
            }
        }
        Ok(claims)
    }

    /// A node for the sources of the signals that it waits for.
    fn claim(&mut self, by: usize, ins: &[Signal], waits: Waits) {
        for (place, signal) in ins.iter().enumerate() {
            let Some(cover) = self.covers.get_mut(signal.from) else {
                continue;
            };
            if waits.always(place) {
                *cover = Cover::Waiter(by);
            } else if waits.once(place)
                && let Ok(by) = u32::try_from(by)
            {
                *cover = joined(*cover, by);
            }
        }
    }

    /// Whether nothing holds a source as is claimed. What holds it is not asked again.
    fn is_open(&mut self, network: &Network, waits: &[Waits], source: SignalSource) -> bool {
        let Some(cover) = self.covers.get_mut(source) else {
            return false;
        };
        let claimed = *cover;
        *cover = Cover::Output(0);
        is_unheld(network, waits, claimed, source)
    }

    /// What a node that reads some signals waits for, and always for those that nothing holds.
    fn wanted(&mut self, network: &Network, waits: &[Waits], ins: &[Signal], own: Waits) -> Waits {
        let mut wanted = own;
        for (place, signal) in ins.iter().enumerate() {
            if self.is_open(network, waits, signal.from) {
                wanted = wanted.with(place, u16::MAX);
            }
        }
        wanted
    }
}

/// What each node waits for, where the last that reads what isn't held waits for it always. Linear in the network.
fn raised(alloc: Global, network: &Network, waits: Vec<Waits>) -> Result<Vec<Waits>, Memory> {
    let mut waits = waits;
    let mut claims = Claims::made(alloc, network, &waits)?;
    for (by, node) in network.nodes.items().iter().enumerate().rev() {
        let own = waits_at(&waits, by);
        let wanted = claims.wanted(network, &waits, node.ins.items(), own);
        if wanted != own
            && let Some(raised) = waits.get_mut(by)
        {
            *raised = fit_of(node, wanted).waits;
        }
    }
    Ok(waits)
}

/// What each node of a network waits for: what is told, if an output then waits for each input and each node, or else
/// all. What isn't told waits for all. Linear in the network. The only error is want of memory.
pub(crate) fn told_or_all(
    alloc: Global,
    network: &Network,
    waits: Vec<Waits>,
) -> Result<Vec<Waits>, Memory>
    requires complete { IsComplete network.now }
    requires few { length network.now.nodes < 2 ^ 32 }
    ensures { IfOk result (λ waits. IsCovered network.now (waits_of waits.items)) }
{
    let waits = raised(alloc, network, waits)?;
    let claims = Claims::made(alloc, network, &waits)?;
    let covers = &claims.covers;
    if is_covered(network, &waits, &covers.inputs, &covers.nodes) {
        return Ok(waits);
    }
    let none = Vec::new(alloc);
    Ok(none)
}

/// What each node of a network waits for, such that an output waits for each input and each node. What isn't told
/// waits for all. Linear in the network. The only error is want of memory.
pub(crate) fn relaxed(alloc: Global, network: &Network) -> Result<Vec<Waits>, Memory>
    requires complete { IsComplete network.now }
    requires few { length network.now.nodes < 2 ^ 32 }
    ensures { IfOk result (λ waits. IsCovered network.now (waits_of waits.items)) }
{
    let waits = waits_found(alloc, network)?;
    told_or_all(alloc, network, waits)
}
