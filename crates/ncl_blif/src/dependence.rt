//! Which covers a cover reads.
ghost use Rattle.std.specs.Prelude.{◌≡◌, ℕ, ◌<◌, ◌^◌, length, IfOk};
ghost use Rattle.std.specs.List.{filter_map};
ghost use Rattle.std.specs.Ordering.{nat_cmp};
ghost use Rattle.std.specs.BTreeMap.{get};
ghost use Rattle.ncl_blif.specs.Dependence.{driver_place, dependency_graph};
ghost use Rattle.ncl_blif.specs.declared.model.Cover.{Cover};

use crate::model::Cover;
use ncl_base::{Items, Memory};
use ncl_graph::Graph;
use std::alloc::Global;
use std::collections::BTreeMap;

/// The place of the cover that drives each signal that a cover drives: the first, where several do.
///
/// `n log n` in the covers.
fn driver_places(alloc: Global, covers: &[Cover]) -> Result<BTreeMap<u32, u32>, Memory>
    requires { length covers.now < 2 ^ 32 }
    ensures { IfOk result (λ places. (signal : ℕ) → get nat_cmp places signal ≡ driver_place covers.now signal) }
{
    let mut places = BTreeMap::new(alloc);
    for (place, cover) in covers.iter().enumerate() {
        if !places.contains_key(&cover.out) {
            places.insert(cover.out, place as u32)?;
        }
    }
    Ok(places)
}

/// The places of the covers that drive some signals, in order; a signal that no cover drives has none.
///
/// Linear in the signals, with a look-up for each.
fn places_of(
    alloc: Global,
    places: &BTreeMap<u32, u32>,
    signals: &[u32],
) -> Result<Items<u32>, Memory>
    ensures { IfOk result (λ found. found ≡ filter_map (get nat_cmp places.now) signals.now) }
{
    let mut found = Vec::new(alloc);
    for signal in signals {
        if let Some(place) = places.get(signal) {
            found.push(*place)?;
        }
    }
    Ok(Items::from_vec(found))
}

/// The covers as a graph: each leads to the covers that drive the signals that it reads.
///
/// `n log n` in the covers and the signals that they read. The only error is want of memory.
pub fn dependencies(alloc: Global, covers: &[Cover]) -> Result<Graph, Memory>
    requires { length covers.now < 2 ^ 32 }
    ensures { IfOk result (λ graph. graph ≡ dependency_graph covers.now) }
{
    let places = driver_places(alloc, covers)?;
    let mut successors = Vec::new(alloc);
    for cover in covers {
        successors.push(places_of(alloc, &places, cover.ins.items())?)?;
    }
    Ok(Graph::new(Items::from_vec(successors)))
}
