//! A network, improved.
ghost use Rattle.std.specs.Prelude.{IfOk, IfSome};
ghost use Rattle.ncl_decomp.specs.Split.{IsSplit};
ghost use Rattle.ncl_cells.specs.Remade.{IsSameAs};

use crate::remaking::remake;
use ncl_base::Memory;
use ncl_choice::Chooser;
use ncl_network::Network;
use ncl_plans::{MOST_COST, Stop, Way, cells, cost};
use std::alloc::Global;

/// The most rounds: the first takes nodes apart, and the others look through them too.
const ROUNDS: usize = 9;

/// A network after one round more, if it then has fewer cells and costs no more than it may.
fn one_round(
    alloc: Global,
    network: &Network,
    chooser: &mut Chooser,
) -> Result<Option<Network>, Memory>
    requires { IsSplit network.now }
    ensures network { IfOk result (λ found. IfSome found IsSplit) }
    ensures same { IfOk result (λ found. IfSome found (IsSameAs network.now)) }
{
    let made = match remake(alloc, network, chooser) {
        Ok(made) => made,
        Err(Stop::Memory) => return Err(Memory),
        Err(Stop::GivenUp) => return Ok(None),
    };
    let way = chooser.way();
    if cost(&made) <= MOST_COST && cells(way, &made) < cells(way, network) {
        Ok(Some(made))
    } else {
        Ok(None)
    }
}

/// The same after what was found before, if anything was.
fn later_round(
    alloc: Global,
    network: &Network,
    found: &Option<Network>,
    chooser: &mut Chooser,
) -> Result<Option<Network>, Memory>
    requires network { IsSplit network.now }
    requires found { IfSome found.now IsSplit }
    requires same { IfSome found.now (IsSameAs network.now) }
    ensures network { IfOk result (λ made. IfSome made IsSplit) }
    ensures same { IfOk result (λ made. IfSome made (IsSameAs network.now)) }
{
    match found {
        Some(found) => one_round(alloc, found, chooser),
        None => one_round(alloc, network, chooser),
    }
}

/// A network with the same answers and fewer cells, if one is found: the nodes are taken apart into nodes of two
/// inputs, majorities and choices, equal ones are shared, and what few signals compute is made anew of these, where
/// that saves cells as `cells` reckons them this way.
///
/// Near linear in the network, with a fixed number of rounds. The only error is want of memory.
pub fn improve(alloc: Global, network: &Network, way: Way) -> Result<Option<Network>, Memory>
    requires { IsSplit network.now }
    ensures network { IfOk result (λ found. IfSome found IsSplit) }
    ensures same { IfOk result (λ found. IfSome found (IsSameAs network.now)) }
{
    let mut chooser = Chooser::new(alloc, way)?;
    let mut current = one_round(alloc, network, &mut chooser)?;
    chooser.go_on(current.is_some());
    'rounds: for _ in 1..ROUNDS {
        let made = later_round(alloc, network, &current, &mut chooser)?;
        if made.is_none() && chooser.is_last() {
            return Ok(current);
        }
        chooser.go_on(made.is_some());
        current = made.or(current);
    }
    Ok(current)
}
