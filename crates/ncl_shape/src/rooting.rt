//! The sixth inner rule: each bank has one root, and that of the first bank is an output port.
ghost use Rattle.std.specs.Prelude.{◌<◌, ◌↔◌, ◌⊎◌, ℕ, IfOk, IsTrue, MatchOption, length};
ghost use Rattle.ncl_cell_rules.specs.Free.{IsFree};
ghost use Rattle.ncl_cell_rules.specs.Origin.{IsOutputPort};
ghost use Rattle.ncl_cell_rules.specs.Rules.{IsRequest};
ghost use Rattle.ncl_shape.specs.Chain.{HasRoots, IsAcknowledged, IsChain, IsRoot};
ghost use Rattle.ncl_shape.specs.ChainSteps.{AreRootsOf, numbers_of};

use crate::chain::Relation;
use crate::only_nets::only_nets;
use ncl_base::Memory;
use ncl_cell_rules::{Origins, Source, is_output_port};
use ncl_netlist::NetId;
use std::alloc::Global;

/// Whether a net is a request or an output port.
fn is_used(origins: &Origins, net: NetId) -> bool
    requires inside { net.0 < length origins.now.netlist.nets }
    ensures { IsTrue result ↔ (IsRequest origins.now.netlist net.0 ⊎ IsOutputPort origins.now.netlist net.0) }
{
    if origins.first(net).is_some() {
        return true;
    }
    is_output_port(origins.netlist(), net)
}

/// The bank of whose tree a net is a root: it comes from the acknowledge cells of that bank alone, and is a request or
/// an output port.
pub(crate) fn bank_of_root(origins: &Origins, net: NetId) -> Option<NetId>
    requires inside { net.0 < length origins.now.netlist.nets }
    requires free { IsFree origins.now.netlist }
    ensures { MatchOption result ((bank : ℕ) → IsRoot origins.now.netlist bank net.0 → ⊥) (λ bank. IsRoot origins.now.netlist bank.0 net.0) }
{
    let Source::Ack(bank) = origins.source(net) else {
        return None;
    };
    if !is_used(origins, net) {
        return None;
    }
    Some(bank)
}

/// The roots of the banks in their order; `None` where a bank has none, or two. That of the first bank is then an
/// output port, since no bank stands before that asks for it. Linear in nets and banks.
pub(crate) fn find_roots(
    alloc: Global,
    origins: &Origins,
    banks: &[NetId],
) -> Result<Option<Vec<NetId>>, Memory>
    requires free { IsFree origins.now.netlist }
    requires chain { IsChain origins.now.netlist (numbers_of banks.now) }
    requires acknowledged { IsAcknowledged origins.now.netlist (numbers_of banks.now) }
    ensures { IfOk result (λ found. MatchOption found (HasRoots origins.now.netlist (numbers_of banks.now) → ⊥) (λ roots. HasRoots origins.now.netlist (numbers_of banks.now) × AreRootsOf origins.now.netlist banks.now roots.items)) }
{
    origins.facts();
    let Some(found) = only_nets(alloc, origins, Relation::Root)? else {
        return Ok(None);
    };
    let mut roots = Vec::new(alloc);
    for bank in banks {
        let Some(root) = found[bank.0 as usize] else {
            return Ok(None);
        };
        roots.push(root)?;
    }
    Ok(Some(roots))
}
