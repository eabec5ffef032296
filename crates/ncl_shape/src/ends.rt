//! The second inner rule: one bank reads input ports, and the request of one bank is an input port.
ghost use Rattle.std.specs.Prelude.{◌≡◌, ◌<◌, ◌↔◌, cond, IsFalse, IsSome, IsTrue, MatchOption, None, Some, length};
ghost use Rattle.ncl_cell_rules.specs.Free.{IsFree};
ghost use Rattle.ncl_shape.specs.Chain.{HasEnds, IsFirstBank, IsLastBank};
ghost use Rattle.ncl_shape.specs.ChainSteps.{IsOnly};

use crate::banks::feed;
use ncl_cell_rules::{Origins, Source, same_source};
use ncl_netlist::NetId;

/// Whether the bank of a request reads input ports.
fn is_first_bank(origins: &Origins, bank: NetId) -> bool
    requires inside { bank.0 < length origins.now.netlist.nets }
    requires free { IsFree origins.now.netlist }
    ensures { IsTrue result ↔ IsFirstBank origins.now.netlist bank.0 }
{
    origins.facts();
    let Some(source) = feed(origins, bank) else {
        return false;
    };
    same_source(source, Source::Port)
}

/// Whether a net is a request and an input port.
fn is_last_bank(origins: &Origins, bank: NetId) -> bool
    requires inside { bank.0 < length origins.now.netlist.nets }
    ensures { IsTrue result ↔ IsLastBank origins.now.netlist bank.0 }
{
    origins.first(bank).is_some() && origins.driver(bank).is_none()
}

/// Puts down a net if a test holds of it, and tells whether no other was put down before.
fn keep_one(found: &mut Option<NetId>, holds: bool, net: NetId) -> bool
    ensures kept { IsTrue result → found.new ≡ cond holds (Some net) found.old }
    ensures free { IsTrue result → IsTrue holds → found.old ≡ None }
    ensures taken { IsFalse result → IsTrue holds × IsSome found.old }
{
    if !holds {
        return true;
    }
    if found.is_some() {
        return false;
    }
    *found = Some(net);
    true
}

/// The bank that reads input ports, where there is one such bank and one whose request is an input port. Linear in
/// the nets.
pub(crate) fn first_of_ends(origins: &Origins) -> Option<NetId>
    requires free { IsFree origins.now.netlist }
    ensures { MatchOption result (HasEnds origins.now.netlist → ⊥) (λ first. HasEnds origins.now.netlist × IsOnly (IsFirstBank origins.now.netlist) first.0) }
{
    let mut first = None;
    let mut last = None;
    for net in 0..origins.netlist().nets().len() {
        let bank = NetId(net as u32);
        if !keep_one(&mut first, is_first_bank(origins, bank), bank) {
            return None;
        }
        if !keep_one(&mut last, is_last_bank(origins, bank), bank) {
            return None;
        }
    }
    if last.is_none() {
        return None;
    }
    first
}
