//! The only net of each bank that follows it, or is a root of it.
ghost use Rattle.std.specs.Prelude.{◌<◌, ℕ, IfOk, MatchOption, length};
ghost use Rattle.ncl_cell_rules.specs.Free.{IsFree};
ghost use Rattle.ncl_shape.specs.ChainSteps.{AreOnly, HasMore};
ghost use Rattle.ncl_shape.specs.FoundChain.{Relates};

use crate::chain::Relation;
use crate::entries::put_once;
use crate::following::bank_before;
use crate::rooting::bank_of_root;
use ncl_base::Memory;
use ncl_cell_rules::Origins;
use ncl_netlist::NetId;
use std::alloc::Global;

/// The bank to which a net stands in a relation.
fn bank_of(origins: &Origins, relation: Relation, net: NetId) -> Option<NetId>
    requires inside { net.0 < length origins.now.netlist.nets }
    requires free { IsFree origins.now.netlist }
    ensures { MatchOption result ((bank : ℕ) → Relates origins.now.netlist relation bank net.0 → ⊥) (λ bank. Relates origins.now.netlist relation bank.0 net.0) }
{
    match relation {
        Relation::Follower => bank_before(origins, net),
        Relation::Root => bank_of_root(origins, net),
    }
}

/// For each bank the only net in a relation to it; `None` where a bank has two. Linear in the nets.
pub(crate) fn only_nets(
    alloc: Global,
    origins: &Origins,
    relation: Relation,
) -> Result<Option<Vec<Option<NetId>>>, Memory>
    requires free { IsFree origins.now.netlist }
    ensures { IfOk result (λ found. MatchOption found (HasMore (Relates origins.now.netlist relation)) (λ table. AreOnly origins.now.netlist (Relates origins.now.netlist relation) table.items)) }
{
    let netlist = origins.netlist();
    let mut table: Vec<Option<NetId>> = vec![in alloc; None; netlist.nets().len()]?;
    for place in 0..netlist.nets().len() {
        let net = NetId(place as u32);
        if let Some(bank) = bank_of(origins, relation, net) {
            if !put_once(&mut table, bank, net) {
                return Ok(None);
            }
        }
    }
    Ok(Some(table))
}
