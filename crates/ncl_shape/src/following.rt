//! The third inner rule: no two banks follow one bank.
ghost use Rattle.std.specs.Prelude.{◌<◌, ℕ, IfOk, MatchOption, length};
ghost use Rattle.ncl_cell_rules.specs.Free.{IsFree};
ghost use Rattle.ncl_shape.specs.Chain.{Follows, IsUnforked};
ghost use Rattle.ncl_shape.specs.ChainSteps.{AreOnly};

use crate::banks::feed;
use crate::chain::Relation;
use crate::only_nets::only_nets;
use ncl_base::Memory;
use ncl_cell_rules::{Origins, Source};
use ncl_netlist::NetId;
use std::alloc::Global;

/// The bank that a bank follows; `None` at the first bank, and where the net is no request.
pub(crate) fn bank_before(origins: &Origins, bank: NetId) -> Option<NetId>
    requires inside { bank.0 < length origins.now.netlist.nets }
    requires free { IsFree origins.now.netlist }
    ensures { MatchOption result ((before : ℕ) → Follows origins.now.netlist before bank.0 → ⊥) (λ before. Follows origins.now.netlist before.0 bank.0) }
{
    origins.facts();
    let Some(source) = feed(origins, bank) else {
        return None;
    };
    let Source::Rail(before) = source else {
        return None;
    };
    Some(before)
}

/// For each bank the bank that follows it; `None` where two banks follow one. Linear in the nets.
pub(crate) fn followers(
    alloc: Global,
    origins: &Origins,
) -> Result<Option<Vec<Option<NetId>>>, Memory>
    requires free { IsFree origins.now.netlist }
    ensures { IfOk result (λ found. MatchOption found (IsUnforked origins.now.netlist → ⊥) (λ followers. IsUnforked origins.now.netlist × AreOnly origins.now.netlist (Follows origins.now.netlist) followers.items)) }
{
    origins.facts();
    let found = only_nets(alloc, origins, Relation::Follower)?;
    Ok(found)
}
