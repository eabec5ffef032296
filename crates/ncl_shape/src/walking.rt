//! The fourth inner rule: the banks form a chain.
ghost use Rattle.std.specs.Prelude.{◌≡◌, ◌<◌, ◌≤◌, ◌+◌, ◌↔◌, All, IfOk, IsTrue, MatchOption, length};
ghost use Rattle.ncl_netlist.specs.declared.ids.NetId.{NetId};
ghost use Rattle.ncl_cell_rules.specs.Free.{IsFree};
ghost use Rattle.ncl_shape.specs.Chain.{Follows, HasChain, IsChain, IsFirstBank, IsUnforked};
ghost use Rattle.ncl_shape.specs.ChainSteps.{AreAllNumbered, AreNumbersOf, AreOnly, IsOnly, IsWalk, numbers_of};

use ncl_base::Memory;
use ncl_cell_rules::Origins;
use ncl_netlist::{NetId, Netlist};
use std::alloc::Global;

/// The banks from the first on, each the one that follows the bank before, in at most as many steps as there are
/// nets. Linear in these.
fn walk(
    alloc: Global,
    netlist: &Netlist,
    followers: &[Option<NetId>],
    first: NetId,
) -> Result<Vec<NetId>, Memory>
    requires inside { first.0 < length netlist.now.nets }
    requires followers { AreOnly netlist.now (Follows netlist.now) followers.now }
    ensures walk { IfOk result (λ banks. IsWalk netlist.now first.0 (numbers_of banks.items)) }
    ensures inside { IfOk result (λ banks. All (λ (bank : NetId). bank.0 < length netlist.now.nets) banks.items) }
    ensures short { IfOk result (λ banks. length banks.items ≤ length netlist.now.nets + 1) }
{
    let mut banks = Vec::new(alloc);
    banks.push(first)?;
    let mut last = first;
    for _ in 0..netlist.nets().len() {
        let Some(next) = followers[last.0 as usize] else {
            return Ok(banks);
        };
        banks.push(next)?;
        last = next;
    }
    Ok(banks)
}

/// For each bank of a walk its place there. Linear in nets and banks.
fn numbers(alloc: Global, netlist: &Netlist, banks: &[NetId]) -> Result<Vec<Option<u32>>, Memory>
    requires inside { All (λ (bank : NetId). bank.0 < length netlist.now.nets) banks.now }
    requires short { length banks.now ≤ length netlist.now.nets + 1 }
    ensures { IfOk result (λ numbers. AreNumbersOf netlist.now (numbers_of banks.now) numbers.items) }
{
    let mut numbers: Vec<Option<u32>> = vec![in alloc; None; netlist.nets().len()]?;
    for (place, bank) in banks.iter().enumerate() {
        numbers[bank.0 as usize] = Some(place as u32);
    }
    Ok(numbers)
}

/// Whether each bank has a number. Linear in the nets.
fn are_all_numbered(origins: &Origins, numbers: &[Option<u32>]) -> bool
    requires sized { length numbers.now ≡ length origins.now.netlist.nets }
    ensures { IsTrue result ↔ AreAllNumbered origins.now.netlist numbers.now }
{
    for net in 0..origins.netlist().nets().len() {
        if origins.first(NetId(net as u32)).is_some() && numbers[net].is_none() {
            return false;
        }
    }
    true
}

/// The banks in the order in which they follow each other, and the place of each in that order; `None` where the walk
/// from the first bank doesn't meet each bank. Linear in the nets.
pub(crate) fn banks_in_order(
    alloc: Global,
    origins: &Origins,
    followers: &[Option<NetId>],
    first: NetId,
) -> Result<Option<(Vec<NetId>, Vec<Option<u32>>)>, Memory>
    requires free { IsFree origins.now.netlist }
    requires unforked { IsUnforked origins.now.netlist }
    requires followers { AreOnly origins.now.netlist (Follows origins.now.netlist) followers.now }
    requires first { IsOnly (IsFirstBank origins.now.netlist) first.0 }
    ensures { IfOk result (λ found. MatchOption found (HasChain origins.now.netlist → ⊥) (λ order. IsChain origins.now.netlist (numbers_of order.0.items) × AreNumbersOf origins.now.netlist (numbers_of order.0.items) order.1.items)) }
{
    let netlist = origins.netlist();
    let banks = walk(alloc, netlist, followers, first)?;
    let numbers = numbers(alloc, netlist, &banks)?;
    if !are_all_numbered(origins, &numbers) {
        return Ok(None);
    }
    Ok(Some((banks, numbers)))
}
