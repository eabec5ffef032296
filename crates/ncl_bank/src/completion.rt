//! The completion tree of a bank, by numbers.
ghost use Rattle.std.specs.Prelude.{◌<◌, ◌≤◌, IfOk};
ghost use Rattle.ncl_base.specs.declared.word.TheConstants.{MOST_BITS};
ghost use Rattle.ncl_bank.specs.BankPlan.{IsCompletion};

use ncl_base::Memory;
use ncl_netlist::NetId;
use ncl_tree::{Family, Gates, add_tree};
use std::alloc::Global;

/// A tree of TH22, TH33 and TH44 over the nets 0 to `bits` - 1. The last net that it drives is its root. Linear in
/// the bits.
pub(crate) fn completion(alloc: Global, bits: u32) -> Result<Gates, Memory>
    requires some { 0 < bits }
    requires few { bits ≤ MOST_BITS }
    ensures { IfOk result (IsCompletion bits) }
{
    let mut leaves = Vec::new(alloc);
    for number in 0..bits {
        leaves.push(NetId(number))?;
    }
    let mut gates = Gates::new(alloc, bits);
    add_tree(&mut gates, Family::All, &leaves)?;
    Ok(gates)
}
