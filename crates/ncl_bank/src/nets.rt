//! The nets that the acknowledge and tree cells of a bank drive.
ghost use Rattle.std.specs.Prelude.{◌≡◌, ◌+◌, ◌<◌, ◌≤◌, IfOk};
ghost use Rattle.ncl_tree.specs.PartNames.{most_parts};
ghost use Rattle.ncl_bank.specs.BankPlan.{names_of_nets};

use ncl_base::{Memory, Name};
use ncl_tree::net_name;
use std::alloc::Global;

/// A copy of a name. Linear in its bytes.
pub(crate) fn copied(name: &Name) -> Result<Name, Memory>
    ensures { IfOk result (λ copy. copy ≡ name.now) }
{
    let copy = name.clone()?;
    Ok(copy)
}

/// The names of the nets that so many cells drive, of which the first has the number `first`: the root for the last
/// cell, and for the others names that are made of the prefix. Linear in the cells.
pub(crate) fn net_names(
    alloc: Global,
    prefix: &[u8],
    root: &Name,
    first: u32,
    count: u32,
) -> Result<Vec<Name>, Memory>
    requires some { 0 < count }
    requires few { first + count ≤ most_parts }
    ensures { IfOk result (λ names. names.items ≡ names_of_nets prefix.now root.now first count) }
{
    let mut names = Vec::new(alloc);
    for number in first..first + count - 1 {
        names.push(net_name(alloc, prefix, number)?)?;
    }
    names.push(copied(root)?)?;
    Ok(names)
}
