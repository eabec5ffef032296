//! Lists of items, one for each bank of a chain.
ghost use Rattle.std.specs.Prelude.{◌≡◌, ℕ, ◌<◌, ◌++◌, ◌∷◌, [], IfOk, OnOk, Some, length, map, replicate, slice_set};
ghost use Rattle.std.specs.List.{slice_index_or};
ghost use Rattle.ncl_shape.specs.FoundChain.{number_at};

use crate::chain::Chain;
use ncl_base::Memory;
use ncl_netlist::NetId;
use std::alloc::Global;

/// As many empty lists. Linear in their number.
pub(crate) fn empty_lists<T: Drop>(alloc: Global, count: usize) -> Result<Vec<Vec<T>>, Memory>
    ensures { IfOk result (λ lists. map (λ l. l.items) lists.items ≡ replicate count []) }
{
    let mut lists = Vec::with_capacity(alloc, count)?;
    for _ in 0..count {
        lists.push(Vec::new(alloc))?;
    }
    Ok(lists)
}

/// Puts an item to the end of a list.
pub(crate) fn put<T: Drop>(lists: &mut Vec<Vec<T>>, k: usize, item: T) -> Result<(), Memory>
    requires { k < length lists.old.items }
    ensures { OnOk result (map (λ l. l.items) lists.new.items
        ≡ slice_set (map (λ l. l.items) lists.old.items) k (slice_index_or (map (λ l. l.items) lists.old.items) k [] ++ item ∷ [])) }
{
    lists[k].push(item)?;
    Ok(())
}

/// The place in a chain of a bank that it has.
pub(crate) fn number_of(chain: &Chain, bank: NetId) -> usize
    requires { (number : ℕ) × (number_at chain.now.numbers.items bank.0 ≡ Some number) }
    ensures { number_at chain.now.numbers.items bank.0 ≡ Some result }
{
    match chain.numbers[bank.0 as usize] {
        Some(number) => number as usize,
        None => unreachable!(),
    }
}
