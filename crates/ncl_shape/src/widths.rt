//! The seventh and the eighth rule of shape: no bank is too wide, and there are not too many banks.
ghost use Rattle.std.specs.Prelude.{ℕ, ◌<◌, ◌≤◌, [], IfErr, IfOk, MatchOption, OnOk, length, map};
ghost use Rattle.std.specs.List.{AllZip, slice_index_or};
ghost use Rattle.ncl_cell_rules.specs.Free.{FailsFirst, IsFree};
ghost use Rattle.ncl_shape.specs.Chain.{IsChained};
ghost use Rattle.ncl_shape.specs.FoundChain.{IsChainOf, requests_of};
ghost use Rattle.ncl_shape.specs.FoundParts.{AreFewBitsOf};
ghost use Rattle.ncl_shape.specs.Shape.{IsShapeFault};

use crate::bank::{Bit, MOST_BANKS};
use crate::bits::bits_of_banks;
use crate::chain::Chain;
use crate::fault::ShapeFault;
use ncl_base::MOST_BITS;
use ncl_cell_rules::Origins;
use std::alloc::Global;

/// The place of the first list of more bits than a word has. Linear in the lists.
fn first_wide(lists: &[Vec<Bit>]) -> Option<usize>
    ensures { MatchOption result
        ((k : ℕ) → length (slice_index_or (map (λ l. l.items) lists.now) k []) ≤ MOST_BITS)
        (λ k. FailsFirst (λ k. length (slice_index_or (map (λ l. l.items) lists.now) k []) ≤ MOST_BITS) k) }
{
    for (k, bits) in lists.iter().enumerate() {
        if bits.len() > MOST_BITS {
            return Some(k);
        }
    }
    None
}

/// The bits of each bank of a chain, or that a bank has too many, or that there are too many banks.
/// Linear in the cells and banks.
pub(crate) fn find_bits(
    alloc: Global,
    origins: &Origins,
    chain: &Chain,
) -> Result<Vec<Vec<Bit>>, ShapeFault>
    requires free { IsFree origins.now.netlist }
    requires chained { IsChained origins.now.netlist }
    requires chain { IsChainOf origins.now.netlist chain.now }
    ensures bits { IfOk result (λ lists. AllZip (AreFewBitsOf origins.now.netlist) (requests_of chain.now) (map (λ l. l.items) lists.items)) }
    ensures few_banks { OnOk result (length chain.now.banks.items ≤ MOST_BANKS) }
    ensures fault { IfErr result (IsShapeFault origins.now.netlist) }
{
    origins.facts();
    let bits = bits_of_banks(alloc, origins, chain)?;
    if let Some(k) = first_wide(&bits) {
        return Err(ShapeFault::TooWide(k as u32 + 1));
    }
    if chain.banks.len() > MOST_BANKS {
        return Err(ShapeFault::TooLong);
    }
    Ok(bits)
}
