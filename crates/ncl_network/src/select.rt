//! The items that a mask keeps.
ghost use Rattle.std.specs.Prelude.{◌≡◌, map, IfOk, length, All};
ghost use Rattle.ncl_network.specs.Fold.{select};

use ncl_base::{Items, Memory};
use ncl_blif::Row;
use std::alloc::Global;

/// The items that a mask keeps. Linear in the items.
pub(crate) fn select<T: Copy>(alloc: Global, mask: &[bool], items: &[T]) -> Result<Vec<T>, Memory>
    requires { length mask.now ≡ length items.now }
    ensures { IfOk result (λ kept. kept.items ≡ select mask.now items.now) }
{
    let mut kept = Vec::new(alloc);
    for (place, item) in items.iter().enumerate() {
        if mask[place] {
            kept.push(*item)?;
        }
    }
    Ok(kept)
}

/// The columns that a mask keeps of the live rows. Linear in the rows.
pub(crate) fn select_rows(
    alloc: Global,
    mask: &[bool],
    live: &[bool],
    rows: &[Row],
) -> Result<Vec<Row>, Memory>
    requires live { length live.now ≡ length rows.now }
    requires widths { All (λ row. length row ≡ length mask.now) rows.now }
    ensures { IfOk result (λ kept. kept.items ≡ map (select mask.now) (select live.now rows.now)) }
{
    let mut kept = Vec::new(alloc);
    for (place, row) in rows.iter().enumerate() {
        if live[place] {
            let lits = select(alloc, mask, row.items())?;
            kept.push(Items::from_vec(lits))?;
        }
    }
    Ok(kept)
}
