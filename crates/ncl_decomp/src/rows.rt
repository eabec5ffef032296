//! Copies of rows.
ghost use Rattle.std.specs.Prelude.{◌≡◌, IfOk};

use ncl_base::{Items, Memory};
use ncl_blif::{Lit, Row};
use std::alloc::Global;

/// A copy of a row. Linear in it.
fn copied_row(alloc: Global, row: &[Lit]) -> Result<Row, Memory>
    ensures { IfOk result (λ copy. copy ≡ row.now) }
{
    let copy = row.iter().copied().collect(alloc)?;
    Ok(Items::from_vec(copy))
}

/// A copy of rows. Linear in them. The only error is want of memory.
pub fn copied_rows(alloc: Global, rows: &[Row]) -> Result<Items<Row>, Memory>
    ensures { IfOk result (λ copy. copy ≡ rows.now) }
{
    let mut copy = Vec::new(alloc);
    for row in rows {
        copy.push(copied_row(alloc, row.items())?)?;
    }
    Ok(Items::from_vec(copy))
}
