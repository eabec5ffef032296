//! The covers of a stage of the adder.
ghost use Rattle.std.specs.Prelude.{◌≡◌, ◌+◌, ◌<◌, ◌^◌, IfOk, true};
ghost use Rattle.ncl_demo.specs.Covers.{covers_of};

use ncl_base::{Items, Memory};
use ncl_blif::{Cover, Lit};
use std::alloc::Global;

/// The carry of two bits: both are 1.
pub(crate) const HALF_CARRY: [[Lit; 2]; 1] = [[Lit::One, Lit::One]];

/// The sum of two bits: one is 1.
pub(crate) const HALF_SUM: [[Lit; 2]; 2] = [[Lit::Zero, Lit::One], [Lit::One, Lit::Zero]];

/// The carry of three bits: two are 1.
pub(crate) const FULL_CARRY: [[Lit; 3]; 3] = [
    [Lit::Dash, Lit::One, Lit::One],
    [Lit::One, Lit::Dash, Lit::One],
    [Lit::One, Lit::One, Lit::Dash],
];

/// The sum of three bits: one is 1, or all are.
pub(crate) const FULL_SUM: [[Lit; 3]; 4] = [
    [Lit::Zero, Lit::Zero, Lit::One],
    [Lit::Zero, Lit::One, Lit::Zero],
    [Lit::One, Lit::Zero, Lit::Zero],
    [Lit::One, Lit::One, Lit::One],
];

/// A cover of the ON-set with these rows. Linear in them.
fn cover<const W: usize>(
    alloc: Global,
    ins: &[u32; W],
    out: u32,
    rows: &[[Lit; W]],
) -> Result<Cover, Memory>
    ensures { IfOk result (λ cover. cover ≡ record { ins = ins.now; out = out; on = true; rows = rows.now }) }
{
    let mut copied = Vec::new(alloc);
    for row in rows {
        copied.push(Items::from_vec(row.to_vec(alloc)?))?;
    }
    Ok(Cover {
        ins: Items::from_vec(ins.to_vec(alloc)?),
        out,
        on: true,
        rows: Items::from_vec(copied),
    })
}

/// The covers of these rows that read these signals, for the carry under a number and for the sum under the next.
/// Linear in the rows.
pub(crate) fn covers<const W: usize>(
    alloc: Global,
    ins: &[u32; W],
    first: u32,
    carry: &[[Lit; W]],
    sum: &[[Lit; W]],
) -> Result<Vec<Cover>, Memory>
    requires { first + 1 < 2 ^ 32 }
    ensures { IfOk result (λ covers. covers.items ≡ covers_of ins.now first carry.now sum.now) }
{
    let mut covers = Vec::new(alloc);
    covers.push(cover(alloc, ins, first, carry)?)?;
    covers.push(cover(alloc, ins, first + 1, sum)?)?;
    Ok(covers)
}
