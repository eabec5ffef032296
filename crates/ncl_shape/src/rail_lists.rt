//! The rails of banks.
ghost use Rattle.std.specs.Prelude.{◌≡◌, ◌≤◌, ℕ, IfOk, length};
ghost use Rattle.std.specs.List.{AllZip};
ghost use Rattle.ncl_shape.specs.FoundParts.{AreOnSide, net_on};
ghost use Rattle.ncl_shape.specs.Shape.{AreBitsOf};

use crate::bank::Bit;
use crate::rails::{Rails, Side};
use ncl_base::{Items, Memory};
use ncl_netlist::{Cell, NetId, Netlist};
use std::alloc::Global;

/// The net on a side of a register cell.
fn net_on(cell: &Cell, side: Side) -> NetId
    requires { 1 ≤ length cell.now.ins.items }
    ensures { result ≡ net_on side cell.now }
{
    match side {
        Side::Driven => cell.out,
        Side::Read => cell.ins[0],
    }
}

/// The rails on a side of the register cells of the bits of a bank. Linear in the bits.
pub(crate) fn rails_on(
    alloc: Global,
    netlist: &Netlist,
    bits: &[Bit],
    side: Side,
) -> Result<Items<Rails>, Memory>
    requires { (bank : ℕ) × AreBitsOf netlist.now bank bits.now }
    ensures { IfOk result (λ rails. AllZip (AreOnSide netlist.now side) bits.now rails) }
{
    let cells = netlist.cells();
    let mut rails = Vec::with_capacity(alloc, bits.len())?;
    for bit in bits {
        let zero = &cells[bit.rail0.0 as usize];
        let one = &cells[bit.rail1.0 as usize];
        rails.push(Rails {
            zero: net_on(zero, side),
            one: net_on(one, side),
        })?;
    }
    Ok(Items::from_vec(rails))
}
