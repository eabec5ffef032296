//! The parts of a bank.
ghost use Rattle.std.specs.Prelude.{IfOk};
ghost use Rattle.ncl_bank.specs.BankParts.{CanBeBank, AreBankParts};

use crate::cells::{add_acks, add_registers, add_tree_cells};
use crate::completion::completion;
use crate::nets::net_names;
use ncl_base::{Items, Memory, Name};
use ncl_netlist::{NamePair, PartCell};
use std::alloc::Global;

/// The cells of a bank by name: two register cells for each bit, then an acknowledge cell for each bit, in the order
/// of the bits, then the completion tree.
#[derive(Debug, Drop)]
pub struct BankParts {
    pub cells: Items<PartCell>,
}

/// The bank that keeps the words of `ins` at the rails `outs` where `request` asks for them. `rst` is its reset, and
/// `root` is told that each bit is DATA, or that each is NULL. At most four cells a bit.
///
/// Linear in the bits. The only error is want of memory.
pub fn bank_parts(
    alloc: Global,
    ins: &[NamePair],
    outs: &[NamePair],
    request: &Name,
    rst: &Name,
    root: &Name,
    prefix: &[u8],
) -> Result<BankParts, Memory>
    requires { CanBeBank ins.now outs.now request.now rst.now root.now prefix.now }
    ensures { IfOk result (AreBankParts ins.now outs.now request.now rst.now root.now prefix.now) }
{
    let bits = ins.len() as u32;
    let tree = completion(alloc, bits)?;
    let count = bits + tree.cells().len() as u32;
    let nets = net_names(alloc, prefix, root, 2 * bits, count)?;
    let mut cells = Vec::new(alloc);
    add_registers(&mut cells, prefix, ins, outs, request, rst)?;
    add_acks(&mut cells, prefix, outs, &nets)?;
    add_tree_cells(&mut cells, prefix, tree.cells(), &nets)?;
    Ok(BankParts {
        cells: Items::from_vec(cells),
    })
}
