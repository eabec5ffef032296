//! Which banks are reset to DATA.
ghost use Rattle.std.specs.Prelude.{IfOk};
ghost use Rattle.ncl_cell_rules.specs.Tables.{AreDataBanks};

use ncl_base::Memory;
use ncl_netlist::Netlist;
use std::alloc::Global;

/// For each net whether it is the request of a bank with a cell that is reset to 1. Linear in nets and cells.
pub(crate) fn data_banks(alloc: Global, netlist: &Netlist) -> Result<Vec<bool>, Memory>
    ensures { IfOk result (λ flags. AreDataBanks netlist.now flags.items) }
{
    let mut flags = vec![in alloc; false; netlist.nets().len()]?;
    for cell in netlist.cells() {
        if cell.kind.is_data_register() {
            flags[cell.ins[1].0 as usize] = true;
        }
    }
    Ok(flags)
}
