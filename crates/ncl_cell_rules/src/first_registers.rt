//! The first register cell of each bank.
ghost use Rattle.std.specs.Prelude.{IfOk};
ghost use Rattle.ncl_cell_rules.specs.Tables.{AreFirsts};

use ncl_base::Memory;
use ncl_netlist::Netlist;
use std::alloc::Global;

/// For each net the place of the first register cell that has it on B, which is the first of the bank of that
/// request; `None` where the net is no request. Linear in nets and cells.
pub(crate) fn first_registers(alloc: Global, netlist: &Netlist) -> Result<Vec<Option<u32>>, Memory>
    ensures { IfOk result (λ firsts. AreFirsts netlist.now firsts.items) }
{
    let mut firsts: Vec<Option<u32>> = vec![in alloc; None; netlist.nets().len()]?;
    for (place, cell) in netlist.cells().iter().enumerate() {
        if cell.kind.is_register() {
            let request = cell.ins[1].0 as usize;
            firsts[request] = firsts[request].or(Some(place as u32));
        }
    }
    Ok(firsts)
}
