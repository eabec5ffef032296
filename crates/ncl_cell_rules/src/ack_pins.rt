//! How many pins of acknowledge cells have a net.
ghost use Rattle.std.specs.Prelude.{IfOk};
ghost use Rattle.ncl_cell_rules.specs.Tables.{AreAckPins};

use crate::counting::count_pins;
use ncl_base::Memory;
use ncl_gates::CellKind;
use ncl_netlist::Netlist;
use std::alloc::Global;

/// For each net how many pins of acknowledge cells have it. Linear in nets and pins.
pub(crate) fn ack_pins(alloc: Global, netlist: &Netlist) -> Result<Vec<u32>, Memory>
    ensures { IfOk result (λ counts. AreAckPins netlist.now counts.items) }
{
    let mut counts = vec![in alloc; 0; netlist.nets().len()]?;
    for cell in netlist.cells() {
        if let CellKind::Ack = cell.kind {
            count_pins(&mut counts, cell.ins.as_slice());
        }
    }
    Ok(counts)
}
