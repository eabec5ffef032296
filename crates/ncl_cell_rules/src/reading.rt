//! Which nets are read.
ghost use Rattle.std.specs.Prelude.{◌≡◌, ℕ, ◌<◌, ◌||◌, false, All, IfOk, length, nat_eq};
ghost use Rattle.std.specs.List.{list_any, slice_index_or};
ghost use Rattle.ncl_netlist.specs.declared.ids.NetId.{NetId};
ghost use Rattle.ncl_cell_rules.specs.Tables.{AreReads, AreGateReads};

use ncl_base::Memory;
use ncl_gates::CellKind;
use ncl_netlist::{NetId, Netlist};
use std::alloc::Global;

/// Marks the nets of some pins. Linear in the pins.
fn mark(flags: &mut [bool], pins: &[NetId])
    requires { All (λ (net : NetId). net.0 < length flags.old) pins.now }
    ensures { (net : ℕ) → net < length flags.old → slice_index_or flags.new net false
        ≡ (slice_index_or flags.old net false || list_any (λ (pin : NetId). nat_eq pin.0 net) pins.now) }
{
    for net in pins {
        flags[net.0 as usize] = true;
    }
}

/// For each net whether some pin has it. Linear in nets and pins.
pub(crate) fn reads(alloc: Global, netlist: &Netlist) -> Result<Vec<bool>, Memory>
    ensures { IfOk result (λ flags. AreReads netlist.now flags.items) }
{
    let mut flags = vec![in alloc; false; netlist.nets().len()]?;
    for cell in netlist.cells() {
        mark(&mut flags, cell.ins.as_slice());
    }
    Ok(flags)
}

/// For each net whether a pin of a gate cell has it. Linear in nets and pins.
pub(crate) fn gate_reads(alloc: Global, netlist: &Netlist) -> Result<Vec<bool>, Memory>
    ensures { IfOk result (λ flags. AreGateReads netlist.now flags.items) }
{
    let mut flags = vec![in alloc; false; netlist.nets().len()]?;
    for cell in netlist.cells() {
        if let CellKind::Gate(_) = cell.kind {
            mark(&mut flags, cell.ins.as_slice());
        }
    }
    Ok(flags)
}
