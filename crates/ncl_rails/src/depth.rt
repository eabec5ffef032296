//! How many gates stand one after another.

use ncl_base::Memory;
use ncl_netlist::NetId;
use ncl_shape::StageCell;
use std::alloc::Global;

/// The gates on the longest way to a net, where the nets that gates drive have these levels.
fn level(levels: &[u32], first: u32, net: NetId) -> u32 {
    if net.0 < first {
        return 0;
    }
    match levels.get((net.0 - first) as usize) {
        Some(level) => *level,
        None => 0,
    }
}

/// The gates on the longest way through a gate.
fn level_of(levels: &[u32], first: u32, cell: &StageCell) -> u32 {
    let mut most = 0u32;
    for net in cell.ins.as_slice() {
        most = most.max(level(levels, first, *net));
    }
    most.saturating_add(1)
}

/// How many gates stand one after another at most, where each drives the net that follows the one of the gate before,
/// from a first one on. Linear in the gates.
pub(crate) fn depth(alloc: Global, first: u32, cells: &[StageCell]) -> Result<u32, Memory> {
    let mut levels = Vec::new(alloc);
    let mut most = 0u32;
    for cell in cells {
        let own = level_of(&levels, first, cell);
        most = most.max(own);
        levels.push(own)?;
    }
    Ok(most)
}
