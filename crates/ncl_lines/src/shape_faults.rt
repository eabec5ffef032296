//! The line that tells why a netlist has no shape.
ghost use Rattle.std.specs.Prelude.{◌≡◌, ◌<◌, ◌++◌, IfOk, length};
ghost use Rattle.ncl_shape.specs.declared.fault.ShapeFault.TheVariants.{CellRule};
ghost use Rattle.ncl_lines.specs.Line.{cell_name, line};
ghost use Rattle.ncl_lines.specs.ShapeText.{NamesPlaceOf, shape_line};

use crate::line::{line_of, numbered_line};
use ncl_base::Memory;
use ncl_cell_rules::CellFault;
use ncl_netlist::{CellId, Netlist};
use ncl_shape::ShapeFault;
use std::alloc::Global;

/// The line that tells which rule of shape a netlist breaks, with the port, cell, inner rule or bank that
/// breaks it first. Fails where memory is refused. Linear in the line.
pub fn shape_text(alloc: Global, netlist: &Netlist, fault: &ShapeFault) -> Result<Vec<u8>, Memory>
    requires { NamesPlaceOf netlist.now fault.now }
    ensures { IfOk result (λ text. text.items ≡ shape_line netlist.now fault.now) }
{
    match *fault {
        ShapeFault::CellRule(fault) => cell_fault_text(alloc, netlist, fault),
        ShapeFault::NoChain(rule) => {
            numbered_line(alloc, b"shape: no chain, rule ", usize::from(rule))
        }
        ShapeFault::TooWide(bank) => numbered_line(alloc, b"shape: too wide, bank ", bank as usize),
        ShapeFault::TooLong => line_of(alloc, b"shape: too long", b""),
        ShapeFault::Memory => line_of(alloc, b"out of memory", b""),
    }
}

/// The line that tells which rule of single cells a netlist breaks, with the port or cell that breaks it first.
fn cell_fault_text(alloc: Global, netlist: &Netlist, fault: CellFault) -> Result<Vec<u8>, Memory>
    requires { NamesPlaceOf netlist.now (CellRule fault) }
    ensures { IfOk result (λ text. text.items ≡ shape_line netlist.now (CellRule fault)) }
{
    match fault {
        CellFault::UnusedPort(net) => {
            let name = &netlist.nets()[net.0 as usize];
            line_of(alloc, b"shape: unused port ", name.bytes())
        }
        CellFault::Cycle(cell) => cell_line(alloc, b"shape: cycle at cell ", netlist, cell),
        CellFault::Unpaired(cell) => cell_line(alloc, b"shape: unpaired at cell ", netlist, cell),
        CellFault::Mixed(cell) => cell_line(alloc, b"shape: mixed at cell ", netlist, cell),
        CellFault::Loose(cell) => cell_line(alloc, b"shape: loose at cell ", netlist, cell),
        CellFault::Memory => line_of(alloc, b"out of memory", b""),
    }
}

/// The line of a piece and the name of a cell.
fn cell_line(
    alloc: Global,
    front: &[u8],
    netlist: &Netlist,
    cell: CellId,
) -> Result<Vec<u8>, Memory>
    requires { cell.0 < length netlist.now.cells }
    ensures { IfOk result (λ text. text.items ≡ line (front.now ++ cell_name netlist.now cell.0)) }
{
    let cell = &netlist.cells()[cell.0 as usize];
    line_of(alloc, front, cell.name.bytes())
}
