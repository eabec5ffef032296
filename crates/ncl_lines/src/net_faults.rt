//! The line that tells why a text is no netlist.
ghost use Rattle.std.specs.Prelude.{◌≡◌, IfOk};
ghost use Rattle.ncl_lines.specs.NetText.{build_line, net_line};

use crate::line::{line_of, numbered_line};
use ncl_base::Memory;
use ncl_netlist::BuildFault;
use ncl_reader::NetFault;
use std::alloc::Global;

/// The line that tells why a text is no netlist: what breaks it, with the place of the first byte that does,
/// from 0, or with the name of a net or a cell. Fails where memory is refused. Linear in the line.
pub fn net_text(alloc: Global, fault: &NetFault) -> Result<Vec<u8>, Memory>
    ensures { IfOk result (λ text. text.items ≡ net_line fault.now) }
{
    match fault {
        NetFault::Syntax(place) => numbered_line(alloc, b"netlist: syntax at ", *place),
        NetFault::UnknownCell(place) => numbered_line(alloc, b"netlist: unknown cell at ", *place),
        NetFault::BadPins(place) => numbered_line(alloc, b"netlist: bad pins at ", *place),
        NetFault::Unsupported(place) => numbered_line(alloc, b"netlist: unsupported at ", *place),
        NetFault::Build(fault) => build_text(alloc, fault),
        NetFault::Memory => line_of(alloc, b"out of memory", b""),
    }
}

/// The line that tells why parts are no netlist.
fn build_text(alloc: Global, fault: &BuildFault) -> Result<Vec<u8>, Memory>
    ensures { IfOk result (λ text. text.items ≡ build_line fault.now) }
{
    match fault {
        BuildFault::TooMany => line_of(alloc, b"netlist: too many cells", b""),
        BuildFault::SameName(name) => line_of(alloc, b"netlist: two cells ", name.bytes()),
        BuildFault::TwoDrivers(name) => line_of(alloc, b"netlist: two drivers of ", name.bytes()),
        BuildFault::NoDriver(name) => line_of(alloc, b"netlist: no driver of ", name.bytes()),
        BuildFault::Memory => line_of(alloc, b"out of memory", b""),
    }
}
