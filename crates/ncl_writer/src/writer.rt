//! A netlist written as a text.
ghost use Rattle.std.specs.Prelude.{◌≡◌, ◌↔◌, ◌++◌, All, IfOk, IsTrue, OnOk, length};
ghost use Rattle.std.specs.List.{flat_map};
ghost use Rattle.ncl_netlist.specs.declared.parts.Parts.{Parts};
ghost use Rattle.ncl_netlist.specs.Faults.{IsFaultless};
ghost use Rattle.ncl_netlist.specs.Netlist.{CellFits};
ghost use Rattle.ncl_netlist.specs.Parts.{netlist_of};
ghost use Rattle.ncl_reader.specs.Reads.{Reads};
ghost use Rattle.ncl_writer.specs.Names.{IsWritable};
ghost use Rattle.ncl_writer.specs.Text.{cell_line, header_line, port_line, text_of, wire_line};

use crate::name_text::{is_writable_name, push_name};
use crate::row_text::{push_pins, push_ports};
use ncl_base::{Memory, Name};
use ncl_netlist::{Cell, Netlist, Port};
use std::alloc::Global;

/// Whether a netlist can be written: each name of its module, nets and cells has a byte, and only bytes from
/// 33 to 126. Takes no memory. Linear in the names.
pub fn is_writable(netlist: &Netlist) -> bool
    ensures { IsTrue result ↔ IsWritable netlist.now }
{
    is_writable_name(netlist.module().bytes())
        && netlist
            .nets()
            .iter()
            .all(|net| is_writable_name(net.bytes()))
        && netlist
            .cells()
            .iter()
            .all(|cell| is_writable_name(cell.name.bytes()))
}

/// The text of a netlist, which reads back to the same netlist.
///
/// Fails where memory is refused. Linear in the text, which is made in one piece of memory.
pub fn write_netlist(alloc: Global, netlist: &Netlist) -> Result<Vec<u8>, Memory>
    requires { IsWritable netlist.now }
    ensures text { IfOk result (λ text. text.items ≡ text_of netlist.now) }
    ensures reads { IfOk result (λ text. (parts : Parts) × Reads text.items parts × IsFaultless parts × (netlist_of parts ≡ netlist.now)) }
{
    let ports = netlist.ports();
    let nets = netlist.nets();
    let mut text = Vec::new(alloc);
    push_header(&mut text, netlist.module().bytes(), ports)?;
    push_directions(&mut text, ports)?;
    push_wires(&mut text, &nets[ports.len()..])?;
    push_cells(&mut text, nets, netlist.cells())?;
    text.extend_from_slice(b"endmodule\n")?;
    Ok(text)
}

/// Appends the header with the names of the ports. Linear in what is appended.
fn push_header(text: &mut Vec<u8>, name: &[u8], ports: &[Port]) -> Result<(), Memory>
    ensures { OnOk result (text.new.items ≡ text.old.items ++ header_line name.now ports.now) }
{
    text.extend_from_slice(b"module ")?;
    push_name(text, name)?;
    push_ports(text, ports)?;
    text.extend_from_slice(b";\n")?;
    Ok(())
}

/// Appends a line for each port, with its direction. Linear in what is appended.
fn push_directions(text: &mut Vec<u8>, ports: &[Port]) -> Result<(), Memory>
    ensures { OnOk result (text.new.items ≡ text.old.items ++ flat_map port_line ports.now) }
{
    for port in ports {
        let way: &[u8] = if port.output { b"output " } else { b"input " };
        text.extend_from_slice(way)?;
        push_name(text, port.name.bytes())?;
        text.extend_from_slice(b";\n")?;
    }
    Ok(())
}

/// Appends a line for each net that is no port. Linear in what is appended.
fn push_wires(text: &mut Vec<u8>, nets: &[Name]) -> Result<(), Memory>
    ensures { OnOk result (text.new.items ≡ text.old.items ++ flat_map wire_line nets.now) }
{
    for net in nets {
        text.extend_from_slice(b"wire ")?;
        push_name(text, net.bytes())?;
        text.extend_from_slice(b";\n")?;
    }
    Ok(())
}

/// Appends a line for each cell. Linear in what is appended.
fn push_cells(text: &mut Vec<u8>, nets: &[Name], cells: &[Cell]) -> Result<(), Memory>
    requires { All (CellFits (length nets.now)) cells.now }
    ensures { OnOk result (text.new.items ≡ text.old.items ++ flat_map (cell_line nets.now) cells.now) }
{
    for cell in cells {
        text.extend_from_slice(cell.kind.name())?;
        text.push(b' ')?;
        push_name(text, cell.name.bytes())?;
        push_pins(text, nets, cell)?;
        text.extend_from_slice(b");\n")?;
    }
    Ok(())
}
