//! What stands between parentheses: the ports of the module, and the pins of a cell.
ghost use Rattle.std.specs.Prelude.{◌≡◌, ◌++◌, OnOk, length, map};
ghost use Rattle.ncl_netlist.specs.declared.port.Port.{Port};
ghost use Rattle.ncl_netlist.specs.Netlist.{CellFits};
ghost use Rattle.ncl_writer.specs.Names.{spelled_name};
ghost use Rattle.ncl_writer.specs.Text.{opened, closed, pin_text, pin_texts};

use crate::name_text::push_name;
use ncl_base::{Memory, Name};
use ncl_netlist::{Cell, Port};

/// Appends the names of ports between parentheses, and nothing where there are none. Linear in the names.
pub(crate) fn push_ports(text: &mut Vec<u8>, ports: &[Port]) -> Result<(), Memory>
    ensures { OnOk result (text.new.items ≡ text.old.items ++ (opened (map (λ (port : Port). spelled_name port.name) ports.now) ++ closed (map (λ (port : Port). spelled_name port.name) ports.now))) }
{
    let mut front = b'(';
    for port in ports {
        text.push(front)?;
        push_name(text, port.name.bytes())?;
        front = b',';
    }
    if !ports.is_empty() {
        text.push(b')')?;
    }
    Ok(())
}

/// Appends the opening parenthesis of a cell and its pins with their nets. Linear in what is appended.
pub(crate) fn push_pins(text: &mut Vec<u8>, nets: &[Name], cell: &Cell) -> Result<(), Memory>
    requires { CellFits (length nets.now) cell.now }
    ensures { OnOk result (text.new.items ≡ text.old.items ++ opened (pin_texts nets.now cell.now)) }
{
    let mut front = b'(';
    for (place, pin) in cell.kind.pins().iter().enumerate() {
        let net = cell.ins.get(place).copied().unwrap_or(cell.out);
        text.push(front)?;
        push_pin(text, pin, nets[net.0 as usize].bytes())?;
        front = b',';
    }
    Ok(())
}

/// Appends a pin with its net. Linear in both names.
fn push_pin(text: &mut Vec<u8>, pin: &[u8], net: &[u8]) -> Result<(), Memory>
    ensures { OnOk result (text.new.items ≡ text.old.items ++ pin_text pin.now net.now) }
{
    text.push(b'.')?;
    text.extend_from_slice(pin)?;
    text.push(b'(')?;
    push_name(text, net)?;
    text.push(b')')?;
    Ok(())
}
