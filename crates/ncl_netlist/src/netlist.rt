//! The netlist.
ghost use Rattle.std.specs.Prelude.{◌≡◌, ◌<◌, ◌^◌, OnOk, IfOk, IfErr, All, length};
ghost use Rattle.ncl_netlist.specs.Names.{AllDiffer};
ghost use Rattle.ncl_netlist.specs.Netlist.{IsNetlist};
ghost use Rattle.ncl_netlist.specs.Parts.{HasAllPins, port_names, netlist_of};
ghost use Rattle.ncl_netlist.specs.Faults.{IsFaultless, IsFaultOf};

use crate::build_fault::BuildFault;
use crate::cell::Cell;
use crate::cell_rules::check_cells;
use crate::drivers::check_nets;
use crate::numbering::number_all;
use crate::parts::Parts;
use crate::port::Port;
use ncl_base::Name;
use std::alloc::Global;
use std::marker::Model;

/// A netlist, which only `build` makes.
///
/// One input port or one cell drives each net, and nothing else does. Contracts see it as a record of its
/// name, ports, nets and cells.
#[derive(Debug, Drop)]
pub struct Netlist {
    module: Name,
    ports: Vec<Port>,
    nets: Vec<Name>,
    cells: Vec<Cell>,
}

impl Model for Netlist {
    ghost use Rattle.ncl_netlist.specs.Netlist.{NetlistData, IsNetlist};

    ghost Value = { NetlistData };

    ghost view = { λ a. record { name = a.module; ports = a.ports.items; nets = a.nets.items; cells = a.cells.items } };

    ghost invariant = { λ a. IsNetlist (record { name = a.module; ports = a.ports.items; nets = a.nets.items; cells = a.cells.items }) };
}

/// Builds the netlist of parts.
///
/// The nets are numbered in order of first appearance: the ports in header order, then the other
/// names through the cells, pin by pin. Refuses, in this order: more than 131,072 cells; a cell with
/// the name of an earlier cell; a net with two or more drivers; a net without a driver, with the name
/// of the first such cell or net. Also fails where memory is refused. The parts are used up.
///
/// Near linear in the bytes of the names: each is hashed once.
pub fn build(alloc: Global, parts: Parts) -> Result<Netlist, BuildFault>
    requires ports_differ { AllDiffer (port_names parts) }
    requires few_ports { length parts.ports < 2 ^ 31 }
    requires all_pins { All HasAllPins parts.cells }
    ensures built { IfOk result (λ netlist. netlist ≡ netlist_of parts) }
    ensures faultless { OnOk result (IsFaultless parts) }
    ensures fault { IfErr result (IsFaultOf parts) }
{
    check_cells(alloc, &parts)?;
    let Parts {
        module,
        ports,
        cells,
    } = parts;
    let (nets, cells) = number_all(alloc, ports.items(), cells.into_vec())?;
    check_nets(alloc, ports.items(), &cells, &nets)?;
    Ok(Netlist {
        module,
        ports: ports.into_vec(),
        nets,
        cells,
    })
}

impl Netlist {
    /// The name of the module. Takes no memory.
    pub fn module(&self) -> &Name
        ensures { result.now ≡ self.now.name }
    {
        &self.module
    }

    /// The ports in header order, which are also the first nets. Takes no memory.
    pub fn ports(&self) -> &[Port]
        ensures ports { result.now ≡ self.now.ports }
        ensures netlist { IsNetlist self.now }
    {
        self.ports.as_slice()
    }

    /// The names of the nets in the order of their numbers. Takes no memory.
    pub fn nets(&self) -> &[Name]
        ensures nets { result.now ≡ self.now.nets }
        ensures netlist { IsNetlist self.now }
    {
        self.nets.as_slice()
    }

    /// The cells in the order of their numbers. Takes no memory.
    pub fn cells(&self) -> &[Cell]
        ensures cells { result.now ≡ self.now.cells }
        ensures netlist { IsNetlist self.now }
    {
        self.cells.as_slice()
    }
}
