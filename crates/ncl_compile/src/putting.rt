//! Ports, banks and stages, put together as the parts of a netlist.
ghost use Rattle.std.specs.Prelude.{◌≡◌, ◌<◌, ◌≤◌, ◌++◌, [], ◌∷◌, IfOk, OnOk};
ghost use Rattle.std.specs.List.{flat_map};
ghost use Rattle.ncl_base.specs.declared.word.TheConstants.{MOST_BITS};
ghost use Rattle.ncl_blif.specs.Model.{AreModels};
ghost use Rattle.ncl_tree.specs.NamePairs.{pair_names};
ghost use Rattle.ncl_network.specs.Size.{CanBeCompiled};
ghost use Rattle.ncl_compile.specs.Ports.{ports_named, ports_for};
ghost use Rattle.ncl_compile.specs.Pieces.{AreStages, AreBanks, IsPutTogether};

use crate::banks::width_at;
use crate::naming::port_pairs;
use ncl_bank::BankParts;
use ncl_base::{Items, Memory, Name};
use ncl_blif::Model;
use ncl_netlist::{NamePair, PartCell, Parts, Port};
use ncl_rails::StageParts;
use std::alloc::Global;

/// Adds ports of these names, pair by pair. Linear in the pairs.
fn add_pairs(ports: &mut Vec<Port>, pairs: Vec<NamePair>, output: bool) -> Result<(), Memory>
    ensures { OnOk result (ports.new.items ≡ ports.old.items ++ ports_named output (pair_names pairs.items)) }
{
    for pair in pairs {
        let NamePair { zero, one } = pair;
        ports.push(Port { name: zero, output })?;
        ports.push(Port { name: one, output })?;
    }
    Ok(())
}

/// Adds a port.
fn add_port(alloc: Global, ports: &mut Vec<Port>, name: &[u8], output: bool) -> Result<(), Memory>
    ensures { OnOk result (ports.new.items ≡ ports.old.items ++ record { name = name.now; output = output } ∷ []) }
{
    let name = Name::from_bytes(alloc, name)?;
    ports.push(Port { name, output })?;
    Ok(())
}

/// The ports of a netlist with so many inputs and outputs. Linear in these.
fn ports_of(alloc: Global, inputs: usize, outputs: usize) -> Result<Vec<Port>, Memory>
    requires few_inputs { inputs ≤ MOST_BITS }
    requires few_outputs { outputs ≤ MOST_BITS }
    ensures { IfOk result (λ ports. ports.items ≡ ports_for inputs outputs) }
{
    let mut ports = Vec::new(alloc);
    add_pairs(&mut ports, port_pairs(alloc, b'i', inputs)?, false)?;
    add_port(alloc, &mut ports, b"ki", false)?;
    add_port(alloc, &mut ports, b"rst", false)?;
    add_pairs(&mut ports, port_pairs(alloc, b'o', outputs)?, true)?;
    add_port(alloc, &mut ports, b"ko", true)?;
    Ok(ports)
}

/// Adds cells. Linear in their number.
fn add_cells(cells: &mut Vec<PartCell>, more: Vec<PartCell>) -> Result<(), Memory>
    ensures { OnOk result (cells.new.items ≡ cells.old.items ++ more.items) }
{
    for cell in more {
        cells.push(cell)?;
    }
    Ok(())
}

/// Adds the cells of banks, in their order. Linear in their number.
fn add_banks(cells: &mut Vec<PartCell>, banks: Vec<BankParts>) -> Result<(), Memory>
    ensures { OnOk result (cells.new.items ≡ cells.old.items ++ flat_map (λ bank. bank.cells) banks.items) }
{
    for bank in banks {
        let BankParts { cells: more } = bank;
        add_cells(cells, more.into_vec())?;
    }
    Ok(())
}

/// Adds the cells of stages, in their order. Linear in their number.
fn add_stages(cells: &mut Vec<PartCell>, stages: Vec<StageParts>) -> Result<(), Memory>
    ensures { OnOk result (cells.new.items ≡ cells.old.items ++ flat_map (λ stage. stage.cells) stages.items) }
{
    for stage in stages {
        let StageParts {
            cells: more,
            outputs: _,
        } = stage;
        add_cells(cells, more.into_vec())?;
    }
    Ok(())
}

/// The parts of the netlist that models become, of their banks and stages. Linear in the cells.
pub(crate) fn put_together(
    alloc: Global,
    models: &[Model],
    banks: Vec<BankParts>,
    stages: Vec<StageParts>,
) -> Result<Parts, Memory>
    requires are_models { AreModels models.now }
    requires small { CanBeCompiled models.now }
    requires are_stages { AreStages models.now stages.items }
    requires are_banks { AreBanks models.now stages.items banks.items }
    ensures { IfOk result (IsPutTogether models.now) }
{
    let inputs = width_at(models, 0);
    let outputs = width_at(models, models.len());
    let ports = ports_of(alloc, inputs, outputs)?;
    let module = Name::from_bytes(alloc, b"top")?;
    let mut cells = Vec::new(alloc);
    add_banks(&mut cells, banks)?;
    add_stages(&mut cells, stages)?;
    Ok(Parts {
        module,
        ports: Items::from_vec(ports),
        cells: Items::from_vec(cells),
    })
}
