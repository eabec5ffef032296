//! The shape of a netlist.
ghost use Rattle.std.specs.Prelude.{◌≤◌, IfErr, IfOk, length, map};
ghost use Rattle.std.specs.List.{AllZip};
ghost use Rattle.ncl_cell_rules.specs.Free.{IsFree};
ghost use Rattle.ncl_shape.specs.declared.bank.TheConstants.{MOST_BANKS};
ghost use Rattle.ncl_shape.specs.Chain.{IsChained};
ghost use Rattle.ncl_shape.specs.FoundChain.{IsChainOf, requests_of};
ghost use Rattle.ncl_shape.specs.FoundParts.{AreFewBitsOf, IsFewBitBank};
ghost use Rattle.ncl_shape.specs.Shape.{IsShapeFault, Shape};

use crate::bank::{Bank, Bit};
use crate::chain::{Chain, find_chain};
use crate::fault::ShapeFault;
use crate::pipeline::{Parts, Pipeline};
use crate::rail_lists::rails_on;
use crate::rails::Side;
use crate::stage_cells::gates_of_banks;
use crate::staging::stages_between;
use crate::widths::find_bits;
use ncl_base::{Items, Memory};
use ncl_cell_rules::{Origins, find_origins};
use ncl_netlist::Netlist;
use std::alloc::Global;

/// The banks of a chain, with their bits. Linear in the banks.
fn banks_of(
    alloc: Global,
    netlist: &Netlist,
    chain: &Chain,
    bits: Vec<Vec<Bit>>,
) -> Result<Vec<Bank>, Memory>
    requires chain { IsChainOf netlist.now chain.now }
    requires bits { AllZip (AreFewBitsOf netlist.now) (requests_of chain.now) (map (λ l. l.items) bits.items) }
    ensures { IfOk result (λ banks. AllZip (IsFewBitBank netlist.now) (requests_of chain.now) banks.items) }
{
    let mut banks = Vec::with_capacity(alloc, chain.banks.len())?;
    for list in bits {
        let k = banks.len();
        banks.push(Bank {
            bits: Items::from_vec(list),
            request: chain.banks[k],
            root: chain.roots[k],
        })?;
    }
    Ok(banks)
}

/// The parts of the pipeline of a netlist whose banks are a chain. Linear in cells, banks and bits.
fn assemble(
    alloc: Global,
    origins: &Origins,
    chain: &Chain,
    bits: Vec<Vec<Bit>>,
) -> Result<Parts, Memory>
    requires free { IsFree origins.now.netlist }
    requires chained { IsChained origins.now.netlist }
    requires chain { IsChainOf origins.now.netlist chain.now }
    requires bits { AllZip (AreFewBitsOf origins.now.netlist) (requests_of chain.now) (map (λ l. l.items) bits.items) }
    requires few_banks { length chain.now.banks.items ≤ MOST_BANKS }
    ensures { IfOk result (λ parts. Shape origins.now.netlist (record { netlist = origins.now.netlist; banks = parts.banks; stages = parts.stages; inputs = parts.inputs; outputs = parts.outputs; ki = parts.ki.0; ko = parts.ko.0 })) }
{
    let netlist = origins.netlist();
    let banks = banks_of(alloc, netlist, chain, bits)?;
    let gates = gates_of_banks(alloc, origins, chain)?;
    let stages = stages_between(alloc, netlist, &banks, gates)?;
    let first = &banks[0];
    let last = &banks[banks.len() - 1];
    let inputs = rails_on(alloc, netlist, first.bits.items(), Side::Read)?;
    let outputs = rails_on(alloc, netlist, last.bits.items(), Side::Driven)?;
    let ki = last.request;
    let ko = first.root;
    Ok(Parts {
        banks: Items::from_vec(banks),
        stages: Items::from_vec(stages),
        inputs,
        outputs,
        ki,
        ko,
    })
}

/// The pipeline of a netlist whose banks are a chain, or that a bank has too many bits, or that there are too many
/// banks. Linear in cells, banks and bits.
fn pipeline_of<'a>(
    alloc: Global,
    origins: Origins<'a>,
    chain: &Chain,
) -> Result<Pipeline<'a>, ShapeFault>
    requires free { IsFree origins.netlist }
    requires chained { IsChained origins.netlist }
    requires chain { IsChainOf origins.netlist chain.now }
    ensures shape { IfOk result (λ p. Shape origins.entry.netlist p) }
    ensures fault { IfErr result (IsShapeFault origins.entry.netlist) }
{
    let bits = find_bits(alloc, &origins, chain)?;
    let parts = assemble(alloc, &origins, chain, bits)?;
    Ok(Pipeline::of(origins, parts))
}

/// The pipeline of a netlist, or the first rule of shape that it breaks, at its first port, cell or bank.
///
/// Linear in nets, cells and pins, without recursion. The one other error is want of memory.
pub fn shape(alloc: Global, netlist: &Netlist) -> Result<Pipeline<'_>, ShapeFault>
    ensures shape { IfOk result (λ p. Shape netlist.now p) }
    ensures fault { IfErr result (IsShapeFault netlist.now) }
{
    let origins = find_origins(alloc, netlist)?;
    let chain = find_chain(alloc, &origins)?;
    pipeline_of(alloc, origins, &chain)
}
