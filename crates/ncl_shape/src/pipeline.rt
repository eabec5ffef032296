//! Linear pipelines.
ghost use Rattle.std.specs.Prelude.{◌≡◌};
ghost use Rattle.ncl_cell_rules.specs.Origins.{AreOrigins};
ghost use Rattle.ncl_shape.specs.Shape.{Shape};
ghost use Rattle.ncl_shape.specs.Held.{data_banks, is_data_bank};

use crate::bank::Bank;
use crate::rails::Rails;
use crate::stage::Stage;
use ncl_base::Items;
use ncl_cell_rules::Origins;
use ncl_netlist::{NetId, Netlist};
use std::marker::Model;

/// A linear pipeline: a netlist with its banks, each but the last followed by a stage of gate cells.
///
/// Only `shape` makes one, of a netlist that has this shape.
#[derive(Debug, Drop)]
pub struct Pipeline<'a> {
    origins: Origins<'a>,
    banks: Items<Bank>,
    stages: Items<Stage>,
    inputs: Items<Rails>,
    outputs: Items<Rails>,
    ki: NetId,
    ko: NetId,
}

impl<'a> Model for Pipeline<'a> {
    ghost use Rattle.ncl_shape.specs.Pipeline.{PipelineData};
    ghost use Rattle.ncl_shape.specs.Shape.{Shape};

    ghost Value = { PipelineData };

    ghost view = { λ a. record { netlist = a.origins.netlist; banks = a.banks; stages = a.stages; inputs = a.inputs; outputs = a.outputs; ki = a.ki.0; ko = a.ko.0 } };

    ghost invariant = { λ a. Shape a.origins.netlist (record { netlist = a.origins.netlist; banks = a.banks; stages = a.stages; inputs = a.inputs; outputs = a.outputs; ki = a.ki.0; ko = a.ko.0 }) };
}

/// The parts of a pipeline but its netlist.
#[derive(Drop)]
pub(crate) struct Parts {
    pub(crate) banks: Items<Bank>,
    pub(crate) stages: Items<Stage>,
    pub(crate) inputs: Items<Rails>,
    pub(crate) outputs: Items<Rails>,
    pub(crate) ki: NetId,
    pub(crate) ko: NetId,
}

/// Whether a bank is reset to DATA. Linear in its bits.
fn is_data_bank(bank: &Bank) -> bool
    ensures { result ≡ is_data_bank bank.now }
{
    bank.bits.items().iter().any(|bit| bit.start.is_some())
}

impl<'a> Pipeline<'a> {
    /// The pipeline of what is known of a netlist, and of parts that are its shape. Takes no memory.
    pub(crate) fn of(origins: Origins<'a>, parts: Parts) -> Pipeline<'a>
        requires { Shape origins.netlist (record { netlist = origins.netlist; banks = parts.banks; stages = parts.stages; inputs = parts.inputs; outputs = parts.outputs; ki = parts.ki.0; ko = parts.ko.0 }) }
        ensures parts { result ≡ record { netlist = origins.entry.netlist; banks = parts.banks; stages = parts.stages; inputs = parts.inputs; outputs = parts.outputs; ki = parts.ki.0; ko = parts.ko.0 } }
        ensures shape { Shape origins.entry.netlist result }
    {
        let Parts {
            banks,
            stages,
            inputs,
            outputs,
            ki,
            ko,
        } = parts;
        Pipeline {
            origins,
            banks,
            stages,
            inputs,
            outputs,
            ki,
            ko,
        }
    }

    /// The netlist.
    pub fn netlist(&self) -> &'a Netlist
        ensures netlist { result.now ≡ self.now.netlist }
        ensures shape { Shape self.now.netlist self.now }
    {
        self.origins.netlist()
    }

    /// Where the nets of the netlist come from.
    pub fn origins(&self) -> &Origins<'a>
        ensures netlist { result.now.netlist ≡ self.now.netlist }
        ensures origins { AreOrigins self.now.netlist result.now }
        ensures shape { Shape self.now.netlist self.now }
    {
        self.origins.facts();
        &self.origins
    }

    /// The banks in the order of the pipeline, of which there are at least one and at most 256.
    pub fn banks(&self) -> &[Bank]
        ensures banks { result.now ≡ self.now.banks }
        ensures shape { Shape self.now.netlist self.now }
    {
        self.banks.items()
    }

    /// The stages, one between each bank and the next.
    pub fn stages(&self) -> &[Stage]
        ensures stages { result.now ≡ self.now.stages }
        ensures shape { Shape self.now.netlist self.now }
    {
        self.stages.items()
    }

    /// The rails that the source drives, one pair for each bit of the first bank.
    pub fn inputs(&self) -> &[Rails]
        ensures inputs { result.now ≡ self.now.inputs }
        ensures shape { Shape self.now.netlist self.now }
    {
        self.inputs.items()
    }

    /// The rails that the sink reads, one pair for each bit of the last bank.
    pub fn outputs(&self) -> &[Rails]
        ensures outputs { result.now ≡ self.now.outputs }
        ensures shape { Shape self.now.netlist self.now }
    {
        self.outputs.items()
    }

    /// The sink's acknowledge, which is the request of the last bank.
    pub fn ki(&self) -> NetId
        ensures ki { result.0 ≡ self.now.ki }
        ensures shape { Shape self.now.netlist self.now }
    {
        self.ki
    }

    /// The acknowledge to the source, which is the root of the first bank.
    pub fn ko(&self) -> NetId
        ensures ko { result.0 ≡ self.now.ko }
        ensures shape { Shape self.now.netlist self.now }
    {
        self.ko
    }

    /// How many banks are reset to DATA, each of which holds a word at reset. Linear in the bits of the banks.
    pub fn data_banks(&self) -> usize
        ensures { result ≡ data_banks self.now.banks }
    {
        let mut count = 0;
        for bank in self.banks() {
            if is_data_bank(bank) {
                count += 1;
            }
        }
        count
    }

    /// That the netlist has the shape of this pipeline. Costs nothing.
    pub fn facts(&self)
        ensures { Shape self.now.netlist self.now }
    {
        let _ = &self.origins;
    }
}
