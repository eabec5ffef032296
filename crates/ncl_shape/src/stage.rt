//! Stages of gates between two banks.
ghost use Rattle.std.specs.Prelude.{◌≡◌};
ghost use Rattle.ncl_shape.specs.Stage.{IsStage};

use crate::rails::Rails;
use arrayvec::ArrayVec;
use ncl_base::Items;
use ncl_gates::Kind;
use ncl_netlist::{CellId, NetId};
use std::marker::Model;

/// A gate cell of a stage: its number in the netlist, its gate, its input nets in pin order and its
/// output net.
#[derive(Clone, Debug, Drop)]
pub struct StageCell {
    pub cell: CellId,
    pub kind: Kind,
    pub ins: ArrayVec<NetId, 4>,
    pub out: NetId,
}

/// The stage between bank `number` and the next: the rails of its inputs, its gate cells, each after
/// the cells that drive it, and the rails of its outputs.
///
/// No stage can be made that breaks the facts of `IsStage`.
#[derive(Debug, Drop)]
pub struct Stage {
    pub number: u32,
    pub inputs: Items<Rails>,
    pub cells: Items<StageCell>,
    pub outputs: Items<Rails>,
}

impl Model for Stage {
    ghost use Rattle.ncl_shape.specs.Stage.{StageData, IsStage};

    ghost Value = { StageData };

    ghost view = { λ a. record { number = a.number; inputs = a.inputs; cells = a.cells; outputs = a.outputs } };

    ghost invariant = { λ a. IsStage (record { number = a.number; inputs = a.inputs; cells = a.cells; outputs = a.outputs }) };
}

impl Stage {
    /// The stage of parts that fit one another. Takes no memory.
    pub fn new(
        number: u32,
        inputs: Items<Rails>,
        cells: Items<StageCell>,
        outputs: Items<Rails>,
    ) -> Stage
        requires { IsStage (record { number = number; inputs = inputs; cells = cells; outputs = outputs }) }
        ensures { result ≡ record { number = number; inputs = inputs; cells = cells; outputs = outputs } }
    {
        Stage {
            number,
            inputs,
            cells,
            outputs,
        }
    }

    /// The facts that every stage keeps. Costs nothing.
    pub fn facts(&self)
        ensures { IsStage self.now }
    {
        let _ = &self.inputs;
    }
}
