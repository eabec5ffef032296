//! The plan of a pipeline: its cells that pass DATA on, in the order of the pipeline.
ghost use Rattle.std.specs.Prelude.{◌≡◌, ◌<◌, ◌≤◌, ◌++◌, IfOk, Some, length, map};
ghost use Rattle.ncl_match.specs.Planned.{before_at, gate_cell, plan_of, register_cell, register_cells};

use arrayvec::ArrayVec;
use ncl_base::Memory;
use ncl_gates::Kind;
use ncl_netlist::NetId;
use ncl_shape::{Pipeline, Rails, StageCell};
use std::alloc::Global;
use std::marker::Model;

/// A cell that passes DATA on: a gate cell of a stage, or a register cell.
#[derive(Clone, Drop)]
pub(crate) struct DataCell {
    /// The gate, or none for a register cell.
    pub kind: Option<Kind>,
    /// The nets on its pins in their order; of a register cell the net on pin A alone.
    pub ins: ArrayVec<NetId, 4>,
    /// The net that it drives.
    pub out: NetId,
}

/// A pipeline with its plan.
#[derive(Drop)]
pub struct PlannedPipeline<'a> {
    pipeline: &'a Pipeline<'a>,
    cells: Vec<DataCell>,
}

impl<'a> Model for PlannedPipeline<'a> {
    ghost use Rattle.std.specs.Prelude.{◌≡◌};
    ghost use Rattle.ncl_shape.specs.Pipeline.{PipelineData};
    ghost use Rattle.ncl_match.specs.Planned.{plan_of};

    ghost Value = { PipelineData };

    ghost view = { λ a. a.pipeline.now };

    ghost invariant = { λ a. a.cells.items ≡ plan_of a.pipeline.now };
}

impl<'a> PlannedPipeline<'a> {
    /// A pipeline with its plan. Linear in the rails and the gates. An error is want of memory.
    pub fn of(alloc: Global, pipeline: &'a Pipeline<'a>) -> Result<PlannedPipeline<'a>, Memory>
        ensures { IfOk result (λ planned. planned ≡ pipeline.now) }
    {
        let cells = plan(alloc, pipeline)?;
        Ok(PlannedPipeline { pipeline, cells })
    }

    /// The pipeline.
    pub fn pipeline(&self) -> &'a Pipeline<'a>
        ensures { result.now ≡ self.now }
    {
        self.pipeline
    }

    /// Its data cells in their order.
    pub(crate) fn cells(&self) -> &[DataCell]
        ensures { result.now ≡ plan_of self.now }
    {
        self.cells.as_slice()
    }
}

/// The plan of a pipeline: for each bank its register cells, bit by bit, rail 0 first, and then the gate cells of the
/// stage after it, as they stand there. Linear in the rails and the gates. An error is want of memory.
pub(crate) fn plan(alloc: Global, pipeline: &Pipeline) -> Result<Vec<DataCell>, Memory>
    ensures { IfOk result (λ made. made.items ≡ plan_of pipeline.now) }
{
    let mut made = Vec::new(alloc);
    let stages = pipeline.stages();
    for place in 0..stages.len() {
        let stage = &stages[place];
        add_registers(
            &mut made,
            rails_before(pipeline, place),
            stage.inputs.items(),
        )?;
        add_gates(&mut made, stage.cells.items())?;
    }
    add_registers(
        &mut made,
        rails_before(pipeline, stages.len()),
        pipeline.outputs(),
    )?;
    Ok(made)
}

/// The rails that a bank reads: the inputs of the pipeline, or the outputs of the stage before it. Takes no memory.
fn rails_before<'a>(pipeline: &'a Pipeline, bank: usize) -> &'a [Rails]
    requires { bank ≤ length pipeline.now.stages }
    ensures { result.now ≡ before_at pipeline.now bank }
{
    if bank == 0 {
        return pipeline.inputs();
    }
    let stage = &pipeline.stages()[bank - 1];
    stage.outputs.items()
}

/// The register cells of a bank, from the rails that it reads and those that it drives. Linear in them.
fn add_registers(made: &mut Vec<DataCell>, before: &[Rails], bits: &[Rails]) -> Result<(), Memory>
    requires { length before.now ≡ length bits.now }
    ensures { IfOk result (λ done. made.new.items ≡ made.old.items ++ register_cells before.now bits.now) }
{
    for bit in 0..bits.len() {
        let from = before[bit];
        let to = bits[bit];
        made.push(register_on(from.zero, to.zero))?;
        made.push(register_on(from.one, to.one))?;
    }
    Ok(())
}

/// The gate cells of a stage. Linear in them.
fn add_gates(made: &mut Vec<DataCell>, cells: &[StageCell]) -> Result<(), Memory>
    ensures { IfOk result (λ done. made.new.items ≡ made.old.items ++ map gate_cell cells.now) }
{
    for cell in cells {
        made.push(gate_of(cell)?)?;
    }
    Ok(())
}

/// A register cell, which passes on from its A net. Takes no memory.
fn register_on(from: NetId, to: NetId) -> DataCell
    ensures { result ≡ register_cell from.0 to.0 }
{
    let mut ins = ArrayVec::new();
    ins.push(from);
    DataCell {
        kind: None,
        ins,
        out: to,
    }
}

/// A gate cell of a stage.
fn gate_of(cell: &StageCell) -> Result<DataCell, Memory>
    ensures { IfOk result (λ made. made ≡ gate_cell cell.now) }
{
    let ins = cell.ins.clone()?;
    Ok(DataCell {
        kind: Some(cell.kind),
        ins,
        out: cell.out,
    })
}
