//! Stages one after another as one stage.
ghost use Rattle.std.specs.Prelude.{◌≡◌, ◌++◌, IfOk, OnOk, length, map};
ghost use Rattle.ncl_reaching.specs.Chain.{CanFollow, by_net, chain, followed, follower, followers};

use arrayvec::ArrayVec;
use ncl_base::{Items, Memory};
use ncl_gates::Kind;
use ncl_netlist::{CellId, NetId};
use ncl_shape::{Pipeline, Rails, Stage, StageCell};
use std::alloc::Global;

/// The wires of the source, which every chain begins with. Linear in the inputs.
pub(crate) fn source(alloc: Global, pipeline: &Pipeline) -> Result<Stage, Memory>
    ensures { IfOk result (λ stage. stage ≡ chain pipeline.now 0) }
{
    pipeline.facts();
    let inputs = Vec::from_slice(alloc, pipeline.inputs())?;
    let outputs = Vec::from_slice(alloc, pipeline.inputs())?;
    Ok(Stage::new(
        0,
        Items::from_vec(inputs),
        Items::from_vec(Vec::new(alloc)),
        Items::from_vec(outputs),
    ))
}

/// A chain with one stage more behind it: each rail of the stage's inputs is the output of a gate that follows the output which it
/// takes, as its register cell does. The gates of the chain go by the numbers of the nets that they drive, so that all differ.
///
/// Linear in the gates and the bits of the stage.
pub(crate) fn follow(alloc: Global, front: Stage, back: &Stage) -> Result<Stage, Memory>
    requires { CanFollow front back.now }
    ensures { IfOk result (λ stage. stage ≡ followed front back.now) }
{
    let Stage {
        number: _,
        inputs,
        cells,
        outputs,
    } = front;
    let mut cells = cells.into_vec();
    push_followers(&mut cells, outputs.items(), back.inputs.items())?;
    push_gates(&mut cells, back.cells.items())?;
    let outputs = Vec::from_slice(alloc, back.outputs.items())?;
    Ok(Stage::new(
        back.number,
        inputs,
        Items::from_vec(cells),
        Items::from_vec(outputs),
    ))
}

/// A gate that follows a net.
fn follower(taken: NetId, rail: NetId) -> StageCell
    ensures { result ≡ follower taken rail }
{
    let mut ins: ArrayVec<NetId, 4> = ArrayVec::new();
    ins.push(taken);
    ins.push(taken);
    StageCell {
        cell: CellId(rail.0),
        kind: Kind::Th22,
        ins,
        out: rail,
    }
}

/// Puts the followers of some bits' rails after some gates. Linear in the bits.
fn push_followers(
    cells: &mut Vec<StageCell>,
    outputs: &[Rails],
    rails: &[Rails],
) -> Result<(), Memory>
    requires { length outputs.now ≡ length rails.now }
    ensures { OnOk result (cells.new.items ≡ cells.old.items ++ followers outputs.now rails.now) }
{
    for bit in 0..rails.len() {
        cells.push(follower(outputs[bit].zero, rails[bit].zero))?;
        cells.push(follower(outputs[bit].one, rails[bit].one))?;
    }
    Ok(())
}

/// A gate by the number of the net that it drives.
fn by_net(gate: &StageCell) -> Result<StageCell, Memory>
    ensures cell { IfOk result (λ made. made.cell.0 ≡ gate.now.out.0) }
    ensures kind { IfOk result (λ made. made.kind ≡ gate.now.kind) }
    ensures ins { IfOk result (λ made. made.ins.items ≡ gate.now.ins.items) }
    ensures out { IfOk result (λ made. made.out ≡ gate.now.out) }
{
    let ins = gate.ins.clone()?;
    Ok(StageCell {
        cell: CellId(gate.out.0),
        kind: gate.kind,
        ins,
        out: gate.out,
    })
}

/// Puts gates, by the numbers of the nets that they drive, after others. Linear in the gates.
fn push_gates(cells: &mut Vec<StageCell>, gates: &[StageCell]) -> Result<(), Memory>
    ensures { OnOk result (cells.new.items ≡ cells.old.items ++ map by_net gates.now) }
{
    for gate in gates {
        cells.push(by_net(gate)?)?;
    }
    Ok(())
}
