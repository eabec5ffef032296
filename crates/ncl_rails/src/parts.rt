//! The parts of a stage.
ghost use Rattle.std.specs.Prelude.{IfOk};
ghost use Rattle.ncl_rails.specs.StageParts.{CanBeStage, AreStageParts};

use crate::naming::{names_of_pairs, parts_of_gates};
use crate::stage_gates::stage_gates;
use ncl_base::{Items, Memory};
use ncl_netlist::{NamePair, PartCell};
use ncl_network::Network;
use std::alloc::Global;

/// The cells of a stage by name, each after those that drive it, and the names of the rails of its outputs.
#[derive(Debug, Drop)]
pub struct StageParts {
    pub cells: Items<PartCell>,
    pub outputs: Items<NamePair>,
}

/// The stage of gates that computes a network between rails of these names: input-complete and observable, so that
/// it works at every gate delay. Inputs that nothing reads are joined to the first output.
///
/// It may be made of another network with the same answers, where fewer gates come of that and not many more stand one
/// after another. Near linear in the network. The only error is want of memory.
pub fn stage_parts(
    alloc: Global,
    network: &Network,
    ins: &[NamePair],
    prefix: &[u8],
) -> Result<StageParts, Memory>
    requires { CanBeStage network.now ins.now prefix.now }
    ensures { IfOk result (AreStageParts network.now ins.now prefix.now) }
{
    let layout = stage_gates(alloc, network)?;
    let cells = parts_of_gates(alloc, ins, prefix, layout.gates.cells())?;
    let outputs = names_of_pairs(alloc, ins, prefix, &layout.outputs)?;
    Ok(StageParts {
        cells: Items::from_vec(cells),
        outputs: Items::from_vec(outputs),
    })
}
