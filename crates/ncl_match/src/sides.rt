//! The two sides of an output, and where they differ.
ghost use Rattle.std.specs.Prelude.{◌≡◌, ◌-◌, ◌<◌, ◌≤◌, List, Bool, IfOk, OnOk, IsErrOf, length};
ghost use Rattle.ncl_blif.specs.Model.{AreModels};
ghost use Rattle.ncl_space.specs.Space.{Keeps};
ghost use Rattle.ncl_match.specs.Answer.{HaveWidths};
ghost use Rattle.ncl_match.specs.Circuit.{circuit_of};
ghost use Rattle.ncl_match.specs.Gathering.{Gathers, IsHeld, Overflows};
ghost use Rattle.ncl_match.specs.Listed.{IsListed};
ghost use Rattle.ncl_match.specs.Sides.{HasApart};

use crate::bit::apart;
use crate::netlist::netlist_pair;
use crate::pair::Pair;
use crate::preparing::Sides;
use crate::signals::models_pair;
use ncl_space::{Space, SpaceFault};
use std::alloc::Global;

/// Where the two functions of an output differ, from 1. It makes all tables of the output, and no others, in one pass over
/// the data cells of the pipeline and one over the covers of the models.
///
/// `Full` comes exactly where the beads held with those of all its tables are more than the limit. What is made before
/// a refusal stays.
pub(crate) fn difference<P: Space>(
    alloc: Global,
    space: &mut P,
    sides: &Sides,
    output: u32,
) -> Result<Pair, SpaceFault>
    requires width { (P.meaning space.old).width ≡ length sides.now.pipeline.inputs }
    requires models { AreModels sides.now.models }
    requires widths { HaveWidths (circuit_of sides.now.pipeline) sides.now.models }
    requires output { (1 ≤ output) × (output ≤ length sides.now.pipeline.outputs) }
    ensures apart { IfOk result (λ p. HasApart (P.meaning space.new) p (circuit_of sides.now.pipeline) sides.now.models (output - 1)) }
    ensures whole { OnOk result ((table : List Bool) → IsListed (circuit_of sides.now.pipeline) sides.now.models (output - 1) table → IsHeld (P.meaning space.new) table) }
    ensures gathers { OnOk result (Gathers (IsListed (circuit_of sides.now.pipeline) sides.now.models (output - 1)) (P.meaning space.old) (P.meaning space.new)) }
    ensures kept { Keeps (P.meaning space.old) (P.meaning space.new) }
    ensures full { IsErrOf result SpaceFault.Full → Overflows (IsListed (circuit_of sides.now.pipeline) sides.now.models (output - 1)) (P.meaning space.old) }
{
    let place = output as usize - 1;
    let f = netlist_pair(alloc, space, &sides.pipeline, place)?;
    let g = models_pair(alloc, space, &sides.models, place)?;
    let either = apart(space, f, g)?;
    Ok(either)
}
