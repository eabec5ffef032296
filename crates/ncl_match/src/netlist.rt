//! The function of rail 1 of an output of a pipeline.
ghost use Rattle.std.specs.Prelude.{◌≡◌, ◌<◌, All, length};
ghost use Rattle.ncl_space.specs.Space.{Keeps};
ghost use Rattle.ncl_match.specs.Circuit.{circuit_of};
ghost use Rattle.ncl_match.specs.Making.{MakesRail};
ghost use Rattle.ncl_match.specs.Pairs.{IsPair};
ghost use Rattle.ncl_match.specs.Planned.{AreMarksFor};

use crate::inputs::input_pairs;
use crate::marks::marked_nets;
use crate::nets::plan_pairs;
use crate::pair::{Pair, constant_pair};
use crate::planning::PlannedPipeline;
use ncl_space::{Space, SpaceFault};
use std::alloc::Global;

/// The function of rail 1 of an output of a pipeline, from 0, over the words of its inputs. It makes the functions of all
/// nets that count for the output, and their complements.
///
/// Linear in the netlist, with one function and its complement for each net that counts. `Full` comes exactly where the
/// beads held with those of all these are more than the limit. What is made before a refusal stays.
pub(crate) fn netlist_pair<P: Space>(
    alloc: Global,
    space: &mut P,
    planned: &PlannedPipeline,
    output: usize,
) -> Result<Pair, SpaceFault>
    requires width { (P.meaning space.old).width ≡ length planned.now.inputs }
    requires output { output < length planned.now.outputs }
    ensures made { MakesRail (P.meaning space.old) (P.meaning space.new) (circuit_of planned.now) output result }
    ensures kept { Keeps (P.meaning space.old) (P.meaning space.new) }
{
    space.facts();
    let pipeline = planned.pipeline();
    let root = pipeline.outputs()[output].one;
    let nets = pipeline.netlist().nets().len();
    let marks = marked_nets(alloc, planned.cells(), nets, root)?;
    let constant = constant_pair(space, false);
    let mut pairs = vec![in alloc; constant; marks.len()]?;
    filled_pair(space, planned, output, &marks, &mut pairs)
}

/// The same with the marks of the nets, and a pair for each net, which is filled in for those that count.
fn filled_pair<P: Space>(
    space: &mut P,
    planned: &PlannedPipeline,
    output: usize,
    marks: &[bool],
    pairs: &mut [Pair],
) -> Result<Pair, SpaceFault>
    requires width { (P.meaning space.old).width ≡ length planned.now.inputs }
    requires output { output < length planned.now.outputs }
    requires marks { AreMarksFor planned.now output marks.now }
    requires many { length marks.now ≡ length pairs.old }
    requires pairs { All (IsPair (P.meaning space.old)) pairs.old }
    ensures made { MakesRail (P.meaning space.old) (P.meaning space.new) (circuit_of planned.now) output result }
    ensures kept { Keeps (P.meaning space.old) (P.meaning space.new) }
{
    let pipeline = planned.pipeline();
    pipeline.facts();
    let root = pipeline.outputs()[output].one;
    input_pairs(space, pipeline.inputs(), marks, pairs)?;
    plan_pairs(space, planned.cells(), marks, pairs)?;
    Ok(pairs[root.0 as usize])
}
