//! The functions of all nets of a stage in a space.
ghost use Rattle.std.specs.Prelude.{◌≡◌, ◌<◌, ◌≤◌, [], ◌∷◌, false, All, IfOk, IsErrOf, length, map, take};
ghost use Rattle.ncl_shape.specs.Stage.{nets_of};
ghost use Rattle.ncl_space.specs.Making.{HaveTables, MakesAll};
ghost use Rattle.ncl_space.specs.Space.{Keeps, Makes, fits};
ghost use Rattle.ncl_stage.specs.Changes.{net_at};
ghost use Rattle.ncl_stage.specs.StageTables.{net_table_by, net_tables_by, ref_at};
ghost use Rattle.ncl_stage.specs.Wiring.{IsWiring};

use crate::variant::is_kept_low;
use crate::wiring::Wiring;
use arrayvec::ArrayVec;
use ncl_faults::Variant;
use ncl_shape::Stage;
use ncl_space::{Ref, Space, SpaceFault};
use std::alloc::Global;

/// The functions of all nets of a stage under a variant, in the order of its wiring: of the rails of its inputs, and
/// then of the outputs of its cells. It goes over the cells once.
///
/// It asks the space for one function for each net, in that order. `Full` comes exactly where the beads
/// held with those of all these functions are more than the limit. What is made before a refusal stays.
pub(crate) fn net_refs<P: Space>(
    alloc: Global,
    space: &mut P,
    stage: &Stage,
    wiring: &Wiring,
    variant: Variant,
) -> Result<Vec<Ref>, SpaceFault>
    requires width { (P.meaning space.old).width ≡ length stage.now.inputs }
    requires wiring { IsWiring stage.now wiring.now }
    ensures made { IfOk result (λ refs. MakesAll (P.meaning space.old) (P.meaning space.new) refs.items (net_tables_by wiring.now.order stage.now variant)) }
    ensures kept { Keeps (P.meaning space.old) (P.meaning space.new) }
    ensures full { IsErrOf result SpaceFault.Full → fits (P.meaning space.old) (net_tables_by wiring.now.order stage.now variant) ≡ false }
{
    stage.facts();
    space.facts();
    let mut refs = Vec::with_capacity(alloc, wiring.len())?;
    for place in 0..wiring.len() {
        let made = net_ref(space, stage, wiring, variant, place, refs.as_slice())?;
        refs.push(made)?;
    }
    Ok(refs)
}

/// The function of the net at a place, from those of the nets before it. Linear in the pins of its cell.
pub(crate) fn net_ref<P: Space>(
    space: &mut P,
    stage: &Stage,
    wiring: &Wiring,
    variant: Variant,
    place: usize,
    refs: &[Ref],
) -> Result<Ref, SpaceFault>
    requires width { (P.meaning space.old).width ≡ length stage.now.inputs }
    requires wiring { IsWiring stage.now wiring.now }
    requires place { place < length (nets_of stage.now.inputs stage.now.cells) }
    requires refs { HaveTables (P.meaning space.old) refs.now (take place (net_tables_by wiring.now.order stage.now variant)) }
    ensures made { IfOk result (λ r. Makes (P.meaning space.old) (P.meaning space.new) r (net_table_by wiring.now.order stage.now variant (net_at stage.now place))) }
    ensures kept { Keeps (P.meaning space.old) (P.meaning space.new) }
    ensures full { IsErrOf result SpaceFault.Full → fits (P.meaning space.old) (net_table_by wiring.now.order stage.now variant (net_at stage.now place) ∷ []) ≡ false }
{
    stage.facts();
    space.facts();
    if is_kept_low(stage, variant, wiring.net(place)) {
        return Ok(space.constant(false));
    }
    let rails = 2 * stage.inputs.items().len();
    if place < rails {
        let value = place % 2 == 1;
        return space.rail(wiring.order().place_of(place / 2), value);
    }
    let cell = place - rails;
    let gate = &stage.cells.items()[cell];
    let ins = refs_at(refs, wiring.pins(cell));
    space.apply(gate.kind, ins.as_slice())
}

/// The Refs at some places. Linear in the places.
pub(crate) fn refs_at(refs: &[Ref], places: &[usize]) -> ArrayVec<Ref, 4>
    requires few { length places.now ≤ 4 }
    requires within { All (λ place. place < length refs.now) places.now }
    ensures { result.items ≡ map (ref_at refs.now) places.now }
{
    let mut found: ArrayVec<Ref, 4> = ArrayVec::new();
    for place in places {
        found.push(refs[*place]);
    }
    found
}
