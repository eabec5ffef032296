//! Whether the nets of a stage are observed, each by the gates that read it.
ghost use Rattle.std.specs.Prelude.{◌≡◌, ◌<◌, ◌≤◌, ◌+◌, ◌-◌, ◌%◌, ℕ, false, true, nat_eq, All, IfOk, if◌then◌else◌, length, map, slice_index_or, take};
ghost use Rattle.ncl_gates.specs.Dual.{dual_pins};
ghost use Rattle.ncl_gates.specs.Gate.{arity_of};
ghost use Rattle.ncl_shape.specs.Stage.{nets_of};
ghost use Rattle.ncl_space.specs.Making.{HaveTables};
ghost use Rattle.ncl_space.specs.Space.{IsLive, Keeps, Restores};
ghost use Rattle.ncl_stage.specs.Changes.{net_at};
ghost use Rattle.ncl_stage.specs.Observed.{AreObserved};
ghost use Rattle.ncl_stage.specs.Observing.{IsAlwaysObserved, IsLeft, IsShown, low_table_by, low_tables_by, table_without};
ghost use Rattle.ncl_stage.specs.StageTables.{AreValues, ref_at};
ghost use Rattle.ncl_shape.specs.declared.stage.StageCell.{StageCell};

use crate::net_values::Values;
use crate::nets::refs_at;
use crate::wiring::Wiring;
use arrayvec::ArrayVec;
use ncl_base::Memory;
use ncl_faults::Variant;
use ncl_gates::Kind;
use ncl_shape::Stage;
use ncl_space::{Ref, Space, SpaceFault};
use std::alloc::Global;

/// Whether each net of a stage is observed wherever it is high: it is a rail of an output, or some gate that reads it falls
/// with it. `base` has the values of the stage under Base. No forced net is followed further than to the gates that read it.
///
/// Linear in the pins: one function for each cell, and two for each pin that reads a net which no output shows. A refusal
/// says that there was no room or no memory for these functions. Whatever the answer, the space is as it was.
pub fn all_observed<P: Space>(
    alloc: Global,
    space: &mut P,
    stage: &Stage,
    base: &Values,
) -> Result<bool, SpaceFault>
    requires { AreValues (P.meaning space.old) stage.now Variant.Base base.now }
    ensures observed { IfOk result (λ answer. answer ≡ true → AreObserved stage.now) }
    ensures back { Restores (P.meaning space.old) (P.meaning space.new) }
{
    let start = space.mark();
    let answer = are_observed(alloc, space, stage, base);
    space.release(start);
    answer
}

/// The same, but what is made stays.
fn are_observed<P: Space>(
    alloc: Global,
    space: &mut P,
    stage: &Stage,
    base: &Values,
) -> Result<bool, SpaceFault>
    requires { AreValues (P.meaning space.old) stage.now Variant.Base base.now }
    ensures observed { IfOk result (λ answer. answer ≡ true → AreObserved stage.now) }
    ensures kept { Keeps (P.meaning space.old) (P.meaning space.new) }
{
    stage.facts();
    let lows = low_refs(alloc, space, stage, base)?;
    let shown = output_marks(alloc, base.wiring(), lows.len())?;
    for place in 0..lows.len() {
        if shown[place] {
            continue;
        }
        if !is_observed(space, stage, base, lows.as_slice(), place)? {
            return Ok(false);
        }
    }
    Ok(true)
}

/// For each of so many places whether a rail of an output stands there. Linear in the places and the outputs.
fn output_marks(alloc: Global, wiring: &Wiring, count: usize) -> Result<Vec<bool>, Memory>
    requires { All (λ pair. (pair.0 < count) × (pair.1 < count)) wiring.now.outputs }
    ensures many { IfOk result (λ marks. length marks.items ≡ count) }
    ensures shown { IfOk result (λ marks. (place : ℕ) → slice_index_or marks.items place false ≡ true → IsShown wiring.now.outputs place) }
{
    let mut marks = vec![in alloc; false; count]?;
    for pair in wiring.outputs() {
        marks[pair.0] = true;
        marks[pair.1] = true;
    }
    Ok(marks)
}

/// For each net the function that is 1 where the net is low under Base. One function for each cell.
fn low_refs<P: Space>(
    alloc: Global,
    space: &mut P,
    stage: &Stage,
    base: &Values,
) -> Result<Vec<Ref>, SpaceFault>
    requires { AreValues (P.meaning space.old) stage.now Variant.Base base.now }
    ensures made { IfOk result (λ lows. HaveTables (P.meaning space.new) lows.items (low_tables_by base.now.wiring.order stage.now)) }
    ensures kept { Keeps (P.meaning space.old) (P.meaning space.new) }
{
    space.facts();
    let count = base.refs().len();
    let mut lows = Vec::with_capacity(alloc, count)?;
    for place in 0..count {
        let low = low_ref(space, stage, base, place, lows.as_slice())?;
        lows.push(low)?;
    }
    Ok(lows)
}

/// The function of where the net at a place is low, from those of the nets before it: of a rail it is that of the other rail,
/// and of a gate that of its dual on where its inputs are low. Linear in the pins of its cell.
fn low_ref<P: Space>(
    space: &mut P,
    stage: &Stage,
    base: &Values,
    place: usize,
    lows: &[Ref],
) -> Result<Ref, SpaceFault>
    requires base { AreValues (P.meaning space.old) stage.now Variant.Base base.now }
    requires place { place < length (nets_of stage.now.inputs stage.now.cells) }
    requires lows { HaveTables (P.meaning space.old) lows.now (take place (low_tables_by base.now.wiring.order stage.now)) }
    ensures live { IfOk result (IsLive (P.meaning space.new)) }
    ensures table { IfOk result (λ low. (P.meaning space.new).table low ≡ low_table_by base.now.wiring.order stage.now (net_at stage.now place)) }
    ensures kept { Keeps (P.meaning space.old) (P.meaning space.new) }
{
    stage.facts();
    space.facts();
    let rails = 2 * stage.inputs.items().len();
    if place < rails {
        return Ok(base.refs()[other_rail(place)]);
    }
    let cell = place - rails;
    let kind = stage.cells.items()[cell].kind;
    let ins = dual_ins(kind, lows, base.wiring().pins(cell));
    space.apply(kind.dual(), ins.as_slice())
}

/// The place of the other rail of a bit: rail 0 stands before rail 1. Takes no memory.
fn other_rail(place: usize) -> usize
    requires { place < usize.MAX }
    ensures { result ≡ (if nat_eq (place % 2) 1 then place - 1 else place + 1) }
{
    if place % 2 == 1 { place - 1 } else { place + 1 }
}

/// The Refs at the pins of a gate, as its dual takes them. Linear in the pins.
fn dual_ins(kind: Kind, refs: &[Ref], pins: &[usize]) -> ArrayVec<Ref, 4>
    requires arity { length pins.now ≡ arity_of kind }
    requires within { All (λ pin. pin < length refs.now) pins.now }
    ensures { result.items ≡ dual_pins kind (map (ref_at refs.now) pins.now) }
{
    if let (true, [a, b, c, d]) = (kind.is_crossed(), pins) {
        return refs_at(refs, &[*b, *a, *c, *d]);
    }
    refs_at(refs, pins)
}

/// Whether a gate falls with the net at a place wherever the net is high. Two functions for each gate that reads the net.
fn is_observed<P: Space>(
    space: &mut P,
    stage: &Stage,
    base: &Values,
    lows: &[Ref],
    place: usize,
) -> Result<bool, SpaceFault>
    requires base { AreValues (P.meaning space.old) stage.now Variant.Base base.now }
    requires lows { HaveTables (P.meaning space.old) lows.now (low_tables_by base.now.wiring.order stage.now) }
    requires place { place < length (nets_of stage.now.inputs stage.now.cells) }
    ensures observed { IfOk result (λ answer. answer ≡ true → IsAlwaysObserved stage.now (net_at stage.now place)) }
    ensures kept { Keeps (P.meaning space.old) (P.meaning space.new) }
{
    stage.facts();
    space.facts();
    let never = space.constant(false);
    let mut left = base.refs()[place];
    for reader in base.wiring().readers(place) {
        if space.same(left, never) {
            return Ok(true);
        }
        left = left_by(space, stage, base, lows, place, *reader, left)?;
    }
    Ok(space.same(left, never))
}

/// Where the net at a place is high and none of the gates so far falls with it, and nor does one more, which stands at a place
/// too. Two functions.
fn left_by<P: Space>(
    space: &mut P,
    stage: &Stage,
    base: &Values,
    lows: &[Ref],
    place: usize,
    reader: usize,
    left: Ref,
) -> Result<Ref, SpaceFault>
    requires base { AreValues (P.meaning space.old) stage.now Variant.Base base.now }
    requires lows { HaveTables (P.meaning space.old) lows.now (low_tables_by base.now.wiring.order stage.now) }
    requires place { place < length (nets_of stage.now.inputs stage.now.cells) }
    requires reader { reader < length (nets_of stage.now.inputs stage.now.cells) }
    requires live { IsLive (P.meaning space.old) left }
    requires left { IsLeft base.now.wiring.order stage.now (net_at stage.now place) ((P.meaning space.old).table left) }
    ensures live { IfOk result (IsLive (P.meaning space.new)) }
    ensures left { IfOk result (λ next. IsLeft base.now.wiring.order stage.now (net_at stage.now place) ((P.meaning space.new).table next)) }
    ensures kept { Keeps (P.meaning space.old) (P.meaning space.new) }
{
    stage.facts();
    space.facts();
    let rails = 2 * stage.inputs.items().len();
    if reader < rails {
        return Ok(left);
    }
    let fallen = without(space, stage, base, reader - rails, place)?;
    space.apply(Kind::Th33w2, &[left, lows[reader], fallen])
}

/// The function of a cell's set function with the net at a place low. One function.
fn without<P: Space>(
    space: &mut P,
    stage: &Stage,
    base: &Values,
    cell: usize,
    place: usize,
) -> Result<Ref, SpaceFault>
    requires base { AreValues (P.meaning space.old) stage.now Variant.Base base.now }
    requires place { place < length (nets_of stage.now.inputs stage.now.cells) }
    requires cell { cell < length stage.now.cells }
    ensures live { IfOk result (IsLive (P.meaning space.new)) }
    ensures table { (d : StageCell) → IfOk result (λ fallen. (P.meaning space.new).table fallen ≡ table_without base.now.wiring.order stage.now (net_at stage.now place) (slice_index_or stage.now.cells cell d)) }
    ensures kept { Keeps (P.meaning space.old) (P.meaning space.new) }
{
    stage.facts();
    space.facts();
    let never = space.constant(false);
    let ins = refs_without(base.refs(), base.wiring().pins(cell), place, never);
    space.apply(stage.cells.items()[cell].kind, ins.as_slice())
}

/// The Refs at some places, but for one place another. Linear in the places.
fn refs_without(refs: &[Ref], places: &[usize], place: usize, other: Ref) -> ArrayVec<Ref, 4>
    requires few { length places.now ≤ 4 }
    requires within { All (λ at. at < length refs.now) places.now }
    ensures { result.items ≡ map (λ at. if nat_eq at place then other else ref_at refs.now at) places.now }
{
    let mut found: ArrayVec<Ref, 4> = ArrayVec::new();
    for at in places {
        found.push(if *at == place { other } else { refs[*at] });
    }
    found
}
