//! On which bits of a word the nets of a stage can depend, and on which what they can change, as masks: bit p of a mask stands for
//! the input bit at place p of the order of the wiring. The last three places have no bit.
ghost use Rattle.std.specs.Prelude.{◌≡◌, ◌<◌, ◌≤◌, ◌+◌, ◌*◌, ℕ, [], true, All, IfOk, length, slice_index_or};
ghost use Rattle.ncl_gates.specs.Bits.{is_set};
ghost use Rattle.ncl_shape.specs.Stage.{nets_of};
ghost use Rattle.ncl_stage.specs.Wiring.{IsWiring, place_in};
ghost use Rattle.ncl_verdict.specs.Masks.{AreMasks, AreReaches, IsPart, IsSupport, both, mask_at};

use ncl_base::Memory;
use ncl_shape::Stage;
use ncl_stage::{BitOrder, Values, Wiring};
use std::alloc::Global;

/// For each net of a stage the bits on which it can depend: a rail on its own bit, and the output of a cell on those of what the
/// cell reads. An error is want of memory.
///
/// Linear in the pins.
pub(crate) fn supports(alloc: Global, stage: &Stage, base: &Values) -> Result<Vec<u128>, Memory>
    requires { IsWiring stage.now base.now.wiring }
    ensures many { IfOk result (λ masks. length masks.items ≡ length base.now.wiring.nets) }
    ensures masks { IfOk result (λ masks. AreMasks (length stage.now.inputs) base.now.wiring masks.items) }
{
    stage.facts();
    let count = base.refs().len();
    let mut masks = Vec::with_capacity(alloc, count)?;
    for place in 0..count {
        let mask = support(stage, base, place, masks.as_slice());
        masks.push(mask)?;
    }
    Ok(masks)
}

/// The bits on which the net at a place can depend, from those of the nets before it. Linear in the pins of its cell.
fn support(stage: &Stage, base: &Values, place: usize, masks: &[u128]) -> u128
    requires wiring { IsWiring stage.now base.now.wiring }
    requires place { place < length (nets_of stage.now.inputs stage.now.cells) }
    requires many { length masks.now ≡ place }
    ensures { IsSupport (length stage.now.inputs) base.now.wiring masks.now place result }
{
    stage.facts();
    let rails = 2 * stage.inputs.items().len();
    if place < rails {
        return rail_mask(base.order(), place / 2);
    }
    all_of(masks, base.wiring().pins(place - rails))
}

/// The bit of an input bit, unless that stands at one of the last three places. Takes no memory.
fn rail_mask(order: &BitOrder, bit: usize) -> u128
    requires bit { bit < length order.now }
    requires few { length order.now ≤ 128 }
    ensures { place_in order.now bit + 3 < length order.now → is_set result (place_in order.now bit) ≡ true }
{
    let place = order.place_of(bit);
    if place + 3 < order.bits().len() {
        1 << place
    } else {
        0
    }
}

/// The masks at some places together. Linear in the places.
fn all_of(masks: &[u128], places: &[usize]) -> u128
    requires { All (λ place. place < length masks.now) places.now }
    ensures { All (λ place. IsPart (mask_at masks.now place) result) places.now }
{
    let mut all: u128 = 0;
    for place in places {
        all = all | masks[*place];
    }
    all
}

/// For each net of a stage the bits on which can depend what the net can change: the net itself, the outputs of the cells that
/// read it and what these can change, and the DATA of an output whose rail it is. `masks` has the bits on which the nets depend.
/// An error is want of memory.
///
/// One pass back over the cells, linear in their pins.
pub(crate) fn reaches(
    alloc: Global,
    stage: &Stage,
    base: &Values,
    masks: &[u128],
) -> Result<Vec<u128>, Memory>
    requires wiring { IsWiring stage.now base.now.wiring }
    requires many { length masks.now ≡ length base.now.wiring.nets }
    ensures many { IfOk result (λ reaches. length reaches.items ≡ length masks.now) }
    ensures reaches { IfOk result (λ reaches. AreReaches 0 (length stage.now.inputs) base.now.wiring masks.now reaches.items) }
{
    stage.facts();
    let mut reaches = copied(alloc, masks)?;
    let bits = stage.inputs.items().len();
    spread(
        &mut reaches,
        masks,
        base.wiring(),
        bits,
        stage.cells.items().len(),
    );
    Ok(reaches)
}

/// A copy of some masks. Linear in them.
fn copied(alloc: Global, masks: &[u128]) -> Result<Vec<u128>, Memory>
    ensures { IfOk result (λ copy. copy.items ≡ masks.now) }
{
    let copy = masks.iter().copied().collect(alloc)?;
    Ok(copy)
}

/// The masks that the nets reach, where at first each net has its own. Linear in the outputs and the pins.
fn spread(reaches: &mut [u128], masks: &[u128], wiring: &Wiring, bits: usize, cells: usize)
    requires own { reaches.old ≡ masks.now }
    requires cells { cells ≡ length wiring.now.pins }
    requires many { 2 * bits + cells ≤ length masks.now }
    requires outputs { All (λ pair. (pair.0 < length masks.now) × (pair.1 < length masks.now)) wiring.now.outputs }
    requires earlier { (cell : ℕ) → cell < cells → All (λ pin. pin < 2 * bits + cell) (slice_index_or wiring.now.pins cell []) }
    ensures { AreReaches 0 bits wiring.now masks.now reaches.new }
{
    add_outputs(reaches, masks, wiring.outputs());
    let mut left = cells;
    while left > 0 {
        left -= 1;
        let mask = reaches[2 * bits + left];
        add_at(reaches, wiring.pins(left), mask);
    }
}

/// Adds to the rails of each output what both depend on. Linear in the outputs.
fn add_outputs(reaches: &mut [u128], masks: &[u128], outputs: &[(usize, usize)])
    requires own { reaches.old ≡ masks.now }
    requires outputs { All (λ pair. (pair.0 < length masks.now) × (pair.1 < length masks.now)) outputs.now }
    ensures own { (place : ℕ) → IsPart (mask_at masks.now place) (mask_at reaches.new place) }
    ensures outputs { All (λ pair. IsPart (both masks.now pair) (mask_at reaches.new pair.0) × IsPart (both masks.now pair) (mask_at reaches.new pair.1)) outputs.now }
{
    for pair in outputs {
        let data = masks[pair.0] | masks[pair.1];
        reaches[pair.0] = reaches[pair.0] | data;
        reaches[pair.1] = reaches[pair.1] | data;
    }
}

/// Adds the bits of a mask to those at some places. Linear in the places.
fn add_at(masks: &mut [u128], places: &[usize], mask: u128)
    requires { All (λ place. place < length masks.old) places.now }
    ensures grown { (place : ℕ) → IsPart (mask_at masks.old place) (mask_at masks.new place) }
    ensures added { All (λ place. IsPart mask (mask_at masks.new place)) places.now }
    ensures others { (from : ℕ) → All (λ place. place < from) places.now → (place : ℕ) → from ≤ place → mask_at masks.new place ≡ mask_at masks.old place }
{
    for place in places {
        masks[*place] = masks[*place] | mask;
    }
}
