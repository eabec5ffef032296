//! The functions of the nets of a stage under a variant, from those under Base.
ghost use Rattle.std.specs.Prelude.{◌≡◌, ◌≢◌, ◌<◌, ◌≤◌, ◌+◌, ◌-◌, ◌*◌, ◌++◌, ℕ, [], ◌∷◌, false, true, not, All, Contains, IfOk, IsErrOf, MatchOption, OnOk, drop, length, replicate, slice_index_or, take};
ghost use Rattle.std.specs.List.{list_any};
ghost use Rattle.ncl_shape.specs.Stage.{nets_of};
ghost use Rattle.ncl_space.specs.Making.{HaveTables, MakesAll};
ghost use Rattle.ncl_space.specs.Space.{Keeps, Makes, fits};
ghost use Rattle.ncl_stage.specs.Changes.{AreWaiting, IsUnreached, MarksChanges, net_at};
ghost use Rattle.ncl_stage.specs.StageTables.{AreValues, net_table_by, net_tables_by};
ghost use Rattle.ncl_faults.specs.Values.{kept_low};
ghost use Rattle.ncl_stage.specs.Wiring.{IsWiring};

use crate::net_values::Values;
use crate::nets::net_ref;
use crate::variant::is_kept_low;
use crate::wiring::Wiring;
use ncl_base::Memory;
use ncl_faults::Variant;
use ncl_shape::Stage;
use ncl_space::{Ref, Space, SpaceFault};
use std::alloc::Global;

/// What is known of the nets of a stage under a variant, from the first one on.
#[derive(Drop)]
struct Changes {
    /// Their functions.
    refs: Vec<Ref>,
    /// Whether each of them has changed.
    changed: Vec<bool>,
    /// For every net of the stage, whether it has to be looked at.
    waiting: Vec<bool>,
}

impl Changes {
    /// Nothing yet of so many nets, of which those at two places have to be looked at. Linear in the nets.
    fn new(alloc: Global, count: usize, places: (usize, usize)) -> Result<Changes, Memory>
        requires { (places.0 < count) × (places.1 < count) }
        ensures refs { IfOk result (λ changes. changes.refs.items ≡ []) }
        ensures changed { IfOk result (λ changes. changes.changed.items ≡ []) }
        ensures many { IfOk result (λ changes. length changes.waiting.items ≡ count) }
        ensures others { IfOk result (λ changes. (place : ℕ) → slice_index_or changes.waiting.items place true ≡ false → (place ≢ places.0) × (place ≢ places.1)) }
    {
        let mut waiting = vec![in alloc; false; count]?;
        waiting[places.0] = true;
        waiting[places.1] = true;
        let refs = Vec::with_capacity(alloc, count)?;
        let changed = Vec::with_capacity(alloc, count)?;
        Ok(Changes {
            refs,
            changed,
            waiting,
        })
    }

    /// The nets before a place that aren't known yet have their functions of Base. Linear in these.
    fn pass(&mut self, base: &[Ref], place: usize) -> Result<(), Memory>
        requires many { length self.old.changed.items ≡ length self.old.refs.items }
        requires from { length self.old.refs.items ≤ place }
        requires to { place ≤ length base.now }
        ensures refs { let from = length self.old.refs.items in
            OnOk result (self.new.refs.items ≡ self.old.refs.items ++ take (place - from) (drop from base.now)) }
        ensures changed { OnOk result (self.new.changed.items ≡ self.old.changed.items ++ replicate (place - length self.old.changed.items) false) }
        ensures waiting { self.new.waiting.items ≡ self.old.waiting.items }
    {
        self.refs.extend_from_slice(&base[self.refs.len()..place])?;
        self.changed.resize(place, false)?;
        Ok(())
    }

    /// One net more, which has its function of Base or has changed: then the nets at its readers have to be looked at. Linear
    /// in the readers.
    fn push(&mut self, made: Ref, is_same: bool, readers: &[usize]) -> Result<(), Memory>
        requires { All (λ reader. reader < length self.old.waiting.items) readers.now }
        ensures refs { OnOk result (self.new.refs.items ≡ self.old.refs.items ++ made ∷ []) }
        ensures changed { OnOk result (self.new.changed.items ≡ self.old.changed.items ++ not is_same ∷ []) }
        ensures many { length self.new.waiting.items ≡ length self.old.waiting.items }
        ensures kept { (place : ℕ) → slice_index_or self.new.waiting.items place true ≡ false → slice_index_or self.old.waiting.items place true ≡ false }
        ensures readers { is_same ≡ false → (reader : ℕ) → Contains readers.now reader → slice_index_or self.new.waiting.items reader true ≡ true }
    {
        wait_unless(is_same, &mut self.waiting, readers);
        self.changed.push(!is_same)?;
        self.refs.push(made)?;
        Ok(())
    }
}

/// The functions of all nets of a stage under a variant, from those under Base, which `base` has, in its order: of the
/// rails of its inputs, and then of the outputs of its cells.
///
/// Linear in the nets, which are copied, and in the pins of the cells that read a changed net; it asks the space for one
/// function for each of these cells. A net has changed where its function isn't that of Base. Every other net keeps the name
/// that `base` has, or that of the constant 0 where the variant keeps it low. `Full` comes exactly where
/// the beads held with those of all these functions are more than the limit. What is made before a refusal
/// stays.
pub(crate) fn net_refs_from<P: Space>(
    alloc: Global,
    space: &mut P,
    stage: &Stage,
    base: &Values,
    variant: Variant,
) -> Result<Vec<Ref>, SpaceFault>
    requires { AreValues (P.meaning space.old) stage.now Variant.Base base.now }
    ensures made { IfOk result (λ refs. MakesAll (P.meaning space.old) (P.meaning space.new) refs.items (net_tables_by base.now.wiring.order stage.now variant)) }
    ensures kept { Keeps (P.meaning space.old) (P.meaning space.new) }
    ensures full { IsErrOf result SpaceFault.Full → fits (P.meaning space.old) (net_tables_by base.now.wiring.order stage.now variant) ≡ false }
{
    stage.facts();
    space.facts();
    let places = forced_places(stage, base.wiring(), variant);
    let mut changes = Changes::new(alloc, base.refs().len(), places)?;
    follow(space, stage, base, variant, &mut changes)?;
    Ok(changes.refs)
}

/// Looks at the nets that wait, one after another, where none is known yet.
fn follow<P: Space>(
    space: &mut P,
    stage: &Stage,
    base: &Values,
    variant: Variant,
    changes: &mut Changes,
) -> Result<(), SpaceFault>
    requires base { AreValues (P.meaning space.old) stage.now Variant.Base base.now }
    requires refs { changes.old.refs.items ≡ [] }
    requires changed { changes.old.changed.items ≡ [] }
    requires waiting { AreWaiting base.now.wiring stage.now variant 0 changes.old.waiting.items }
    ensures made { OnOk result (MakesAll (P.meaning space.old) (P.meaning space.new) changes.new.refs.items (net_tables_by base.now.wiring.order stage.now variant)) }
    ensures kept { Keeps (P.meaning space.old) (P.meaning space.new) }
    ensures full { IsErrOf result SpaceFault.Full → fits (P.meaning space.old) (net_tables_by base.now.wiring.order stage.now variant) ≡ false }
{
    stage.facts();
    space.facts();
    let all = base.refs();
    while let Some(place) = next_waiting(changes.waiting.as_slice(), changes.refs.len()) {
        changes.pass(all, place)?;
        let made = ref_from(space, stage, base, variant, place, changes)?;
        let is_same = space.same(made, all[place]);
        changes.push(made, is_same, base.wiring().readers(place))?;
    }
    changes.pass(all, all.len())?;
    Ok(())
}

/// The places of the nets that the variant keeps low, or that of some net where it keeps fewer low. Takes no memory.
fn forced_places(stage: &Stage, wiring: &Wiring, variant: Variant) -> (usize, usize)
    requires { IsWiring stage.now wiring.now }
    ensures within { (result.0 < length wiring.now.nets) × (result.1 < length wiring.now.nets) }
    ensures others { (place : ℕ) → place < length wiring.now.nets → place ≢ result.0 → place ≢ result.1 → kept_low stage.now variant (net_at stage.now place) ≡ false }
{
    stage.facts();
    match variant {
        Variant::Base => (0, 0),
        Variant::Bit(bit) => match stage.inputs.items().get(bit) {
            Some(pair) => {
                let zero = wiring.place_of(pair.zero);
                let one = wiring.place_of(pair.one);
                (zero, one)
            }
            None => (0, 0),
        },
        Variant::Cell(cell) => match stage.cells.items().get(cell) {
            Some(cell) => {
                let place = wiring.place_of(cell.out);
                (place, place)
            }
            None => (0, 0),
        },
    }
}

/// The first marked place from one on. Linear in the places between.
fn next_waiting(marks: &[bool], from: usize) -> Option<usize>
    requires { from ≤ length marks.now }
    ensures { MatchOption result ((other : ℕ) → from ≤ other → other < length marks.now → slice_index_or marks.now other true ≡ false)
        (λ place. (from ≤ place) × (place < length marks.now) × ((other : ℕ) → from ≤ other → other < place → slice_index_or marks.now other true ≡ false)) }
{
    match first_marked(&marks[from..]) {
        Some(behind) => Some(from + behind),
        None => None,
    }
}

/// The first marked place. Linear in the places up to it.
fn first_marked(marks: &[bool]) -> Option<usize>
    ensures { MatchOption result ((other : ℕ) → other < length marks.now → slice_index_or marks.now other true ≡ false)
        (λ place. (place < length marks.now) × ((other : ℕ) → other < place → slice_index_or marks.now other true ≡ false)) }
{
    marks.iter().position(|mark| *mark)
}

/// Marks some places, unless the net that they read has its function of Base. Linear in the places.
fn wait_unless(is_same: bool, marks: &mut [bool], readers: &[usize])
    requires { All (λ reader. reader < length marks.old) readers.now }
    ensures many { length marks.new ≡ length marks.old }
    ensures kept { (place : ℕ) → slice_index_or marks.new place true ≡ false → slice_index_or marks.old place true ≡ false }
    ensures readers { is_same ≡ false → (reader : ℕ) → Contains readers.now reader → slice_index_or marks.new reader true ≡ true }
{
    if is_same {
        return;
    }
    for reader in readers {
        marks[*reader] = true;
    }
}

/// The function of the net at a place, from what is known of the nets before it. Linear in the pins of its cell.
fn ref_from<P: Space>(
    space: &mut P,
    stage: &Stage,
    base: &Values,
    variant: Variant,
    place: usize,
    changes: &Changes,
) -> Result<Ref, SpaceFault>
    requires base { AreValues (P.meaning space.old) stage.now Variant.Base base.now }
    requires place { place < length (nets_of stage.now.inputs stage.now.cells) }
    requires refs { HaveTables (P.meaning space.old) changes.now.refs.items (take place (net_tables_by base.now.wiring.order stage.now variant)) }
    requires many { length changes.now.changed.items ≡ place }
    requires changed { MarksChanges base.now.wiring.order stage.now variant changes.now.changed.items }
    ensures made { IfOk result (λ r. Makes (P.meaning space.old) (P.meaning space.new) r (net_table_by base.now.wiring.order stage.now variant (net_at stage.now place))) }
    ensures kept { Keeps (P.meaning space.old) (P.meaning space.new) }
    ensures full { IsErrOf result SpaceFault.Full → fits (P.meaning space.old) (net_table_by base.now.wiring.order stage.now variant (net_at stage.now place) ∷ []) ≡ false }
{
    stage.facts();
    space.facts();
    let wiring = base.wiring();
    let refs = changes.refs.as_slice();
    let changed = changes.changed.as_slice();
    if is_reached(stage, wiring, place, changed) {
        return net_ref(space, stage, wiring, variant, place, refs);
    }
    if is_kept_low(stage, variant, wiring.net(place)) {
        return Ok(space.constant(false));
    }
    Ok(base.refs()[place])
}

/// Whether the net at a place is the output of a cell that reads a net that has changed. Linear in its pins.
fn is_reached(stage: &Stage, wiring: &Wiring, place: usize, changed: &[bool]) -> bool
    requires wiring { IsWiring stage.now wiring.now }
    requires place { place < length (nets_of stage.now.inputs stage.now.cells) }
    requires many { length changed.now ≡ place }
    ensures { result ≡ false → (variant : Variant) → MarksChanges wiring.now.order stage.now variant changed.now → IsUnreached wiring.now.order stage.now variant (net_at stage.now place) }
{
    stage.facts();
    let rails = 2 * stage.inputs.items().len();
    if place < rails {
        return false;
    }
    is_marked(changed, wiring.pins(place - rails))
}

/// Whether a mark stands at one of the places. Linear in the places.
fn is_marked(marks: &[bool], places: &[usize]) -> bool
    requires { All (λ place. place < length marks.now) places.now }
    ensures { result ≡ list_any (λ place. slice_index_or marks.now place true) places.now }
{
    for place in places {
        if marks[*place] {
            return true;
        }
    }
    false
}
