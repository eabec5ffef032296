//! What is asked of the outputs of a stage in a space.
ghost use Rattle.std.specs.Prelude.{◌≡◌, ◌<◌, [], ◌∷◌, false, true, All, IfOk, OnOk, IsErrOf, length, map};
ghost use Rattle.std.specs.Option.{ForSome, option_map};
ghost use Rattle.ncl_gates.specs.Gate.{arity_of};
ghost use Rattle.ncl_space.specs.Functions.{least};
ghost use Rattle.ncl_space.specs.Making.{MakesAll};
ghost use Rattle.ncl_space.specs.Space.{IsLive, Keeps, Makes, fits, with_tables};
ghost use Rattle.ncl_space.specs.Table.{table_of};
ghost use Rattle.ncl_stage.specs.BitOrder.{placed, words_by};
ghost use Rattle.ncl_stage.specs.StageTables.{AreValues, conjunction, front_tables, pair_table, shared_tables_by};
ghost use Rattle.ncl_stage.specs.Tables.{ValuesAt, all_data_function};
ghost use Rattle.ncl_faults.specs.Values.{val};

use crate::changes::net_refs_from;
use crate::input_order::BitOrder;
use crate::net_values::Values;
use crate::wiring::Wiring;
use ncl_base::Word;
use ncl_faults::Variant;
use ncl_gates::Kind;
use ncl_shape::Stage;
use ncl_space::{Ref, Space, SpaceFault};
use std::alloc::Global;

/// For each pair of places, the function that a gate of two inputs makes of those at the two places.
///
/// Linear in the pairs. `Full` comes exactly where the beads held with those of all these functions are
/// more than the limit. What is made before a refusal stays.
pub fn pair_refs<P: Space>(
    alloc: Global,
    space: &mut P,
    kind: Kind,
    pairs: &[(usize, usize)],
    refs: &[Ref],
) -> Result<Vec<Ref>, SpaceFault>
    requires kind { arity_of kind ≡ 2 }
    requires live { All (IsLive (P.meaning space.old)) refs.now }
    requires within { All (λ pair. (pair.0 < length refs.now) × (pair.1 < length refs.now)) pairs.now }
    ensures made { let s = P.meaning space.old in
        IfOk result (λ made. MakesAll s (P.meaning space.new) made.items (map (pair_table s.width kind (map s.table refs.now)) pairs.now)) }
    ensures kept { Keeps (P.meaning space.old) (P.meaning space.new) }
    ensures full { let s = P.meaning space.old in
        IsErrOf result SpaceFault.Full → fits s (map (pair_table s.width kind (map s.table refs.now)) pairs.now) ≡ false }
{
    space.facts();
    let mut made = Vec::with_capacity(alloc, pairs.len())?;
    for pair in pairs {
        let one = space.apply(kind, &[refs[pair.0], refs[pair.1]])?;
        made.push(one)?;
    }
    Ok(made)
}

/// For each output that it is DATA: that some rail of it is high.
///
/// Linear in the outputs, with the answers of `pair_refs`.
pub fn data_tables<P: Space>(
    alloc: Global,
    space: &mut P,
    wiring: &Wiring,
    refs: &[Ref],
) -> Result<Vec<Ref>, SpaceFault>
    requires live { All (IsLive (P.meaning space.old)) refs.now }
    requires within { All (λ pair. (pair.0 < length refs.now) × (pair.1 < length refs.now)) wiring.now.outputs }
    ensures made { let s = P.meaning space.old in
        IfOk result (λ made. MakesAll s (P.meaning space.new) made.items (map (pair_table s.width Kind.Th12 (map s.table refs.now)) wiring.now.outputs)) }
    ensures kept { Keeps (P.meaning space.old) (P.meaning space.new) }
    ensures full { let s = P.meaning space.old in
        IsErrOf result SpaceFault.Full → fits s (map (pair_table s.width Kind.Th12 (map s.table refs.now)) wiring.now.outputs) ≡ false }
{
    pair_refs(alloc, space, Kind::Th12, wiring.outputs(), refs)
}

/// The conjunctions of the first functions, for each number of them from 1 on. The first is the first
/// function itself.
///
/// Linear in the functions. `Full` comes exactly where the beads held with those of all conjunctions are
/// more than the limit. What is made before a refusal stays.
pub fn data_fronts<P: Space>(
    alloc: Global,
    space: &mut P,
    refs: &[Ref],
) -> Result<Vec<Ref>, SpaceFault>
    requires { All (IsLive (P.meaning space.old)) refs.now }
    ensures made { let s = P.meaning space.old in
        IfOk result (λ made. MakesAll s (P.meaning space.new) made.items (front_tables s.width (map s.table refs.now))) }
    ensures kept { Keeps (P.meaning space.old) (P.meaning space.new) }
    ensures full { let s = P.meaning space.old in
        IsErrOf result SpaceFault.Full → fits s (front_tables s.width (map s.table refs.now)) ≡ false }
{
    space.facts();
    let mut made = Vec::with_capacity(alloc, refs.len())?;
    let mut last: Option<Ref> = None;
    for next in refs {
        let front = conjoin(space, last, *next)?;
        made.push(front)?;
        last = Some(front);
    }
    Ok(made)
}

/// The conjunction of a function, if there is one, with another.
fn conjoin<P: Space>(space: &mut P, front: Option<Ref>, next: Ref) -> Result<Ref, SpaceFault>
    requires front { ForSome front (IsLive (P.meaning space.old)) }
    requires next { IsLive (P.meaning space.old) next }
    ensures made { let s = P.meaning space.old in
        IfOk result (λ r. Makes s (P.meaning space.new) r (conjunction s.width (option_map s.table front) (s.table next))) }
    ensures kept { Keeps (P.meaning space.old) (P.meaning space.new) }
    ensures full { let s = P.meaning space.old in
        IsErrOf result SpaceFault.Full → fits s (conjunction s.width (option_map s.table front) (s.table next) ∷ []) ≡ false }
{
    space.facts();
    match front {
        Some(front) => space.apply(Kind::Th22, &[front, next]),
        None => Ok(next),
    }
}

/// That all outputs of a stage are DATA under a variant, where `base` has the values of the stage under Base, in the
/// order of `base`. It makes the functions of all nets, of the DATA of each output and of their conjunctions.
///
/// Linear in the cells, their pins and the outputs, and it evaluates only the cells that a changed net reaches. `Full`
/// comes exactly where the beads held with those of all these functions are more than the limit. What is made before a
/// refusal stays.
pub fn all_data<P: Space>(
    alloc: Global,
    space: &mut P,
    stage: &Stage,
    base: &Values,
    variant: Variant,
) -> Result<Ref, SpaceFault>
    requires { AreValues (P.meaning space.old) stage.now Variant.Base base.now }
    ensures live { IfOk result (IsLive (P.meaning space.new)) }
    ensures table { let v : ValuesAt = λ word. val stage.now word variant in
        IfOk result (λ r. (P.meaning space.new).table r ≡ table_of (words_by base.now.wiring.order) (all_data_function stage.now v)) }
    ensures held { OnOk result ((P.meaning space.new).held ≡ with_tables (P.meaning space.old) (shared_tables_by base.now.wiring.order stage.now variant)) }
    ensures kept { Keeps (P.meaning space.old) (P.meaning space.new) }
    ensures full { IsErrOf result SpaceFault.Full → fits (P.meaning space.old) (shared_tables_by base.now.wiring.order stage.now variant) ≡ false }
{
    stage.facts();
    space.facts();
    let refs = net_refs_from(alloc, space, stage, base, variant)?;
    let data = data_tables(alloc, space, base.wiring(), refs.as_slice())?;
    let fronts = data_fronts(alloc, space, data.as_slice())?;
    Ok(*fronts.as_slice().last().unwrap())
}

/// The word at which a function is 1 that is the least in an order of the bits, if there is one. The function is over
/// the words whose bits are taken in that order. Takes no memory.
pub fn least_one<P: Space>(space: &P, order: &BitOrder, x: Ref) -> Option<Word>
    requires width { (P.meaning space.now).width ≡ length order.now }
    requires live { IsLive (P.meaning space.now) x }
    ensures { let s = P.meaning space.now in result ≡ option_map (placed order.now) (least true s.width (s.table x)) }
{
    let mut word = Word::new();
    if space.least_one(x, &mut word) {
        Some(order.placed(&word))
    } else {
        None
    }
}

/// The word at which a function is 0 that is the least in an order of the bits, if there is one. The function is over
/// the words whose bits are taken in that order. Takes no memory.
pub fn least_zero<P: Space>(space: &P, order: &BitOrder, x: Ref) -> Option<Word>
    requires width { (P.meaning space.now).width ≡ length order.now }
    requires live { IsLive (P.meaning space.now) x }
    ensures { let s = P.meaning space.now in result ≡ option_map (placed order.now) (least false s.width (s.table x)) }
{
    let mut word = Word::new();
    if space.least_zero(x, &mut word) {
        Some(order.placed(&word))
    } else {
        None
    }
}
