//! The rails of the outputs.
ghost use Rattle.std.specs.Prelude.{◌≡◌, All, IfOk, IsErrOf, OnErr, OnOk, false, length, true};
ghost use Rattle.ncl_complete.specs.RailFaults.{first_rail_fault_by};
ghost use Rattle.ncl_space.specs.Making.{HaveTables, IsNamed};
ghost use Rattle.ncl_space.specs.Space.{Keeps, Restores, fits, with_tables};
ghost use Rattle.ncl_stage.specs.BitOrder.{IsOrderOf};
ghost use Rattle.ncl_stage.specs.StageTables.{AreValues};
ghost use Rattle.ncl_stage.specs.Tables.{ValuesAt, data_functions, function_tables_by, illegal_functions, tables_by};
ghost use Rattle.ncl_faults.specs.Values.{val};

use crate::rail_fault::RailFault;
use ncl_gates::Kind;
use ncl_shape::Stage;
use ncl_space::{Ref, Space, SpaceFault};
use ncl_stage::{
    BitOrder, Values, Variant, data_fronts, data_tables, least_one, least_zero, pair_refs,
};
use std::alloc::Global;

/// For each output that some rail of it is high, and that both are.
#[derive(Drop)]
struct OutputRefs {
    some: Vec<Ref>,
    both: Vec<Ref>,
}

/// The first output at which both rails, or no rail, are high at some word, with the least such word in the order of
/// `base`: the outputs in their order, and for each first that both rails are high. `base` has the values of the stage
/// under Base, and the word has the bits of the bank in their order.
///
/// Linear in the outputs. It makes the functions of the DATA of each output, of their conjunctions, and
/// of both rails of each output, before it looks for a word. `Full` comes exactly where the beads held
/// with those of all these functions are more than the limit. What is made stays live where it answers,
/// and after a refusal the space is as it was.
pub fn valid_rails<P: Space>(
    alloc: Global,
    space: &mut P,
    stage: &Stage,
    base: &Values,
) -> Result<Option<RailFault>, SpaceFault>
    requires { AreValues (P.meaning space.old) stage.now Variant.Base base.now }
    ensures found { IfOk result (λ found. found ≡ first_rail_fault_by base.now.wiring.order stage.now) }
    ensures live { OnOk result (All (IsNamed (P.meaning space.new)) (tables_by base.now.wiring.order stage.now Variant.Base)) }
    ensures held { OnOk result ((P.meaning space.new).held ≡ with_tables (P.meaning space.old) (tables_by base.now.wiring.order stage.now Variant.Base)) }
    ensures kept { Keeps (P.meaning space.old) (P.meaning space.new) }
    ensures back { OnErr result (Restores (P.meaning space.old) (P.meaning space.new)) }
    ensures full { IsErrOf result SpaceFault.Full → fits (P.meaning space.old) (tables_by base.now.wiring.order stage.now Variant.Base) ≡ false }
    ensures fits { OnOk result (fits (P.meaning space.old) (tables_by base.now.wiring.order stage.now Variant.Base) ≡ true) }
{
    stage.facts();
    let start = space.mark();
    match output_refs(alloc, space, stage, base) {
        Ok(refs) => Ok(first_fault(space, stage, base.order(), &refs)),
        Err(fault) => {
            space.release(start);
            Err(fault)
        }
    }
}

/// All functions that are asked of the outputs under Base. What is made before a refusal stays.
fn output_refs<P: Space>(
    alloc: Global,
    space: &mut P,
    stage: &Stage,
    base: &Values,
) -> Result<OutputRefs, SpaceFault>
    requires { AreValues (P.meaning space.old) stage.now Variant.Base base.now }
    ensures some { let v : ValuesAt = λ word. val stage.now word Variant.Base in
        IfOk result (λ refs. HaveTables (P.meaning space.new) refs.some.items (function_tables_by base.now.wiring.order (data_functions stage.now v))) }
    ensures both { let v : ValuesAt = λ word. val stage.now word Variant.Base in
        IfOk result (λ refs. HaveTables (P.meaning space.new) refs.both.items (function_tables_by base.now.wiring.order (illegal_functions stage.now v))) }
    ensures live { OnOk result (All (IsNamed (P.meaning space.new)) (tables_by base.now.wiring.order stage.now Variant.Base)) }
    ensures held { OnOk result ((P.meaning space.new).held ≡ with_tables (P.meaning space.old) (tables_by base.now.wiring.order stage.now Variant.Base)) }
    ensures kept { Keeps (P.meaning space.old) (P.meaning space.new) }
    ensures full { IsErrOf result SpaceFault.Full → fits (P.meaning space.old) (tables_by base.now.wiring.order stage.now Variant.Base) ≡ false }
{
    stage.facts();
    space.facts();
    let some = data_tables(alloc, space, base.wiring(), base.refs())?;
    let _ = data_fronts(alloc, space, some.as_slice())?;
    let both = pair_refs(
        alloc,
        space,
        Kind::Th22,
        base.wiring().outputs(),
        base.refs(),
    )?;
    Ok(OutputRefs { some, both })
}

/// The first fault of an output, of those that are made. Linear in the outputs.
fn first_fault<P: Space>(
    space: &P,
    stage: &Stage,
    order: &BitOrder,
    refs: &OutputRefs,
) -> Option<RailFault>
    requires width { (P.meaning space.now).width ≡ length stage.now.inputs }
    requires order { IsOrderOf (length stage.now.inputs) order.now }
    requires some { let v : ValuesAt = λ word. val stage.now word Variant.Base in
        HaveTables (P.meaning space.now) refs.now.some.items (function_tables_by order.now (data_functions stage.now v)) }
    requires both { let v : ValuesAt = λ word. val stage.now word Variant.Base in
        HaveTables (P.meaning space.now) refs.now.both.items (function_tables_by order.now (illegal_functions stage.now v)) }
    ensures { result ≡ first_rail_fault_by order.now stage.now }
{
    for output in 0..stage.outputs.items().len() {
        if let Some(word) = least_one(space, order, refs.both[output]) {
            return Some(RailFault::BothRails(output, word));
        }
        if let Some(word) = least_zero(space, order, refs.some[output]) {
            return Some(RailFault::NoRail(output, word));
        }
    }
    None
}
