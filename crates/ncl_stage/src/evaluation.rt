//! The values of a stage in a space.
ghost use Rattle.std.specs.Prelude.{◌≡◌, IfOk, IsErrOf, OnErr, OnOk, false, length, true, unwrap_or};
ghost use Rattle.std.specs.Option.{ForSome};
ghost use Rattle.ncl_space.specs.Space.{Keeps, Restores, fits, with_tables};
ghost use Rattle.ncl_stage.specs.BitOrder.{IsOrderOf, bit_order};
ghost use Rattle.ncl_stage.specs.StageTables.{AreValues, net_tables, net_tables_by};

use crate::changes::net_refs_from;
use crate::input_order::BitOrder;
use crate::net_values::Values;
use crate::nets::net_refs;
use crate::wiring::Wiring;
use ncl_faults::Variant;
use ncl_shape::Stage;
use ncl_space::{Space, SpaceFault};
use std::alloc::Global;

/// The functions of all nets of a stage under a variant, in the bit order of the stage. It goes over the cells once.
///
/// Position i of the space is the bit at place i of that order. `Full` comes exactly where the beads held with those of
/// all these functions are more than the limit. After a refusal the space is as it was.
pub fn values<P: Space>(
    alloc: Global,
    space: &mut P,
    stage: &Stage,
    variant: Variant,
) -> Result<Values, SpaceFault>
    requires { (P.meaning space.old).width ≡ length stage.now.inputs }
    ensures values { IfOk result (AreValues (P.meaning space.new) stage.now variant) }
    ensures order { IfOk result (λ values. values.wiring.order ≡ bit_order stage.now) }
    ensures held { OnOk result ((P.meaning space.new).held ≡ with_tables (P.meaning space.old) (net_tables stage.now variant)) }
    ensures kept { Keeps (P.meaning space.old) (P.meaning space.new) }
    ensures back { OnErr result (Restores (P.meaning space.old) (P.meaning space.new)) }
    ensures full { IsErrOf result SpaceFault.Full → fits (P.meaning space.old) (net_tables stage.now variant) ≡ false }
    ensures fits { OnOk result (fits (P.meaning space.old) (net_tables stage.now variant) ≡ true) }
{
    values_by(alloc, space, stage, None, variant)
}

/// The same in an order of the stage's bits that is given: the tables, and with them what `Full` counts and which words
/// are least, are those of that order. Costs as much.
pub fn values_in<P: Space>(
    alloc: Global,
    space: &mut P,
    stage: &Stage,
    order: BitOrder,
    variant: Variant,
) -> Result<Values, SpaceFault>
    requires width { (P.meaning space.old).width ≡ length stage.now.inputs }
    requires order { IsOrderOf (length stage.now.inputs) order }
    ensures values { IfOk result (AreValues (P.meaning space.new) stage.now variant) }
    ensures order { IfOk result (λ values. values.wiring.order ≡ order) }
    ensures held { OnOk result ((P.meaning space.new).held ≡ with_tables (P.meaning space.old) (net_tables_by order stage.now variant)) }
    ensures kept { Keeps (P.meaning space.old) (P.meaning space.new) }
    ensures back { OnErr result (Restores (P.meaning space.old) (P.meaning space.new)) }
    ensures full { IsErrOf result SpaceFault.Full → fits (P.meaning space.old) (net_tables_by order stage.now variant) ≡ false }
    ensures fits { OnOk result (fits (P.meaning space.old) (net_tables_by order stage.now variant) ≡ true) }
{
    values_by(alloc, space, stage, Some(order), variant)
}

/// The functions of all nets, in the order that is given, or else in the bit order of the stage.
fn values_by<P: Space>(
    alloc: Global,
    space: &mut P,
    stage: &Stage,
    order: Option<BitOrder>,
    variant: Variant,
) -> Result<Values, SpaceFault>
    requires width { (P.meaning space.old).width ≡ length stage.now.inputs }
    requires order { ForSome order (IsOrderOf (length stage.now.inputs)) }
    ensures values { IfOk result (AreValues (P.meaning space.new) stage.now variant) }
    ensures order { IfOk result (λ values. values.wiring.order ≡ unwrap_or order (bit_order stage.now)) }
    ensures held { OnOk result ((P.meaning space.new).held ≡ with_tables (P.meaning space.old) (net_tables_by (unwrap_or order (bit_order stage.now)) stage.now variant)) }
    ensures kept { Keeps (P.meaning space.old) (P.meaning space.new) }
    ensures back { OnErr result (Restores (P.meaning space.old) (P.meaning space.new)) }
    ensures full { IsErrOf result SpaceFault.Full → fits (P.meaning space.old) (net_tables_by (unwrap_or order (bit_order stage.now)) stage.now variant) ≡ false }
    ensures fits { OnOk result (fits (P.meaning space.old) (net_tables_by (unwrap_or order (bit_order stage.now)) stage.now variant) ≡ true) }
{
    let start = space.mark();
    match make_values(alloc, space, stage, order, variant) {
        Ok(values) => Ok(values),
        Err(fault) => {
            space.release(start);
            Err(fault)
        }
    }
}

/// The same, but what is made before a refusal stays.
fn make_values<P: Space>(
    alloc: Global,
    space: &mut P,
    stage: &Stage,
    order: Option<BitOrder>,
    variant: Variant,
) -> Result<Values, SpaceFault>
    requires width { (P.meaning space.old).width ≡ length stage.now.inputs }
    requires order { ForSome order (IsOrderOf (length stage.now.inputs)) }
    ensures values { IfOk result (AreValues (P.meaning space.new) stage.now variant) }
    ensures order { IfOk result (λ values. values.wiring.order ≡ unwrap_or order (bit_order stage.now)) }
    ensures held { OnOk result ((P.meaning space.new).held ≡ with_tables (P.meaning space.old) (net_tables_by (unwrap_or order (bit_order stage.now)) stage.now variant)) }
    ensures kept { Keeps (P.meaning space.old) (P.meaning space.new) }
    ensures full { IsErrOf result SpaceFault.Full → fits (P.meaning space.old) (net_tables_by (unwrap_or order (bit_order stage.now)) stage.now variant) ≡ false }
{
    space.facts();
    let wiring = Wiring::in_order(alloc, stage, order)?;
    let refs = net_refs(alloc, space, stage, &wiring, variant)?;
    let values = Values::new(alloc, wiring, refs)?;
    Ok(values)
}

/// The functions of all nets of a stage under a variant, from those under Base, which `base` has, in the order of
/// `base`. It goes over the cells once, and evaluates only those that a changed net reaches.
///
/// The places of the nets are shared with `base`. `Full` comes exactly where the beads held with those of
/// all these functions are more than the limit. After a refusal the space is as it was.
pub fn revalue<P: Space>(
    alloc: Global,
    space: &mut P,
    stage: &Stage,
    base: &Values,
    variant: Variant,
) -> Result<Values, SpaceFault>
    requires { AreValues (P.meaning space.old) stage.now Variant.Base base.now }
    ensures values { IfOk result (AreValues (P.meaning space.new) stage.now variant) }
    ensures order { IfOk result (λ values. values.wiring.order ≡ base.now.wiring.order) }
    ensures held { OnOk result ((P.meaning space.new).held ≡ with_tables (P.meaning space.old) (net_tables_by base.now.wiring.order stage.now variant)) }
    ensures kept { Keeps (P.meaning space.old) (P.meaning space.new) }
    ensures back { OnErr result (Restores (P.meaning space.old) (P.meaning space.new)) }
    ensures full { IsErrOf result SpaceFault.Full → fits (P.meaning space.old) (net_tables_by base.now.wiring.order stage.now variant) ≡ false }
    ensures fits { OnOk result (fits (P.meaning space.old) (net_tables_by base.now.wiring.order stage.now variant) ≡ true) }
{
    let start = space.mark();
    match make_values_from(alloc, space, stage, base, variant) {
        Ok(values) => Ok(values),
        Err(fault) => {
            space.release(start);
            Err(fault)
        }
    }
}

/// The same, but what is made before a refusal stays.
fn make_values_from<P: Space>(
    alloc: Global,
    space: &mut P,
    stage: &Stage,
    base: &Values,
    variant: Variant,
) -> Result<Values, SpaceFault>
    requires { AreValues (P.meaning space.old) stage.now Variant.Base base.now }
    ensures values { IfOk result (AreValues (P.meaning space.new) stage.now variant) }
    ensures order { IfOk result (λ values. values.wiring.order ≡ base.now.wiring.order) }
    ensures held { OnOk result ((P.meaning space.new).held ≡ with_tables (P.meaning space.old) (net_tables_by base.now.wiring.order stage.now variant)) }
    ensures kept { Keeps (P.meaning space.old) (P.meaning space.new) }
    ensures full { IsErrOf result SpaceFault.Full → fits (P.meaning space.old) (net_tables_by base.now.wiring.order stage.now variant) ≡ false }
{
    let refs = net_refs_from(alloc, space, stage, base, variant)?;
    let values = base.with_refs(refs)?;
    Ok(values)
}
