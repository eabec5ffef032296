//! The functions of the nets of a plan in a space.
ghost use Rattle.std.specs.Prelude.{◌≡◌, ℕ, ◌<◌, ◌≤◌, false, List, Bool, All, IfOk, OnOk, IsErrOf, length, map};
ghost use Rattle.ncl_netlist.specs.declared.ids.NetId.{NetId};
ghost use Rattle.ncl_shape.specs.Nets.{Nets};
ghost use Rattle.ncl_space.specs.Space.{Keeps, fits};
ghost use Rattle.ncl_match.specs.Pairs.{IsPair, MakesPair, both_tables, function_at};
ghost use Rattle.ncl_match.specs.Plan.{FitPins, IsOrdered, made_of, pair_at, pins_of, plan_tables};
ghost use Rattle.ncl_match.specs.PlanCase.{AreDone, IsCase};
ghost use Rattle.ncl_match.specs.Turns.{gathered};

use crate::pair::{Pair, gate_pair};
use crate::planning::DataCell;
use arrayvec::ArrayVec;
use ncl_netlist::NetId;
use ncl_space::{Space, SpaceFault};

/// The pairs of some nets. Linear in them.
fn pins(pairs: &[Pair], nets: &[NetId]) -> ArrayVec<Pair, 4>
    requires few { length nets.now ≤ 4 }
    requires within { All (λ (x : NetId). x.0 < length pairs.now) nets.now }
    ensures { result.items ≡ map (λ (x : NetId). pair_at pairs.now x.0) nets.now }
{
    let mut found: ArrayVec<Pair, 4> = ArrayVec::new();
    for net in nets {
        found.push(pairs[net.0 as usize]);
    }
    found
}

/// The pair of the output of a cell, from those of the nets that it reads: by its gate, or the pair itself where it is
/// a register cell.
///
/// `Full` comes exactly where the beads held with those of both its functions are more than the limit. What is made before
/// a refusal stays.
pub(crate) fn cell_pair<P: Space>(
    space: &mut P,
    cell: &DataCell,
    pairs: &[Pair],
) -> Result<Pair, SpaceFault>
    requires pairs { All (IsPair (P.meaning space.old)) pairs.now }
    requires within { All (λ (x : NetId). x.0 < length pairs.now) cell.now.ins.items }
    requires pins { length cell.now.ins.items ≡ pins_of cell.now.kind }
    ensures made { let s = P.meaning space.old in
        let f = λ (word : List Bool). made_of cell.now.kind (map (λ (x : NetId). function_at s (pair_at pairs.now x.0) word) cell.now.ins.items) in
        IfOk result (λ p. MakesPair s (P.meaning space.new) p f (both_tables s.width f)) }
    ensures kept { Keeps (P.meaning space.old) (P.meaning space.new) }
    ensures full { let s = P.meaning space.old in
        let f = λ (word : List Bool). made_of cell.now.kind (map (λ (x : NetId). function_at s (pair_at pairs.now x.0) word) cell.now.ins.items) in
        IsErrOf result SpaceFault.Full → fits s (both_tables s.width f) ≡ false }
{
    space.facts();
    let ins = pins(pairs, cell.ins.as_slice());
    match cell.kind {
        Some(kind) => gate_pair(space, kind, ins.as_slice()),
        None => Ok(ins.as_slice()[0]),
    }
}

/// Makes the functions of the marked nets that the cells of a plan drive, where the pairs of the marked inputs are there.
///
/// Linear in the plan, with one function and its complement for each marked gate. `Full` comes exactly where the beads
/// held with those of all these functions and complements are more than the limit. What is made before a refusal stays.
pub(crate) fn plan_pairs<P: Space>(
    space: &mut P,
    plan: &[DataCell],
    marks: &[bool],
    pairs: &mut [Pair],
) -> Result<(), SpaceFault>
    requires ordered { IsOrdered plan.now (length pairs.old) }
    requires pins { FitPins plan.now }
    requires marks { length marks.now ≡ length pairs.old }
    requires pairs { All (IsPair (P.meaning space.old)) pairs.old }
    ensures done { let s = P.meaning space.old in (inputs : List ℕ) (v : List Bool → Nets) → IsCase s plan.now marks.now pairs.old inputs v
        → OnOk result (AreDone s (P.meaning space.new) plan.now marks.now pairs.new inputs v (length plan.now)) }
    ensures pairs { OnOk result (All (IsPair (P.meaning space.new)) pairs.new) }
    ensures kept { Keeps (P.meaning space.old) (P.meaning space.new) }
    ensures full { let s = P.meaning space.old in (inputs : List ℕ) (v : List Bool → Nets) → IsCase s plan.now marks.now pairs.old inputs v
        → IsErrOf result SpaceFault.Full → fits s (gathered (plan_tables s.width v marks.now plan.now) (length plan.now)) ≡ false }
{
    space.facts();
    for cell in plan {
        if marks[cell.out.0 as usize] {
            let made = cell_pair(space, cell, pairs)?;
            pairs[cell.out.0 as usize] = made;
        }
    }
    Ok(())
}
