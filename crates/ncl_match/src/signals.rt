//! The functions of the signals of models in a space.
ghost use Rattle.std.specs.Prelude.{◌≡◌, ℕ, ◌<◌, ◌≤◌, [], true, false, if◌then◌else◌, All, IfOk, OnOk, IsErrOf, length, map};
ghost use Rattle.ncl_blif.specs.Meaning.{width_of};
ghost use Rattle.ncl_space.specs.Space.{Keeps, fits, with_tables};
ghost use Rattle.ncl_match.specs.Answer.{outputs_of};
ghost use Rattle.ncl_match.specs.Circuit.{Circuit};
ghost use Rattle.ncl_match.specs.Covers.{cover_function, cover_tables};
ghost use Rattle.ncl_match.specs.Gathering.{Gathers, Overflows};
ghost use Rattle.ncl_match.specs.Inputs.{bit_function};
ghost use Rattle.ncl_match.specs.Listed.{IsListed};
ghost use Rattle.ncl_match.specs.Needed.{AreNeeded};
ghost use Rattle.ncl_match.specs.Pairs.{HasFunction, IsPair, both_tables, functions_at};
ghost use Rattle.ncl_match.specs.Plan.{pair_at};
ghost use Rattle.ncl_match.specs.Sides.{HasSignal, HoldsSignals};
ghost use Rattle.ncl_match.specs.Signals.{HaveBits, HaveSignals, HaveSteps, first_tables, step_tables};
ghost use Rattle.ncl_match.specs.Steps.{AreOrdered};
ghost use Rattle.ncl_match.specs.Turns.{gathered};

use crate::cover::cover_pair;
use crate::needed::needed_signals;
use crate::pair::{Pair, constant_pair, rail_pair};
use crate::steps::{OrderedModels, Step};
use crate::widths::first_width;
use ncl_base::Memory;
use ncl_space::{Space, SpaceFault};
use std::alloc::Global;

/// The pairs of some signals. Linear in them.
fn pairs_of(alloc: Global, pairs: &[Pair], numbers: &[u32]) -> Result<Vec<Pair>, Memory>
    requires { All (λ (x : ℕ). x < length pairs.now) numbers.now }
    ensures { IfOk result (λ found. found.items ≡ map (pair_at pairs.now) numbers.now) }
{
    let mut found = Vec::new(alloc);
    for number in numbers {
        found.push(pairs[*number as usize])?;
    }
    Ok(found)
}

/// The pair of the signal of a step from those of the signals that it reads, or that of the constant 0 where it isn't marked.
fn step_pair<P: Space>(
    alloc: Global,
    space: &mut P,
    step: &Step,
    pairs: &[Pair],
    is_marked: bool,
) -> Result<Pair, SpaceFault>
    requires pairs { All (IsPair (P.meaning space.old)) pairs.now }
    requires within { All (λ (x : ℕ). x < length pairs.now) step.now.ins }
    requires widths { All (λ row. length row ≡ length step.now.ins) step.now.cover.now.rows }
    ensures pair { IfOk result (IsPair (P.meaning space.new)) }
    ensures has { let fs = functions_at (P.meaning space.old) (map (pair_at pairs.now) step.now.ins) in
        IfOk result (λ p. is_marked ≡ true → HasFunction (P.meaning space.new) p (cover_function fs step.now.cover.now.on step.now.cover.now.rows)) }
    ensures held { let s = P.meaning space.old in let fs = functions_at s (map (pair_at pairs.now) step.now.ins) in
        OnOk result ((P.meaning space.new).held ≡ with_tables s (if is_marked then cover_tables s.width fs step.now.cover.now.rows else [])) }
    ensures kept { Keeps (P.meaning space.old) (P.meaning space.new) }
    ensures full { let s = P.meaning space.old in let fs = functions_at s (map (pair_at pairs.now) step.now.ins) in
        IsErrOf result SpaceFault.Full → fits s (if is_marked then cover_tables s.width fs step.now.cover.now.rows else []) ≡ false }
{
    space.facts();
    if !is_marked {
        return Ok(constant_pair(space, false));
    }
    let ins = pairs_of(alloc, pairs, step.ins.items())?;
    cover_pair(space, &ins, step.cover)
}

/// The pair of an input, or that of the constant 0 where it isn't marked.
fn bit_pair<P: Space>(space: &mut P, bit: usize, is_marked: bool) -> Result<Pair, SpaceFault>
    requires { bit < (P.meaning space.old).width }
    ensures pair { IfOk result (IsPair (P.meaning space.new)) }
    ensures has { IfOk result (λ p. is_marked ≡ true → HasFunction (P.meaning space.new) p (bit_function bit)) }
    ensures held { let s = P.meaning space.old in OnOk result ((P.meaning space.new).held ≡ with_tables s (if is_marked then both_tables s.width (bit_function bit) else [])) }
    ensures kept { Keeps (P.meaning space.old) (P.meaning space.new) }
    ensures full { let s = P.meaning space.old in IsErrOf result SpaceFault.Full → fits s (if is_marked then both_tables s.width (bit_function bit) else []) ≡ false }
{
    space.facts();
    if !is_marked {
        return Ok(constant_pair(space, false));
    }
    rail_pair(space, bit)
}

/// Makes the functions of the inputs that are marked. The constant 0 stands in place of the others.
///
/// Linear in the inputs. `Full` comes exactly where the beads held with those of all these functions and their
/// complements are more than the limit. What is made before a refusal stays.
fn bit_pairs<P: Space>(
    alloc: Global,
    space: &mut P,
    inputs: usize,
    marks: &[bool],
) -> Result<Vec<Pair>, SpaceFault>
    requires width { (P.meaning space.old).width ≡ inputs }
    requires marks { inputs ≤ length marks.now }
    ensures have { IfOk result (λ pairs. HaveBits (P.meaning space.old) (P.meaning space.new) marks.now pairs.items inputs) }
    ensures kept { Keeps (P.meaning space.old) (P.meaning space.new) }
    ensures full { let s = P.meaning space.old in IsErrOf result SpaceFault.Full → fits s (gathered (first_tables s.width marks.now) inputs) ≡ false }
{
    space.facts();
    let mut pairs = Vec::new(alloc);
    for bit in 0..inputs {
        let pair = bit_pair(space, bit, marks[bit])?;
        pairs.push(pair)?;
    }
    Ok(pairs)
}

/// Makes the functions of the signals that are marked, where those of the inputs are there. The constant 0 stands in place
/// of the others.
///
/// Linear in the steps. `Full` comes exactly where the beads held with those of the rows of all covers whose signals are
/// marked are more than the limit. What is made before a refusal stays.
fn step_pairs<P: Space>(
    alloc: Global,
    space: &mut P,
    steps: &[Step],
    marks: &[bool],
    pairs: &mut Vec<Pair>,
) -> Result<(), SpaceFault>
    requires ordered { AreOrdered (P.meaning space.old).width steps.now }
    requires many { length pairs.old.items ≡ (P.meaning space.old).width }
    requires pairs { All (IsPair (P.meaning space.old)) pairs.old.items }
    requires marks { (root : ℕ) × AreNeeded (P.meaning space.old).width steps.now root marks.now 0 }
    requires have { HaveSignals (P.meaning space.old) steps.now marks.now pairs.old.items (P.meaning space.old).width }
    ensures have { OnOk result (HaveSteps (P.meaning space.old) (P.meaning space.new) steps.now marks.now pairs.new.items (length steps.now)) }
    ensures kept { Keeps (P.meaning space.old) (P.meaning space.new) }
    ensures full { let s = P.meaning space.old in IsErrOf result SpaceFault.Full → fits s (gathered (step_tables s.width steps.now marks.now) (length steps.now)) ≡ false }
{
    space.facts();
    for step in steps {
        let before = pairs.as_slice();
        let is_marked = marks[before.len()];
        let pair = step_pair(alloc, space, step, before, is_marked)?;
        pairs.push(pair)?;
    }
    Ok(())
}

/// The function of an output of the last model, from 0, over the words of the inputs of the first. It makes the functions
/// of the signals that the output depends on, with those of the rows of their covers, and their complements.
///
/// Linear in the models, with one function and its complement for each literal of these rows. `Full` comes exactly
/// where the beads held with those of all these are more than the limit. What is made before a refusal stays.
pub fn models_pair<P: Space>(
    alloc: Global,
    space: &mut P,
    ordered: &OrderedModels,
    output: usize,
) -> Result<Pair, SpaceFault>
    requires width { (P.meaning space.old).width ≡ width_of ordered.now }
    requires output { output < outputs_of ordered.now }
    ensures signal { (c : Circuit) → length c.inputs ≡ width_of ordered.now → IfOk result (λ p. HasSignal (P.meaning space.new) p c ordered.now output) }
    ensures signals { (c : Circuit) → length c.inputs ≡ width_of ordered.now → OnOk result (HoldsSignals (P.meaning space.new) c ordered.now output) }
    ensures gathers { (c : Circuit) → length c.inputs ≡ width_of ordered.now → OnOk result (Gathers (IsListed c ordered.now output) (P.meaning space.old) (P.meaning space.new)) }
    ensures kept { Keeps (P.meaning space.old) (P.meaning space.new) }
    ensures full { (c : Circuit) → length c.inputs ≡ width_of ordered.now → IsErrOf result SpaceFault.Full → Overflows (IsListed c ordered.now output) (P.meaning space.old) }
{
    space.facts();
    let inputs = first_width(ordered.models());
    let outputs = ordered.outputs.as_slice();
    let root = outputs[output];
    let marks = needed_signals(alloc, inputs, &ordered.steps, root)?;
    let mut pairs = bit_pairs(alloc, space, inputs, &marks)?;
    step_pairs(alloc, space, &ordered.steps, &marks, &mut pairs)?;
    let made = pairs.as_slice();
    Ok(made[root as usize])
}
