//! Which signals an output depends on.
ghost use Rattle.std.specs.Prelude.{◌≡◌, ℕ, ◌+◌, ◌<◌, ◌^◌, ◌||◌, false, All, IfOk, length, replicate};
ghost use Rattle.ncl_match.specs.Needed.{AreNeeded, is_among};
ghost use Rattle.ncl_match.specs.Steps.{AreOrdered, bit_at};

use crate::steps::Step;
use ncl_base::Memory;
use std::alloc::Global;

/// Marks some signals. Linear in them.
fn mark(marks: &mut [bool], numbers: &[u32])
    requires { All (λ (x : ℕ). x < length marks.old) numbers.now }
    ensures { (number : ℕ) → bit_at marks.new number ≡ (bit_at marks.old number || is_among numbers.now number) }
{
    for number in numbers {
        marks[*number as usize] = true;
    }
}

/// Marks what a root depends on, where nothing is marked. Linear in the steps.
fn mark_needed(marks: &mut [bool], inputs: usize, steps: &[Step], root: u32)
    requires ordered { AreOrdered inputs steps.now }
    requires many { length marks.old ≡ inputs + length steps.now }
    requires fresh { marks.old ≡ replicate (inputs + length steps.now) false }
    requires root { root < inputs + length steps.now }
    ensures { AreNeeded inputs steps.now root marks.new 0 }
{
    mark(marks, &[root]);
    for place in (0..steps.len()).rev() {
        let step = &steps[place];
        if marks[inputs + place] {
            mark(marks, step.ins.items());
        }
    }
}

/// For each signal, whether a root depends on it or is it. Linear in the steps. The only error is want of memory.
pub(crate) fn needed_signals(
    alloc: Global,
    inputs: usize,
    steps: &[Step],
    root: u32,
) -> Result<Vec<bool>, Memory>
    requires ordered { AreOrdered inputs steps.now }
    requires few { inputs + length steps.now < 2 ^ 32 }
    requires root { root < inputs + length steps.now }
    ensures { IfOk result (λ marks. AreNeeded inputs steps.now root marks.items 0) }
{
    let mut marks = vec![in alloc; false; inputs + steps.len()]?;
    mark_needed(&mut marks, inputs, steps, root);
    Ok(marks)
}
