//! Which nets of a plan count.
ghost use Rattle.std.specs.Prelude.{◌≡◌, ℕ, ◌<◌, ◌||◌, false, All, IfOk, length, replicate};
ghost use Rattle.ncl_netlist.specs.declared.ids.NetId.{NetId};
ghost use Rattle.ncl_match.specs.Plan.{AreMarks, IsOrdered, is_marked, is_on};

use crate::planning::DataCell;
use ncl_base::Memory;
use ncl_netlist::NetId;
use std::alloc::Global;

/// Marks some nets. Linear in them.
fn mark(marks: &mut [bool], nets: &[NetId])
    requires { All (λ (x : NetId). x.0 < length marks.old) nets.now }
    ensures { (net : ℕ) → is_marked marks.new net ≡ (is_marked marks.old net || is_on nets.now net) }
{
    for net in nets {
        marks[net.0 as usize] = true;
    }
}

/// Marks what a root is reached from, where it alone is marked. Linear in the plan.
fn mark_reaching(marks: &mut [bool], plan: &[DataCell], root: NetId)
    requires ordered { IsOrdered plan.now (length marks.old) }
    requires fresh { marks.old ≡ replicate (length marks.old) false }
    requires root { root.0 < length marks.old }
    ensures { AreMarks plan.now (length marks.old) root.0 marks.new 0 }
{
    mark(marks, &[root]);
    for place in (0..plan.len()).rev() {
        let cell = &plan[place];
        if marks[cell.out.0 as usize] {
            mark(marks, cell.ins.as_slice());
        }
    }
}

/// For each net, whether a root is reached from it through the cells of a plan. Linear in the plan and the nets.
/// The only error is want of memory.
pub(crate) fn marked_nets(
    alloc: Global,
    plan: &[DataCell],
    nets: usize,
    root: NetId,
) -> Result<Vec<bool>, Memory>
    requires ordered { IsOrdered plan.now nets }
    requires root { root.0 < nets }
    ensures { IfOk result (λ marks. AreMarks plan.now nets root.0 marks.items 0) }
{
    let mut marks = vec![in alloc; false; nets]?;
    mark_reaching(&mut marks, plan, root);
    Ok(marks)
}
