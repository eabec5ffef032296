//! By how many gates input-completeness and observability are judged, each by its variant and all nets together.
ghost use Rattle.std.specs.Prelude.{◌≤◌, length};

use super::testing::{Counting, full_adder};
use ncl_complete::input_complete;
use ncl_orphan::orphan;
use ncl_shape::Stage;
use ncl_space::SpaceFault;
use ncl_stage::{Variant, all_observed, values};
use std::alloc::Global;
use std::test::Fail;

/// By how many gates a bit or a cell of a stage is judged, which has no fault.
fn gates_for(alloc: Global, stage: &Stage, variant: Variant) -> Result<Option<usize>, SpaceFault>
    requires { length stage.now.inputs ≤ 10 }
{
    let mut space = Counting::new(alloc, stage.inputs.items().len());
    let base = values(alloc, &mut space, stage, Variant::Base)?;
    let before = space.applied();
    let found = match variant {
        Variant::Base => return Ok(None),
        Variant::Bit(bit) => {
            if bit >= stage.inputs.items().len() {
                return Ok(None);
            }
            input_complete(alloc, &mut space, stage, &base, bit)?
        }
        Variant::Cell(cell) => {
            if cell >= stage.cells.items().len() {
                return Ok(None);
            }
            orphan(alloc, &mut space, stage, &base, cell)?
        }
    };
    match found {
        Some(_) => Ok(None),
        None => Ok(Some(space.applied().saturating_sub(before))),
    }
}

/// All four gates of the adder read each bit. Then come a DATA table for each output, and the conjunction.
#[test]
fn bits_by_few_gates(rt: HostRuntime) -> Result<(), Fail> {
    let adder = full_adder(rt.alloc())?;
    for bit in 0..3 {
        let gates = gates_for(rt.alloc(), &adder, Variant::Bit(bit))?;
        assert!(rt; gates.is_some_and(|count| count <= 4 + 3));
    }
    Ok(())
}

/// Each carry of the adder is read by one sum, and no other gate is read. Then come a DATA table for each
/// output, the conjunction, and the conjunction with the cell.
#[test]
fn cells_by_few_gates(rt: HostRuntime) -> Result<(), Fail> {
    let adder = full_adder(rt.alloc())?;
    for (cell, most) in [(0, 1 + 4), (1, 1 + 4), (2, 4), (3, 4)] {
        let gates = gates_for(rt.alloc(), &adder, Variant::Cell(cell))?;
        assert!(rt; gates.is_some_and(|count| count <= most));
    }
    Ok(())
}

/// By how many gates a stage is seen to be observed, if it is.
fn gates_to_observe(alloc: Global, stage: &Stage) -> Result<Option<usize>, SpaceFault>
    requires { length stage.now.inputs ≤ 10 }
{
    let mut space = Counting::new(alloc, stage.inputs.items().len());
    let base = values(alloc, &mut space, stage, Variant::Base)?;
    let before = space.applied();
    if !all_observed(alloc, &mut space, stage, &base)? {
        return Ok(None);
    }
    Ok(Some(space.applied().saturating_sub(before)))
}

/// One gate for each of four cells, and two for each of the twelve pins that read a net which no output shows.
#[test]
fn an_adder_observed_by_few_gates(rt: HostRuntime) -> Result<(), Fail> {
    let adder = full_adder(rt.alloc())?;
    let gates = gates_to_observe(rt.alloc(), &adder)?;
    assert!(rt; gates.is_some_and(|count| count <= 4 + 2 * 12));
    Ok(())
}
