//! By how many gates a variant is revalued, and that places are looked up.
ghost use Rattle.std.specs.Prelude.{◌≡◌, ◌≤◌, IfOk, length};
ghost use Rattle.std.specs.List.{range_with_len};

use super::testing::{Counting, full_adder};
use indexmap::IndexSet;
use ncl_base::Memory;
use ncl_netlist::NetId;
use ncl_shape::Stage;
use ncl_space::SpaceFault;
use ncl_stage::{Variant, place_of, revalue, values};
use std::alloc::Global;
use std::test::*;

/// By how many gates a variant of a stage is revalued.
fn gates_for(alloc: Global, stage: &Stage, variant: Variant) -> Result<usize, SpaceFault>
    requires { length stage.now.inputs ≤ 10 }
{
    let mut space = Counting::new(alloc, stage.inputs.items().len());
    let base = values(alloc, &mut space, stage, Variant::Base)?;
    let before = space.applied();
    revalue(alloc, &mut space, stage, &base, variant)?;
    Ok(space.applied().saturating_sub(before))
}

/// All four gates of the adder read each bit, and each carry is read by one sum.
#[test]
fn variants_of_a_full_adder(rt: HostRuntime) -> Result<(), Fail> {
    let stage = full_adder(rt.alloc())?;
    let most = [
        (Variant::Base, 0),
        (Variant::Bit(0), 4),
        (Variant::Bit(2), 4),
        (Variant::Cell(0), 1),
        (Variant::Cell(1), 1),
        (Variant::Cell(2), 0),
        (Variant::Cell(3), 0),
    ];
    for (variant, most) in most {
        let gates = gates_for(rt.alloc(), &stage, variant)?;
        assert!(rt; gates <= most);
    }
    Ok(())
}

/// So many nets, each at the place of its number.
fn numbered(alloc: Global, count: u32) -> Result<IndexSet<u32>, Memory>
    ensures { IfOk result (λ nets. nets.keys ≡ range_with_len 0 count) }
{
    let mut nets: IndexSet<u32> = IndexSet::new(alloc);
    for net in 0..count {
        nets.insert(net)?;
    }
    Ok(nets)
}

/// By a pass over the nets these look-ups would take minutes.
#[test]
fn places_of_a_million_nets(rt: HostRuntime) -> Result<(), Fail> {
    let nets = numbered(rt.alloc(), 1_000_000)?;
    let mut sum: usize = 0;
    for net in 0..1_000_000 {
        sum = sum.wrapping_add(place_of(&nets, NetId(net)));
    }
    assert_eq!(rt; sum, 499_999_500_000);
    Ok(())
}
