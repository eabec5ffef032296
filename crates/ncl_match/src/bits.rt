//! The comparison of one output by a decision diagram.

use crate::answer::BitAnswer;
use crate::bit::told;
use crate::comparing::CompareBit;
use crate::preparing::Sides;
use crate::sides::difference;
use ncl_base::Memory;
use ncl_diagram::Diagram;
use ncl_space::SpaceFault;
use std::alloc::Global;

/// What compares outputs by decision diagrams, each output by one of its own.
#[derive(Clone, Copy, Debug, Default, PartialEq, Eq)]
pub struct Bits;

impl CompareBit for Bits {
    fn compare_bit(
        &self,
        alloc: Global,
        sides: &Sides,
        limit: u32,
        bit: u32,
    ) -> Result<BitAnswer, Memory> {
        let pipeline = sides.pipeline.pipeline();
        pipeline.facts();
        let mut space = Diagram::new(alloc, pipeline.inputs().len(), limit);
        match difference(alloc, &mut space, sides, bit) {
            Ok(either) => Ok(told(&space, either)),
            Err(SpaceFault::Full) => Ok(BitAnswer::Full),
            Err(SpaceFault::Memory) => Err(Memory),
        }
    }
}
