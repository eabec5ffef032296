//! What is asked of each output.
ghost use Rattle.std.specs.Prelude.{IfOk};
ghost use Rattle.ncl_match.specs.Answer.{IsBitAnswer};
ghost use Rattle.ncl_match.specs.Question.{CanBeAsked, QuestionData};

use crate::answer::BitAnswer;
use crate::comparing::CompareBit;
use crate::preparing::Sides;
use ncl_base::Memory;
use std::alloc::Global;

/// What answers the outputs of a question.
pub(crate) trait Ask {
    /// The question.
    ghost question: { Self → QuestionData };

    /// The answer to an output, from 1. An error is want of memory.
    fn ask(&self, alloc: Global, output: u32) -> Result<BitAnswer, Memory>
        requires { CanBeAsked (question self.now) output }
        ensures { let q = question self.now in IfOk result (IsBitAnswer q.circuit q.models q.limit output) };
}

/// The outputs of two sides, compared by `bits`.
#[derive(Drop)]
pub(crate) struct Question<'a, B> {
    pub(crate) bits: &'a B,
    pub(crate) sides: Sides<'a>,
    pub(crate) limit: u32,
}

impl<'a, B: CompareBit> Ask for Question<'a, B> {
    ghost use Rattle.ncl_match.specs.Circuit.{circuit_of};

    ghost question = { λ a. record { circuit = circuit_of a.sides.pipeline; models = a.sides.models; limit = a.limit } };

    fn ask(&self, alloc: Global, output: u32) -> Result<BitAnswer, Memory> {
        self.bits
            .compare_bit(alloc, &self.sides, self.limit, output)
    }
}
