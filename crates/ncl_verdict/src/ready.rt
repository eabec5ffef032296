//! Stages that are ready for what is asked after Base.
ghost use Rattle.std.specs.Prelude.{◌≡◌, ◌≤◌, IfOk, MatchResult, None, Some};
ghost use Rattle.ncl_verdict.specs.Judgement.{at_variant, of_stage, stopped_at};

use crate::in_space::{after_base, under_base};
use crate::verdict::Verdict;
use ncl_base::Memory;
use ncl_diagram::Diagram;
use ncl_shape::Stage;
use ncl_stage::{Values, Variant};
use std::alloc::Global;
use std::marker::Model;

/// A stage that may have at most `limit` nodes and of which nothing is said under Base, with its functions of Base in a space of
/// its own. It alone knows which space is taken.
#[derive(Drop)]
pub(crate) struct Ready<'a> {
    pub(crate) stage: &'a Stage,
    pub(crate) limit: u32,
    pub(crate) space: Diagram,
    pub(crate) base: Values,
}

impl<'a> Model for Ready<'a> {
    ghost use Rattle.ncl_diagram.specs.Diagram.{diagram_space};
    ghost use Rattle.ncl_verdict.specs.InSpace.{IsBegun, ReadyData};

    ghost Value = { ReadyData };

    ghost view = { λ a. record { stage = a.stage.now; limit = a.limit } };

    ghost invariant = { λ a. IsBegun a.limit a.stage.now (diagram_space a.space) a.base };
}

impl<'a> Ready<'a> {
    /// A stage under a limit, where nothing is said of it under Base; else what is said. An error is want of memory. It goes over
    /// the cells once.
    pub(crate) fn of(
        alloc: Global,
        stage: &'a Stage,
        limit: u32,
    ) -> Result<Result<Ready<'a>, Verdict>, Memory>
        requires { 1 ≤ limit }
        ensures { IfOk result (λ answer. MatchResult answer
            (λ ready. (ready.stage ≡ stage.now) × (ready.limit ≡ limit))
            (λ verdict. at_variant (stopped_at limit) stage.now Variant.Base ≡ Some verdict)) }
    {
        stage.facts();
        let mut space = Diagram::new(alloc, stage.inputs.items().len(), limit);
        match under_base(alloc, &mut space, stage)? {
            Ok(base) => Ok(Ok(Ready {
                stage,
                limit,
                space,
                base,
            })),
            Err(verdict) => Ok(Err(verdict)),
        }
    }

    /// That nothing is said under Base. Costs nothing.
    pub(crate) fn facts(&self)
        ensures { at_variant (stopped_at self.now.limit) self.now.stage Variant.Base ≡ None }
    {
        let _ = &self.base;
    }

    /// The first that is said of the stage, of which a variant for each input bit and each cell is asked. An error is want of
    /// memory.
    pub(crate) fn said(self, alloc: Global) -> Result<Option<Verdict>, Memory>
        ensures { IfOk result (λ answer. answer ≡ of_stage (stopped_at self.entry.limit) self.entry.stage) }
    {
        let Ready {
            stage,
            mut space,
            base,
            ..
        } = self;
        after_base(alloc, &mut space, stage, &base)
    }
}
