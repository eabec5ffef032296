//! What variants of a stage are asked over.
ghost use Rattle.std.specs.Prelude.{◌≡◌};
ghost use Rattle.ncl_verdict.specs.InSpace.{IsAsked, IsReady};

use ncl_shape::Stage;
use ncl_space::{Mark, Space};
use ncl_stage::Values;
use std::marker::Model;

/// A stage with its functions of Base, which a space has since `start`. What the space made for variants since then may be there
/// too, and goes where it goes back to `start`.
#[derive(Drop)]
pub(crate) struct Asked<'a> {
    stage: &'a Stage,
    base: &'a Values,
    start: Mark,
}

impl<'a> Model for Asked<'a> {
    ghost use Rattle.ncl_verdict.specs.InSpace.{AskedData};

    ghost Value = { AskedData };

    ghost view = { λ a. record { stage = a.stage.now; base = a.base.now; start = a.start } };
}

impl<'a> Asked<'a> {
    /// A stage and its functions of Base, which the space has at this moment. Takes no memory.
    pub(crate) fn of<P: Space>(space: &P, stage: &'a Stage, base: &'a Values) -> Asked<'a>
        requires { IsReady (P.meaning space.now) stage.now base.now }
        ensures stage { result.stage ≡ stage.now }
        ensures asked { let now = P.meaning space.now in IsAsked now now.limit result }
    {
        let start = space.mark();
        Asked { stage, base, start }
    }

    /// The stage.
    pub(crate) fn stage(&self) -> &'a Stage
        ensures { result.now ≡ self.now.stage }
    {
        self.stage
    }

    /// Its functions of Base.
    pub(crate) fn base(&self) -> &'a Values
        ensures { result.now ≡ self.now.base }
    {
        self.base
    }

    /// Since when the space has them.
    pub(crate) fn start(&self) -> Mark
        ensures { result ≡ self.now.start }
    {
        self.start
    }
}
