//! Stages with tables over the nets.
ghost use Rattle.std.specs.Prelude.{◌≡◌, ℕ, MatchOption, Some, slice_get};
ghost use Rattle.ncl_merge.specs.Folding.{IsTabledStage};

use crate::folding::cells_of;
use ncl_netlist::NetId;
use ncl_shape::{Stage, StageCell};
use std::marker::Model;

/// A stage, and tables over the nets: on how many pins each is, and where in the stage its cell stands.
#[derive(Drop)]
pub(crate) struct TabledStage<'a> {
    pub(crate) stage: &'a Stage,
    pub(crate) pins: &'a [u32],
    pub(crate) places: &'a [usize],
}

impl<'a> Model for TabledStage<'a> {
    ghost use Rattle.ncl_merge.specs.Folding.{IsTabledStage, TabledStageData};

    ghost Value = { TabledStageData };

    ghost view = { λ a. record { stage = a.stage.now; pins = a.pins.now; places = a.places.now } };

    ghost invariant = { λ a. IsTabledStage (record { stage = a.stage.now; pins = a.pins.now; places = a.places.now }) };
}

impl<'a> TabledStage<'a> {
    /// The facts that hold of each. Costs nothing.
    pub(crate) fn facts(&self)
        ensures { IsTabledStage self.now }
    {
        let _ = &self.pins;
    }

    /// The cells of the stage.
    pub(crate) fn cells(&self) -> &'a [StageCell]
        ensures { result.now ≡ self.now.stage.cells }
    {
        cells_of(self.stage)
    }

    /// The place of the cell that drives a net, where the net is on one pin.
    pub(crate) fn place_of(&self, net: NetId) -> Option<usize>
        ensures { MatchOption result ((place : ℕ) → slice_get self.now.pins net.0 ≡ Some 1 → slice_get self.now.places net.0 ≡ Some place → ⊥) (λ place. (slice_get self.now.pins net.0 ≡ Some 1) × (slice_get self.now.places net.0 ≡ Some place)) }
    {
        let net = net.0 as usize;
        if self.pins.len() <= net {
            return None;
        }
        if self.places.len() <= net {
            return None;
        }
        if self.pins[net] == 1 {
            return Some(self.places[net]);
        }
        None
    }
}
