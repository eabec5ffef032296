//! Cells of which one reads the other.
ghost use Rattle.ncl_merge.specs.Search.{IsJoint};

use ncl_shape::StageCell;
use std::marker::Model;

/// A cell that drives a net, one that reads it, and the only pin on which this one does. Both have a net for each pin of their
/// gates, and the first doesn't read its own.
#[derive(Drop)]
pub(crate) struct Joint<'a> {
    pub(crate) driver: &'a StageCell,
    pub(crate) reader: &'a StageCell,
    pub(crate) pin: usize,
}

impl<'a> Model for Joint<'a> {
    ghost use Rattle.ncl_merge.specs.Search.{IsJoint, JointData};

    ghost Value = { JointData };

    ghost view = { λ a. record { driver = a.driver.now; reader = a.reader.now; pin = a.pin } };

    ghost invariant = { λ a. IsJoint (record { driver = a.driver.now; reader = a.reader.now; pin = a.pin }) };
}

impl<'a> Joint<'a> {
    /// The facts that hold of each. Costs nothing.
    pub(crate) fn facts(&self)
        ensures { IsJoint self.now }
    {
        let _ = &self.pin;
    }
}
