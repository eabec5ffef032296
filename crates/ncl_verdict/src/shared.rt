//! The variants of a stage that several threads share.
ghost use Rattle.std.specs.Prelude.{◌≡◌, ◌≤◌, IfOk};
ghost use Rattle.ncl_verdict.specs.Sharing.{AreShared, shared_of};

use crate::variants::variants_after_base;
use ncl_base::Memory;
use ncl_shape::Stage;
use ncl_stage::Variant;
use std::alloc::Global;
use std::marker::Model;
use std::sync::atomic::{AtomicUsize, Ordering};

/// How many variants a thread takes at a time, one after another, which have much in common.
pub(crate) const TAKEN_AT_ONCE: usize = 8;

/// The variants of a stage that may have at most `limit` nodes, in their order, and how far they are asked: which places are
/// taken, and before which place something is said.
#[derive(Drop)]
pub(crate) struct Shared<'a> {
    stage: &'a Stage,
    limit: u32,
    variants: Vec<Variant>,
    taken: AtomicUsize,
    told: AtomicUsize,
}

impl<'a> Model for Shared<'a> {
    ghost use Rattle.ncl_verdict.specs.Sharing.{AreShared, SharedData};

    ghost Value = { SharedData };

    ghost view = { λ a. record { stage = a.stage.now; limit = a.limit; variants = a.variants.items } };

    ghost invariant = { λ a. AreShared (record { stage = a.stage.now; limit = a.limit; variants = a.variants.items }) };
}

impl<'a> Shared<'a> {
    /// The variants of a stage after Base, none of which is taken. An error is want of memory. Takes time for sorting the cells.
    pub(crate) fn of(alloc: Global, stage: &'a Stage, limit: u32) -> Result<Shared<'a>, Memory>
        requires { 1 ≤ limit }
        ensures { IfOk result (λ shared. shared ≡ shared_of limit stage.now) }
    {
        let variants = variants_after_base(alloc, stage)?;
        Ok(Shared {
            stage,
            limit,
            variants,
            taken: AtomicUsize::new(0),
            told: AtomicUsize::new(usize::MAX),
        })
    }

    /// The stage.
    pub(crate) fn stage(&self) -> &'a Stage
        ensures { result.now ≡ self.now.stage }
    {
        self.stage
    }

    /// How many nodes it may have.
    pub(crate) fn limit(&self) -> u32
        ensures limit { result ≡ self.now.limit }
        ensures shared { AreShared self.now }
    {
        self.limit
    }

    /// The variants.
    pub(crate) fn variants(&self) -> &[Variant]
        ensures variants { result.now ≡ self.now.variants }
        ensures shared { AreShared self.now }
    {
        &self.variants
    }

    /// The first of `TAKEN_AT_ONCE` places that no thread has taken before.
    pub(crate) fn take(&self) -> usize {
        self.taken.fetch_add(TAKEN_AT_ONCE, Ordering::SeqCst)
    }

    /// Notes that something is said at a place.
    pub(crate) fn tell(&self, place: usize) {
        self.told.fetch_min(place, Ordering::SeqCst);
    }

    /// Whether something is said before a place, as far as was noted.
    pub(crate) fn is_told_before(&self, place: usize) -> bool {
        self.told.load(Ordering::SeqCst) < place
    }
}
