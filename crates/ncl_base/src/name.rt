//! Names of files, nets and cells.
ghost use Rattle.std.specs.Prelude.{◌≡◌, IfOk, nat_eq};
ghost use Rattle.std.proofs.Common.{rules};
ghost use Rattle.std.specs.Cmp.{partial_order_from_own_ties, nat_eq_equiv, partial_equiv_from_equiv, unsigned_ties};
ghost use Rattle.std.specs.Cmp.Rules.{comparing};
ghost use Rattle.std.specs.Cmp.Lexicographic.{pointwise, slice_cmp, lists_per, lists_equiv, lists_ties};
ghost use Rattle.std.specs.Ordering.{nat_cmp, as_partial_cmp};
ghost use Rattle.std.specs.Hash as fed;
ghost use Rattle.std.specs.Hash.{items_Alike};
ghost use Rattle.std.specs.Cmp.Lexicographic.{nat_list_cmp_total};

use crate::memory::Memory;
use smallvec::SmallVec;
use std::alloc::Global;
use std::cmp::Ordering;
use std::hash::{Hash, Hasher};
use std::marker::Model;

/// The most bytes of a name that takes no memory.
const MOST_IN_PLACE: usize = 22;

/// A name, which contracts see as the list of its bytes. Names are compared and hashed byte by byte.
///
/// A name of at most 22 bytes is kept in place, and takes no memory. A longer one takes an
/// allocation, and so does its clone.
#[derive(Clone, Drop, Debug)]
pub struct Name {
    text: SmallVec<u8, MOST_IN_PLACE>,
}

impl Model for Name {
    ghost use Rattle.std.specs.Prelude.{List, ℕ};

    ghost Value = { List ℕ };

    ghost view = { λ a. a.text.items };
}

impl PartialEq for Name {
    ghost eq = { pointwise nat_eq };

    ghost laws = { lists_per (partial_equiv_from_equiv nat_eq_equiv) };

    fn eq(&self, other: &Name) -> bool {
        self.text.as_slice() == other.text.as_slice()
    }
}

impl Eq for Name {
    ghost laws = { lists_equiv nat_eq_equiv };
}

impl PartialOrd for Name {
    ghost partial_cmp = { as_partial_cmp (slice_cmp nat_cmp) };

    ghost laws = { partial_order_from_own_ties (Prim.search (comparing, rules)) (Prim.search (comparing, rules)) };

    fn partial_cmp(&self, other: &Name) -> Option<Ordering> {
        Some(self.cmp(other))
    }
}

impl Ord for Name {
    ghost cmp = { slice_cmp nat_cmp };

    ghost total = { nat_list_cmp_total };

    ghost matches_partial_cmp = { Prim.search (comparing, rules) };

    ghost matches_eq = { λ v w. lists_ties nat_cmp unsigned_ties v w };

    fn cmp(&self, other: &Name) -> Ordering {
        self.text.as_slice().cmp(&other.text.as_slice())
    }
}

impl Hash for Name {
    ghost hash_input = { fed.slice fed.u8 };

    ghost respects_eq = { (items_Alike {E = nat_eq} {F = fed.u8} (record { fed = Prim.search rules })).fed };

    fn hash<H: Hasher>(&self, state: &mut H) {
        self.text.as_slice().hash(state);
    }
}

impl Name {
    /// A name with a copy of these bytes. Linear in the bytes. Takes memory where there are more
    /// than 22.
    pub fn from_bytes(alloc: Global, bytes: &[u8]) -> Result<Name, Memory>
        ensures { IfOk result (λ name. name ≡ bytes.now) }
    {
        Ok(Name {
            text: SmallVec::from_slice(alloc, bytes)?,
        })
    }

    /// The bytes. Takes no memory.
    pub fn bytes(&self) -> &[u8]
        ensures { result.now ≡ self.now }
    {
        self.text.as_slice()
    }
}
