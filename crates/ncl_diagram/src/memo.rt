//! What one operation has found so far.
ghost use Rattle.std.specs.Prelude.{◌≡◌, ◌≢◌, Err, ◌+◌, ◌<◌, [], IfOk, length, Some, set, ◌*◌, ◌^◌};
ghost use Rattle.std.specs.List.{IsDistinct};
ghost use Rattle.ncl_diagram.specs.Memo.{IsKeyPut, MayAdd, is_key};
ghost use Rattle.ncl_diagram.specs.Keys.{hash_of};

use crate::keys::{Keys, MOST_KEPT};
use ncl_space::{Ref, SpaceFault};
use std::alloc::Global;

/// The operands of one operation, filled up with the constant 0.
#[derive(Clone, Copy, PartialEq, Eq)]
pub(crate) struct Key {
    pub(crate) a: Ref,
    pub(crate) b: Ref,
    pub(crate) c: Ref,
    pub(crate) d: Ref,
}

/// Two places in one number.
fn pair(x: Ref, y: Ref) -> u64
    ensures { result ≡ x.place * 2 ^ 32 + y.place }
{
    x.place as u64 * 4_294_967_296 + y.place as u64
}

/// A hash of a key. The two products don't wait for each other.
pub(crate) fn hash_of(key: Key) -> u64
    ensures { result ≡ hash_of key }
{
    let first = pair(key.a, key.b).wrapping_mul(0x9e37_79b9_7f4a_7c15);
    let second = pair(key.c, key.d).wrapping_mul(0xc2b2_ae3d_27d4_eb4f);
    let both = first.wrapping_add(second);
    both ^ (both >> 32)
}

/// The keys that one operation has met, and beside each its answer, where there is one already.
#[derive(Drop)]
pub(crate) struct Memo {
    pub(crate) keys: Keys,
    pub(crate) found: Vec<Option<Ref>>,
}

impl Memo {
    /// Nothing is found yet.
    pub(crate) fn new(alloc: Global) -> Memo {
        Memo {
            keys: Keys::new(alloc),
            found: Vec::new(alloc),
        }
    }

    /// The index of a key, found or put last, and its answer.
    pub(crate) fn begin(&mut self, key: Key, hash: u64) -> Result<(usize, Option<Ref>), SpaceFault>
        requires long { length self.old.keys ≡ length self.old.found.items }
        requires hash { hash ≡ hash_of key }
        ensures begins { IfOk result (IsKeyPut self.old.keys self.old.found.items
            self.new.keys self.new.found.items key) }
        ensures may { MayAdd self.old.keys self.new.keys key }
        ensures never_full { result ≢ Err SpaceFault.Full }
    {
        let (at, added) = self.keys.find_or_put(key, hash)?;
        if !added {
            return Ok((at, self.found[at]));
        }
        self.found.push(None)?;
        Ok((at, None))
    }

    /// Notes the answer of the key at an index.
    pub(crate) fn note(&mut self, at: usize, answer: Ref)
        requires { at < length self.old.found.items }
        ensures keys { self.new.keys ≡ self.old.keys }
        ensures found { self.new.found.items ≡ set self.old.found.items at (Some answer) }
    {
        self.found[at] = Some(answer);
    }

    /// Forgets everything. No two keys were one.
    pub(crate) fn empty(&mut self)
        ensures keys { self.new.keys ≡ [] }
        ensures found { self.new.found.items ≡ [] }
        ensures distinct { IsDistinct is_key self.old.keys }
    {
        self.keys.clear();
        self.found.truncate(0);
        self.found.shrink_to(MOST_KEPT);
    }
}
