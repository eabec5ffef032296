//! The keys that one operation has met.
ghost use Rattle.std.specs.Prelude.{◌≡◌, ◌≢◌, ◌≤◌, ◌<◌, ◌+◌, [], ◌∷◌, ◌++◌, true, Err, IfOk, OnOk, OnErr, Some, length, slice_get, if◌then◌else◌};
ghost use Rattle.std.specs.List.{IsDistinct};
ghost use Rattle.ncl_diagram.specs.Memo.{is_key};
ghost use Rattle.ncl_diagram.specs.Keys.{ArePut, AreWithin, EndsAt, IsFree, IsTable, hash_of};

use crate::memo::{Key, hash_of};
use ncl_space::SpaceFault;
use std::alloc::Global;
use std::marker::Model;

/// How many buckets there are at first.
const FIRST_BUCKETS: usize = 1 << 8;

/// The most keys that one operation may meet. With their buckets and answers so many take some 170 MB.
const MOST_KEYS: usize = 1 << 22;

/// The most keys of an operation whose room is kept for the next one.
pub(crate) const MOST_KEPT: usize = 1 << 16;

/// A bucket: in the round of this number it has the index of a key, in each other it is free.
#[derive(Clone, Copy)]
pub(crate) struct Bucket {
    pub(crate) round: u32,
    pub(crate) index: u32,
}

/// Where the walk of a key ends: at its index, or at a bucket that is free, or nowhere where none is free.
#[derive(Clone, Copy)]
pub(crate) enum End {
    Found(usize),
    Free(usize),
    Nowhere,
}

/// Walks over the buckets that are taken.
#[inline(always)]
fn probe(keys: &[Key], buckets: &[Bucket], round: u32, key: Key, hash: u64) -> End
    requires within { AreWithin buckets.now round (length keys.now) }
    requires hash { hash ≡ hash_of key }
    ensures { EndsAt keys.now buckets.now round key result }
{
    let count = buckets.len();
    if count == 0 {
        return End::Nowhere;
    }
    let mask = count - 1;
    let mut at = hash as usize & mask;
    'walk: for _ in 0..count {
        let bucket = buckets[at];
        if bucket.round != round {
            return End::Free(at);
        }
        let index = bucket.index as usize;
        if keys[index] == key {
            return End::Found(index);
        }
        at = (at + 1) & mask;
    }
    End::Nowhere
}

/// So many buckets, with these keys in this round. Linear in both.
#[inline(never)]
fn filled(alloc: Global, keys: &[Key], round: u32, count: usize) -> Result<Vec<Bucket>, SpaceFault>
    requires round { 1 ≤ round }
    ensures put { IfOk result (λ v. ArePut keys.now (length keys.now) v.items round) }
    ensures never_full { result ≢ Err SpaceFault.Full }
{
    let mut buckets = Vec::from_elem(alloc, Bucket { round: 0, index: 0 }, count)?;
    'filling: for index in 0..keys.len() {
        if index >= MOST_KEYS {
            return Err(SpaceFault::Memory);
        }
        let key = keys[index];
        let end = probe(keys, buckets.as_slice(), round, key, hash_of(key));
        let End::Free(at) = end else {
            return Err(SpaceFault::Memory);
        };
        buckets[at] = Bucket {
            round,
            index: index as u32,
        };
    }
    Ok(buckets)
}

/// Puts a key last, with its index in the free bucket where its walk ends. Past the most keys it answers `Memory`.
fn put(
    keys: &mut Vec<Key>,
    buckets: &mut Vec<Bucket>,
    round: u32,
    at: usize,
    key: Key,
) -> Result<usize, SpaceFault>
    requires table { IsTable keys.old.items buckets.old.items round }
    requires free { IsFree keys.old.items buckets.old.items round key at }
    ensures table { IsTable keys.new.items buckets.new.items round }
    ensures keys { OnOk result (keys.new.items ≡ keys.old.items ++ key ∷ []) }
    ensures last { IfOk result (λ r. r ≡ length keys.old.items) }
    ensures at { IfOk result (λ r. slice_get keys.new.items r ≡ Some key) }
    ensures within { IfOk result (λ r. r < length keys.new.items) }
    ensures err { OnErr result (keys.new.items ≡ keys.old.items) }
    ensures never_full { result ≢ Err SpaceFault.Full }
{
    let index = keys.len();
    if index >= MOST_KEYS {
        return Err(SpaceFault::Memory);
    }
    keys.push(key)?;
    buckets[at] = Bucket {
        round,
        index: index as u32,
    };
    Ok(index)
}

/// Keys without doubles, seen as their list, in the order in which they came.
///
/// Half of the buckets are free or more, so that walks are short.
#[derive(Drop)]
pub(crate) struct Keys {
    alloc: Global,
    keys: Vec<Key>,
    buckets: Vec<Bucket>,
    round: u32,
}

impl Model for Keys {
    ghost use Rattle.std.specs.Prelude.{List};
    ghost use Rattle.ncl_diagram.specs.declared.memo.Key.{Key};
    ghost use Rattle.ncl_diagram.specs.Keys.{IsTable};

    ghost Value = { List Key };

    ghost view = { λ k. k.keys.items };

    ghost invariant = { λ k. IsTable k.keys.items k.buckets.items k.round };
}

impl Keys {
    /// No keys. Takes no memory.
    pub(crate) fn new(alloc: Global) -> Keys
        ensures { result ≡ [] }
    {
        Keys {
            alloc,
            keys: Vec::new(alloc),
            buckets: Vec::new(alloc),
            round: 1,
        }
    }

    /// The index of a key that has this hash, and whether it came just now, as the last.
    pub(crate) fn find_or_put(&mut self, key: Key, hash: u64) -> Result<(usize, bool), SpaceFault>
        requires { hash ≡ hash_of key }
        ensures at { IfOk result (λ r. slice_get self.new r.0 ≡ Some key) }
        ensures within { IfOk result (λ r. r.0 < length self.new) }
        ensures keys { IfOk result (λ r. self.new ≡ (if r.1 then self.old ++ key ∷ [] else self.old)) }
        ensures last { IfOk result (λ r. r.1 ≡ true → r.0 ≡ length self.old) }
        ensures err { OnErr result (self.new ≡ self.old) }
        ensures never_full { result ≢ Err SpaceFault.Full }
    {
        self.grow()?;
        let end = probe(
            self.keys.as_slice(),
            self.buckets.as_slice(),
            self.round,
            key,
            hash,
        );
        match end {
            End::Found(at) => Ok((at, false)),
            End::Free(at) => {
                let index = put(&mut self.keys, &mut self.buckets, self.round, at, key)?;
                Ok((index, true))
            }
            End::Nowhere => Err(SpaceFault::Memory),
        }
    }

    /// Makes twice the buckets where half of them are taken.
    fn grow(&mut self) -> Result<(), SpaceFault>
        ensures same { self.new ≡ self.old }
        ensures never_full { result ≢ Err SpaceFault.Full }
    {
        let count = self.buckets.len();
        if self.keys.len() < count / 2 {
            return Ok(());
        }
        let more = count.saturating_mul(2).max(FIRST_BUCKETS);
        let buckets = filled(self.alloc, self.keys.as_slice(), self.round, more)?;
        self.buckets = buckets;
        Ok(())
    }

    /// Forgets the keys, of which no two were one. The buckets are free in the next round, or go where there were many keys.
    pub(crate) fn clear(&mut self)
        ensures none { self.new ≡ [] }
        ensures distinct { IsDistinct is_key self.old }
    {
        if self.keys.len() > MOST_KEPT || self.round == u32::MAX {
            *self = Keys::new(self.alloc);
        } else {
            self.keys.truncate(0);
            self.round += 1;
        }
    }
}
