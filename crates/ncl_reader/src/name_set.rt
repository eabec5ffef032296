//! Sets of names.
ghost use Rattle.std.specs.Prelude.{◌≡◌, ℕ, List, IfOk, cond, true, false};
ghost use Rattle.std.specs.Str.{bytes_eq};
ghost use Rattle.ncl_reader.specs.NameSet.{has_name};

use ncl_base::Memory;
use std::alloc::Global;
use std::collections::BTreeMap;

/// A set of names that many are added to before one is asked for: those that were added last wait in a list until they
/// are sorted in.
#[derive(Drop)]
pub(crate) struct NameSet<'a> {
    sorted: BTreeMap<&'a [u8], bool>,
    waiting: Vec<&'a [u8]>,
}

impl<'a> NameSet<'a> {
    /// No names.
    pub(crate) fn new(alloc: Global) -> NameSet<'a>
        ensures { (x : List ℕ) → has_name result x ≡ false }
    {
        NameSet {
            sorted: BTreeMap::new(alloc),
            waiting: Vec::new(alloc),
        }
    }

    /// Whether the set has the name. A look-up of O(log n) comparisons, and one with each name that waits.
    pub(crate) fn has(&self, name: &[u8]) -> bool
        ensures { result ≡ has_name self.now name.now }
    {
        self.sorted.contains_key(name) || self.waiting.contains(&name)
    }

    /// Adds the name, which waits from now on. Compares nothing.
    pub(crate) fn add(&mut self, name: &'a [u8]) -> Result<(), Memory>
        ensures { IfOk result (λ u. (x : List ℕ) → has_name self.new x ≡ cond (bytes_eq name.now x) true (has_name self.old x)) }
    {
        self.waiting.push(name)?;
        Ok(())
    }

    /// Sorts the names in that wait. A look-up of O(log n) comparisons for each.
    pub(crate) fn sort(&mut self) -> Result<(), Memory>
        ensures { IfOk result (λ u. (x : List ℕ) → has_name self.new x ≡ has_name self.old x) }
    {
        while let Some(name) = self.waiting.pop() {
            match self.sorted.insert(name, true) {
                Ok(_) => {}
                Err(_) => return Err(Memory),
            }
        }
        Ok(())
    }
}
