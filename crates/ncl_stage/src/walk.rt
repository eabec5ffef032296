//! A walk over the places of a stage: the rails of bit b stand at 2b and 2b + 1, and the cells after all rails.

ghost use Rattle.std.specs.Prelude.{◌≡◌, ℕ, ◌+◌, ◌*◌, ◌^◌, ◌<◌, ◌≤◌, ◌++◌, [], List, All, IfOk, OnOk, length, map, replicate, reverse, slice_index_or, false};
ghost use Rattle.std.specs.List.{flat_map, range_with_len};
ghost use Rattle.ncl_stage.specs.BitOrder.{with_bits};
ghost use Rattle.ncl_stage.specs.Walk.{AreMet, IsDone, ReadEarlier};

use arrayvec::ArrayVec;
use indexmap::IndexSet;
use ncl_base::Memory;
use std::alloc::Global;

/// A walk from the outputs of a stage to its bits.
#[derive(Drop)]
struct Walk {
    /// The bits that were found, in the order in which they were.
    found: IndexSet<usize>,
    /// For each cell, whether it was entered.
    entered: Vec<bool>,
    /// The places that wait, the next one last.
    waiting: Vec<usize>,
}

/// Puts places on a stack, so that the first comes off first. Linear in the places.
fn put_all(waiting: &mut Vec<usize>, places: &[usize]) -> Result<(), Memory>
    ensures { OnOk result (waiting.new.items ≡ waiting.old.items ++ reverse places.now) }
{
    let mut left = places.len();
    while left > 0 {
        left -= 1;
        waiting.push(places[left])?;
    }
    Ok(())
}

/// The places of what a cell reads.
fn pins_of(pins: &[ArrayVec<usize, 4>], cell: usize) -> &[usize]
    requires { cell < length pins.now }
    ensures pins { result.now ≡ slice_index_or (map (λ p. p.items) pins.now) cell [] }
    ensures few { length result.now ≤ 4 }
{
    pins[cell].as_slice()
}

impl Walk {
    /// No bits yet, and none of so many cells entered. Linear in the cells.
    fn new(alloc: Global, cells: usize) -> Result<Walk, Memory>
        ensures { IfOk result (λ walk. (walk.found.keys ≡ []) × (walk.entered.items ≡ replicate cells false) × (walk.waiting.items ≡ [])) }
    {
        let entered = vec![in alloc; false; cells]?;
        Ok(Walk {
            found: IndexSet::new(alloc),
            entered,
            waiting: Vec::new(alloc),
        })
    }
    /// Goes on from a place until nothing waits. A cell is entered when it comes off the stack, and not again.
    ///
    /// Linear in the cells that are entered and what they read.
    fn from(&mut self, bits: usize, pins: &[ArrayVec<usize, 4>], place: usize) -> Result<(), Memory>
        requires room { 2 * bits + length pins.now < 2 ^ 64 }
        requires earlier { ReadEarlier bits (map (λ p. p.items) pins.now) }
        requires within { place < 2 * bits + length pins.now }
        requires idle { self.old.waiting.items ≡ [] }
        requires done { IsDone bits (map (λ p. p.items) pins.now) self.old.entered.items self.old.found.keys }
        ensures idle { OnOk result (self.new.waiting.items ≡ []) }
        ensures found { OnOk result ((met : ℕ → List ℕ) → AreMet bits (map (λ p. p.items) pins.now) met → self.new.found.keys ≡ with_bits self.old.found.keys (met place)) }
        ensures done { OnOk result (IsDone bits (map (λ p. p.items) pins.now) self.new.entered.items self.new.found.keys) }
    {
        self.waiting.push(place)?;
        while let Some(next) = self.waiting.pop() {
            if next < 2 * bits {
                self.found.insert(next / 2)?;
            } else if !self.entered[next - 2 * bits] {
                self.entered[next - 2 * bits] = true;
                let ins = pins_of(pins, next - 2 * bits);
                put_all(&mut self.waiting, ins)?;
            }
        }
        Ok(())
    }

    /// Goes on from the two places of each pair in turn.
    ///
    /// Linear in the pairs, the cells and what they read: no cell is entered twice.
    fn from_pairs(
        &mut self,
        bits: usize,
        pins: &[ArrayVec<usize, 4>],
        pairs: &[(usize, usize)],
    ) -> Result<(), Memory>
        requires room { 2 * bits + length pins.now < 2 ^ 64 }
        requires earlier { ReadEarlier bits (map (λ p. p.items) pins.now) }
        requires within { All (λ pair. (pair.0 < 2 * bits + length pins.now) × (pair.1 < 2 * bits + length pins.now)) pairs.now }
        requires new { self.old.found.keys ≡ [] }
        requires idle { self.old.waiting.items ≡ [] }
        requires done { IsDone bits (map (λ p. p.items) pins.now) self.old.entered.items self.old.found.keys }
        ensures { OnOk result ((met : ℕ → List ℕ) → AreMet bits (map (λ p. p.items) pins.now) met → self.new.found.keys ≡ with_bits [] (flat_map (λ pair. met pair.0 ++ met pair.1) pairs.now)) }
    {
        for pair in pairs {
            self.from(bits, pins, pair.0)?;
            self.from(bits, pins, pair.1)?;
        }
        Ok(())
    }
}

/// Puts so many bits after those that are there, ascending, where they aren't there yet. Linear in them.
pub(crate) fn add_bits(found: &mut IndexSet<usize>, bits: usize) -> Result<(), Memory>
    ensures { OnOk result (found.new.keys ≡ with_bits found.old.keys (range_with_len 0 bits)) }
{
    for bit in 0..bits {
        found.insert(bit)?;
    }
    Ok(())
}

/// The bits in the order in which a walk from the outputs meets them, and then those that it doesn't meet, ascending.
///
/// Linear in the cells and what they read: no cell is entered twice.
pub(crate) fn walked(
    alloc: Global,
    bits: usize,
    pins: &[ArrayVec<usize, 4>],
    outputs: &[(usize, usize)],
) -> Result<IndexSet<usize>, Memory>
    requires room { 2 * bits + length pins.now < 2 ^ 64 }
    requires earlier { ReadEarlier bits (map (λ p. p.items) pins.now) }
    requires within { All (λ pair. (pair.0 < 2 * bits + length pins.now) × (pair.1 < 2 * bits + length pins.now)) outputs.now }
    ensures { IfOk result (λ order. (met : ℕ → List ℕ) → AreMet bits (map (λ p. p.items) pins.now) met → order.keys ≡ with_bits [] (flat_map (λ pair. met pair.0 ++ met pair.1) outputs.now ++ range_with_len 0 bits)) }
{
    let mut walk = Walk::new(alloc, pins.len())?;
    walk.from_pairs(bits, pins, outputs)?;
    add_bits(&mut walk.found, bits)?;
    Ok(walk.found)
}
