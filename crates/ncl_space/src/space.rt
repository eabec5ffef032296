//! What every space of functions offers.
ghost use Rattle.std.specs.Prelude.{◌≡◌, ◌<◌, ◌↔◌, [], ◌∷◌, true, false, IsTrue, IfOk, OnOk, IsErrOf, length, map, All, Some, None, if◌then◌else◌};
ghost use Rattle.ncl_gates.specs.Gate.{arity_of};
ghost use Rattle.ncl_space.specs.Functions.{constant_table, gate_table, least, rail_table};
ghost use Rattle.ncl_space.specs.Space.{
  Adds,
  IsLive,
  IsSpace,
  Keeps,
  Makes,
  MarksNow,
  Releases,
  SpaceData,
  fits,
};

use ncl_base::{Memory, Word};
use ncl_gates::Kind;
use std::alloc::{AllocError, AllocFailed};
use thiserror::Error;

/// The name of a function in a space, which has a table there as long as it is live.
#[derive(Clone, Copy, Debug, Default, PartialEq, Eq, Hash)]
pub struct Ref {
    /// Where the space keeps the function.
    pub place: u32,
}

/// A moment of a space, to which it can go back.
#[derive(Clone, Copy, Debug, PartialEq, Eq)]
pub struct Mark {
    /// How much the space kept at that moment.
    pub count: u32,
}

/// Why a space gives no function.
#[derive(Clone, Copy, Debug, PartialEq, Eq, Error)]
pub enum SpaceFault {
    /// More beads would be held than the limit of the space.
    #[error("the limit is passed")]
    Full,
    /// There was no memory.
    #[error("out of memory")]
    Memory,
}

impl From<Memory> for SpaceFault {
    ghost use Rattle.std.specs.Prelude.{◌≡◌};
    ghost use Rattle.ncl_space.specs.declared.space.SpaceFault.TheVariants.{Memory as OutOfMemory};

    ghost from_gives = { λ _ fault. fault ≡ OutOfMemory };

    fn from(_memory: Memory) -> Self {
        SpaceFault::Memory
    }
}

impl From<AllocError> for SpaceFault {
    ghost use Rattle.std.specs.Prelude.{◌≡◌};
    ghost use Rattle.ncl_space.specs.declared.space.SpaceFault.TheVariants.{Memory as OutOfMemory};

    ghost from_gives = { λ _ fault. fault ≡ OutOfMemory };

    fn from(error: AllocError) -> Self {
        let _ = error;
        SpaceFault::Memory
    }
}

impl<T: Drop> From<AllocFailed<T>> for SpaceFault {
    ghost use Rattle.std.specs.Prelude.{◌≡◌};
    ghost use Rattle.ncl_space.specs.declared.space.SpaceFault.TheVariants.{Memory as OutOfMemory};

    ghost from_gives = { λ _ fault. fault ≡ OutOfMemory };

    fn from(error: AllocFailed<T>) -> Self {
        let _ = error;
        SpaceFault::Memory
    }
}

/// A space of functions of the words of some number of bits, from 1 to 128.
///
/// It gives the functions that it is asked for, and holds the beads of their tables: the nodes that
/// they have in a reduced ordered decision diagram. It may have a limit on how many beads it holds.
/// Every call takes Refs that are live. They stay live, with their tables, until the space goes back
/// to a mark at which they weren't.
pub trait Space {
    /// What the space holds.
    ghost meaning: { Self → SpaceData };

    /// The number of bits of a word. Takes no memory.
    fn width(&self) -> usize
        ensures width { result ≡ (meaning self.now).width }
        ensures space { IsSpace (meaning self.now) };

    /// The function that has this value at every word. Takes no memory.
    fn constant(&self, value: bool) -> Ref
        ensures live { IsLive (meaning self.now) result }
        ensures table { let s = meaning self.now in s.table result ≡ constant_table s.width value };

    /// The function that is 1 exactly at the words whose bit, counted from 0, has this value.
    ///
    /// It answers `Full` exactly where the beads held with those of the function are more than the
    /// limit. Whatever the answer, what was live and held stays so, and no other beads come.
    fn rail(&mut self, bit: usize, value: bool) -> Result<Ref, SpaceFault>
        requires { bit < (meaning self.old).width }
        ensures made { let s = meaning self.old in let t = rail_table s.width bit value in
            IfOk result (λ r. Makes s (meaning self.new) r t) }
        ensures kept { Keeps (meaning self.old) (meaning self.new) }
        ensures adds { let s = meaning self.old in let t = rail_table s.width bit value in
            Adds s (meaning self.new) (t ∷ []) }
        ensures full { let s = meaning self.old in let t = rail_table s.width bit value in
            IsErrOf result SpaceFault.Full → fits s (t ∷ []) ≡ false }
        ensures fits { let s = meaning self.old in let t = rail_table s.width bit value in
            OnOk result (fits s (t ∷ []) ≡ true) };

    /// The set function of a gate on the functions at its inputs, word by word.
    ///
    /// It answers `Full` exactly where the beads held with those of the function are more than the
    /// limit. Whatever the answer, what was live and held stays so, and no other beads come.
    fn apply(&mut self, kind: Kind, ins: &[Ref]) -> Result<Ref, SpaceFault>
        requires arity { length ins.now ≡ arity_of kind }
        requires live { All (IsLive (meaning self.old)) ins.now }
        ensures made { let s = meaning self.old in
            let t = gate_table s.width kind (map s.table ins.now) in
            IfOk result (λ r. Makes s (meaning self.new) r t) }
        ensures kept { Keeps (meaning self.old) (meaning self.new) }
        ensures adds { let s = meaning self.old in
            let t = gate_table s.width kind (map s.table ins.now) in
            Adds s (meaning self.new) (t ∷ []) }
        ensures full { let s = meaning self.old in
            let t = gate_table s.width kind (map s.table ins.now) in
            IsErrOf result SpaceFault.Full → fits s (t ∷ []) ≡ false }
        ensures fits { let s = meaning self.old in
            let t = gate_table s.width kind (map s.table ins.now) in
            OnOk result (fits s (t ∷ []) ≡ true) };

    /// Whether two functions are one. Takes no memory.
    fn same(&self, x: Ref, y: Ref) -> bool
        requires x { IsLive (meaning self.now) x }
        requires y { IsLive (meaning self.now) y }
        ensures { let s = meaning self.now in IsTrue result ↔ (s.table x ≡ s.table y) };

    /// Whether the function is 1 at some word, and then `out` is the least of these words. Otherwise
    /// `out` stays as it is. Takes no memory.
    fn least_one(&self, x: Ref, out: &mut Word) -> bool
        requires { IsLive (meaning self.now) x }
        ensures word { let s = meaning self.now in
            least true s.width (s.table x) ≡ (if result then Some out.new else None) }
        ensures unchanged { result ≡ false → out.new ≡ out.old };

    /// Whether the function is 0 at some word, and then `out` is the least of these words. Otherwise
    /// `out` stays as it is. Takes no memory.
    fn least_zero(&self, x: Ref, out: &mut Word) -> bool
        requires { IsLive (meaning self.now) x }
        ensures word { let s = meaning self.now in
            least false s.width (s.table x) ≡ (if result then Some out.new else None) }
        ensures unchanged { result ≡ false → out.new ≡ out.old };

    /// A mark of this moment. Takes no memory.
    fn mark(&self) -> Mark
        ensures mark { MarksNow (meaning self.now) result }
        ensures space { IsSpace (meaning self.now) };

    /// Goes back to a mark that stands: the functions made since then are live no more, and their beads
    /// are no longer held. Takes no memory.
    fn release(&mut self, mark: Mark)
        requires { IsTrue ((meaning self.old).stands mark) }
        ensures { Releases (meaning self.old) (meaning self.new) mark };

    /// What holds of every space at every moment. Costs nothing.
    final fn facts(&self)
        ensures { IsSpace (meaning self.now) }
    {
        let _ = self.width();
    }
}
