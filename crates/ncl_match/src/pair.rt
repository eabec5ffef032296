//! Functions with their complements, in a space.
ghost use Rattle.std.specs.Prelude.{◌≡◌, ◌≤◌, true, false, All, IfOk, IsErrOf, length, map};
ghost use Rattle.ncl_gates.specs.Dual.{dual_pins};
ghost use Rattle.ncl_gates.specs.Gate.{arity_of};
ghost use Rattle.ncl_space.specs.Space.{Keeps, fits};
ghost use Rattle.ncl_match.specs.Pairs.{HasFunction, IsPair, MakesPair, both_tables, functions_at, gate_function, side_of};
ghost use Rattle.std.specs.Prelude.{slice_index_or, ◌<◌};

use arrayvec::ArrayVec;
use ncl_gates::Kind;
use ncl_space::{Ref, Space, SpaceFault};

/// A function of words and its complement, by their names in a space.
#[derive(Clone, Copy, Default, PartialEq, Eq)]
pub struct Pair {
    /// Where the function is 1.
    pub one: Ref,
    /// Where it is 0.
    pub zero: Ref,
}

impl Pair {
    /// The complement. Takes no memory.
    pub fn swapped(self) -> Pair
        ensures one { result.one ≡ self.zero }
        ensures zero { result.zero ≡ self.one }
    {
        Pair {
            one: self.zero,
            zero: self.one,
        }
    }

    /// The function, or the complement.
    fn side(self, one: bool) -> Ref
        ensures { result ≡ side_of one self }
    {
        if one { self.one } else { self.zero }
    }
}

/// The functions of some pairs, or their complements. Linear in them.
fn sides(pairs: &[Pair], one: bool) -> ArrayVec<Ref, 4>
    requires { length pairs.now ≤ 4 }
    ensures { result.items ≡ map (side_of one) pairs.now }
{
    let mut found: ArrayVec<Ref, 4> = ArrayVec::new();
    for pair in pairs {
        found.push(pair.side(one));
    }
    found
}

/// Their complements as the pins of the dual of a gate.
fn dual_zeros(kind: Kind, pairs: &[Pair]) -> ArrayVec<Ref, 4>
    requires { length pairs.now ≡ arity_of kind }
    ensures { result.items ≡ dual_pins kind (map (λ (p : Pair). p.zero) pairs.now) }
{
    if let (Kind::ThAnd0, [a, b, c, d]) = (kind, pairs) {
        return sides(&[*b, *a, *c, *d], false);
    }
    sides(pairs, false)
}

/// The pair of a constant. Takes no memory.
pub(crate) fn constant_pair<P: Space>(space: &P, value: bool) -> Pair
    ensures { HasFunction (P.meaning space.now) result (λ word. value) }
{
    let one = space.constant(value);
    let zero = space.constant(!value);
    Pair { one, zero }
}

/// The pair of the bit of a word: rail 1 and rail 0.
///
/// `Full` comes exactly where the beads held with those of both are more than the limit. What is made
/// before a refusal stays.
pub(crate) fn rail_pair<P: Space>(space: &mut P, bit: usize) -> Result<Pair, SpaceFault>
    requires { bit < (P.meaning space.old).width }
    ensures made { let s = P.meaning space.old in
        IfOk result (λ p. MakesPair s (P.meaning space.new) p (λ word. slice_index_or word bit false) (both_tables s.width (λ word. slice_index_or word bit false))) }
    ensures kept { Keeps (P.meaning space.old) (P.meaning space.new) }
    ensures full { let s = P.meaning space.old in
        IsErrOf result SpaceFault.Full → fits s (both_tables s.width (λ word. slice_index_or word bit false)) ≡ false }
{
    let one = space.rail(bit, true)?;
    let zero = space.rail(bit, false)?;
    Ok(Pair { one, zero })
}

/// The pair of a gate's set function on the functions of some pairs: the function by the gate, its
/// complement by the dual of the gate on the complements.
///
/// `Full` comes exactly where the beads held with those of both are more than the limit. What is made
/// before a refusal stays.
pub(crate) fn gate_pair<P: Space>(
    space: &mut P,
    kind: Kind,
    ins: &[Pair],
) -> Result<Pair, SpaceFault>
    requires arity { length ins.now ≡ arity_of kind }
    requires pairs { All (IsPair (P.meaning space.old)) ins.now }
    ensures made { let s = P.meaning space.old in let f = gate_function kind (functions_at s ins.now) in
        IfOk result (λ p. MakesPair s (P.meaning space.new) p f (both_tables s.width f)) }
    ensures kept { Keeps (P.meaning space.old) (P.meaning space.new) }
    ensures full { let s = P.meaning space.old in
        IsErrOf result SpaceFault.Full → fits s (both_tables s.width (gate_function kind (functions_at s ins.now))) ≡ false }
{
    space.facts();
    let one = space.apply(kind, sides(ins, true).as_slice())?;
    let zero = space.apply(kind.dual(), dual_zeros(kind, ins).as_slice())?;
    Ok(Pair { one, zero })
}
