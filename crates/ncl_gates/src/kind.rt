//! The gates.
ghost use Rattle.std.specs.Prelude.{◌≡◌, ◌≢◌, ℕ, false, [], ◌∷◌, IfNone, IfSome, length, slice_index_or};
ghost use Rattle.std.specs.List.{find};
ghost use Rattle.std.specs.Str.{bytes_eq};
ghost use Rattle.ncl_gates.specs.declared.kind.Kind.{Kind};
ghost use Rattle.ncl_gates.specs.Bits.{is_set};
ghost use Rattle.ncl_gates.specs.Dual.{dual_of, is_crossed};
ghost use Rattle.ncl_gates.specs.Gate.{arity_of, next_of, set_of, some_high};
ghost use Rattle.ncl_gates.specs.Name.{name_of};

/// One of the 27 threshold gates with hysteresis (Fant and Brandt 1996; Smith and Di 2009), with its
/// name in a netlist and its set function, a sum of products of the pins.
#[derive(Clone, Copy, Debug, PartialEq, Eq)]
pub enum Kind {
    /// TH12: A + B
    Th12,
    /// TH22: AB
    Th22,
    /// TH13: A + B + C
    Th13,
    /// TH23: AB + AC + BC
    Th23,
    /// TH33: ABC
    Th33,
    /// TH23w2: A + BC
    Th23w2,
    /// TH33w2: AB + AC
    Th33w2,
    /// TH14: A + B + C + D
    Th14,
    /// TH24: AB + AC + AD + BC + BD + CD
    Th24,
    /// TH34: ABC + ABD + ACD + BCD
    Th34,
    /// TH44: ABCD
    Th44,
    /// TH24w2: A + BC + BD + CD
    Th24w2,
    /// TH34w2: AB + AC + AD + BCD
    Th34w2,
    /// TH44w2: ABC + ABD + ACD
    Th44w2,
    /// TH34w3: A + BCD
    Th34w3,
    /// TH44w3: AB + AC + AD
    Th44w3,
    /// TH24w22: A + B + CD
    Th24w22,
    /// TH34w22: AB + AC + AD + BC + BD
    Th34w22,
    /// TH44w22: AB + ACD + BCD
    Th44w22,
    /// TH54w22: ABC + ABD
    Th54w22,
    /// TH34w32: A + BC + BD
    Th34w32,
    /// TH54w32: AB + ACD
    Th54w32,
    /// TH44w322: AB + AC + AD + BC
    Th44w322,
    /// TH54w322: AB + AC + BCD
    Th54w322,
    /// THxor0: AB + CD
    ThXor0,
    /// THand0: AB + BC + AD
    ThAnd0,
    /// TH24comp: AC + BC + AD + BD
    Th24comp,
}

/// The 27 gates, in the order of `Kind`.
pub const KINDS: [Kind; 27] = [
    Kind::Th12,
    Kind::Th22,
    Kind::Th13,
    Kind::Th23,
    Kind::Th33,
    Kind::Th23w2,
    Kind::Th33w2,
    Kind::Th14,
    Kind::Th24,
    Kind::Th34,
    Kind::Th44,
    Kind::Th24w2,
    Kind::Th34w2,
    Kind::Th44w2,
    Kind::Th34w3,
    Kind::Th44w3,
    Kind::Th24w22,
    Kind::Th34w22,
    Kind::Th44w22,
    Kind::Th54w22,
    Kind::Th34w32,
    Kind::Th54w32,
    Kind::Th44w322,
    Kind::Th54w322,
    Kind::ThXor0,
    Kind::ThAnd0,
    Kind::Th24comp,
];

impl Kind {
    /// How many inputs the gate has: 2, 3 or 4.
    pub fn arity(self) -> usize
        ensures { result ≡ arity_of self }
    {
        match self {
            Kind::Th12 | Kind::Th22 => 2,
            Kind::Th13 | Kind::Th23 | Kind::Th33 | Kind::Th23w2 | Kind::Th33w2 => 3,
            Kind::Th14
            | Kind::Th24
            | Kind::Th34
            | Kind::Th44
            | Kind::Th24w2
            | Kind::Th34w2
            | Kind::Th44w2
            | Kind::Th34w3
            | Kind::Th44w3
            | Kind::Th24w22
            | Kind::Th34w22
            | Kind::Th44w22
            | Kind::Th54w22
            | Kind::Th34w32
            | Kind::Th54w32
            | Kind::Th44w322
            | Kind::Th54w322
            | Kind::ThXor0
            | Kind::ThAnd0
            | Kind::Th24comp => 4,
        }
    }

    /// The dual of the gate: on the complements of its inputs it makes the complement of the set function. Pins A and B
    /// change places where `is_crossed` says so.
    pub fn dual(self) -> Kind
        ensures { result ≡ dual_of self }
    {
        match self {
            Kind::Th12 => Kind::Th22,
            Kind::Th22 => Kind::Th12,
            Kind::Th13 => Kind::Th33,
            Kind::Th23 => Kind::Th23,
            Kind::Th33 => Kind::Th13,
            Kind::Th23w2 => Kind::Th33w2,
            Kind::Th33w2 => Kind::Th23w2,
            Kind::Th14 => Kind::Th44,
            Kind::Th24 => Kind::Th34,
            Kind::Th34 => Kind::Th24,
            Kind::Th44 => Kind::Th14,
            Kind::Th24w2 => Kind::Th44w2,
            Kind::Th34w2 => Kind::Th34w2,
            Kind::Th44w2 => Kind::Th24w2,
            Kind::Th34w3 => Kind::Th44w3,
            Kind::Th44w3 => Kind::Th34w3,
            Kind::Th24w22 => Kind::Th54w22,
            Kind::Th34w22 => Kind::Th44w22,
            Kind::Th44w22 => Kind::Th34w22,
            Kind::Th54w22 => Kind::Th24w22,
            Kind::Th34w32 => Kind::Th54w32,
            Kind::Th54w32 => Kind::Th34w32,
            Kind::Th44w322 => Kind::Th54w322,
            Kind::Th54w322 => Kind::Th44w322,
            Kind::ThXor0 => Kind::Th24comp,
            Kind::ThAnd0 => Kind::ThAnd0,
            Kind::Th24comp => Kind::ThXor0,
        }
    }

    /// Whether the dual has pins A and B exchanged, as that of THand0 alone has.
    pub fn is_crossed(self) -> bool
        ensures { result ≡ is_crossed self }
    {
        matches!(self, Kind::ThAnd0)
    }

    /// The set function of the gate: whether some product of it has all its pins at 1.
    pub fn set(self, ins: &[bool]) -> bool
        requires { length ins.now ≡ arity_of self }
        ensures { result ≡ set_of self ins.now }
    {
        let values = self.set_values(
            word_at(ins, 0),
            word_at(ins, 1),
            word_at(ins, 2),
            word_at(ins, 3),
        );
        values & 1 == 1
    }

    /// The set function of the gate at 64 values of each of four pins, value k at bit k. Pins that the gate doesn't
    /// have aren't read.
    #[tactic(auto, using(crate::proofs::BitLaws::word_bits))]
    pub fn set_values(self, a: u64, b: u64, c: u64, d: u64) -> u64
        ensures { (k : ℕ) →
            is_set result k ≡ set_of self (is_set a k ∷ is_set b k ∷ is_set c k ∷ is_set d k ∷ []) }
    {
        match self {
            Kind::Th12 => a | b,
            Kind::Th22 => a & b,
            Kind::Th13 => a | b | c,
            Kind::Th23 => (a & b) | (a & c) | (b & c),
            Kind::Th33 => a & b & c,
            Kind::Th23w2 => a | (b & c),
            Kind::Th33w2 => (a & b) | (a & c),
            Kind::Th14 => a | b | c | d,
            Kind::Th24 => (a & b) | (a & c) | (a & d) | (b & c) | (b & d) | (c & d),
            Kind::Th34 => (a & b & c) | (a & b & d) | (a & c & d) | (b & c & d),
            Kind::Th44 => a & b & c & d,
            Kind::Th24w2 => a | (b & c) | (b & d) | (c & d),
            Kind::Th34w2 => (a & b) | (a & c) | (a & d) | (b & c & d),
            Kind::Th44w2 => (a & b & c) | (a & b & d) | (a & c & d),
            Kind::Th34w3 => a | (b & c & d),
            Kind::Th44w3 => (a & b) | (a & c) | (a & d),
            Kind::Th24w22 => a | b | (c & d),
            Kind::Th34w22 => (a & b) | (a & c) | (a & d) | (b & c) | (b & d),
            Kind::Th44w22 => (a & b) | (a & c & d) | (b & c & d),
            Kind::Th54w22 => (a & b & c) | (a & b & d),
            Kind::Th34w32 => a | (b & c) | (b & d),
            Kind::Th54w32 => (a & b) | (a & c & d),
            Kind::Th44w322 => (a & b) | (a & c) | (a & d) | (b & c),
            Kind::Th54w322 => (a & b) | (a & c) | (b & c & d),
            Kind::ThXor0 => (a & b) | (c & d),
            Kind::ThAnd0 => (a & b) | (b & c) | (a & d),
            Kind::Th24comp => (a & c) | (b & c) | (a & d) | (b & d),
        }
    }

    /// The next value of the gate's output, with hysteresis: 1 where the set function holds, 0 where
    /// all inputs are 0, and the old value otherwise.
    pub fn next(self, ins: &[bool], old: bool) -> bool
        requires { length ins.now ≡ arity_of self }
        ensures { result ≡ next_of self ins.now old }
    {
        self.set(ins) || (old && is_some_high(ins))
    }

    /// The name of the gate, as it stands in a netlist.
    pub fn name(self) -> &'static [u8]
        ensures { result.now ≡ name_of self }
    {
        match self {
            Kind::Th12 => b"TH12",
            Kind::Th22 => b"TH22",
            Kind::Th13 => b"TH13",
            Kind::Th23 => b"TH23",
            Kind::Th33 => b"TH33",
            Kind::Th23w2 => b"TH23w2",
            Kind::Th33w2 => b"TH33w2",
            Kind::Th14 => b"TH14",
            Kind::Th24 => b"TH24",
            Kind::Th34 => b"TH34",
            Kind::Th44 => b"TH44",
            Kind::Th24w2 => b"TH24w2",
            Kind::Th34w2 => b"TH34w2",
            Kind::Th44w2 => b"TH44w2",
            Kind::Th34w3 => b"TH34w3",
            Kind::Th44w3 => b"TH44w3",
            Kind::Th24w22 => b"TH24w22",
            Kind::Th34w22 => b"TH34w22",
            Kind::Th44w22 => b"TH44w22",
            Kind::Th54w22 => b"TH54w22",
            Kind::Th34w32 => b"TH34w32",
            Kind::Th54w32 => b"TH54w32",
            Kind::Th44w322 => b"TH44w322",
            Kind::Th54w322 => b"TH54w322",
            Kind::ThXor0 => b"THxor0",
            Kind::ThAnd0 => b"THand0",
            Kind::Th24comp => b"TH24comp",
        }
    }

    /// The gate of a name, and None where no gate has it. Upper and lower case differ. Compares it with at most 27
    /// names.
    pub fn from_name(name: &[u8]) -> Option<Kind>
        ensures some { IfSome result (λ kind. name_of kind ≡ name.now) }
        ensures none { IfNone result ((kind : Kind) → name_of kind ≢ name.now) }
    {
        named(&KINDS, name)
    }
}

/// The first of these gates that has a name.
fn named(kinds: &[Kind], name: &[u8]) -> Option<Kind>
    ensures { result ≡ find (λ kind. bytes_eq (name_of kind) name.now) kinds.now }
{
    kinds.iter().copied().find(|kind| kind.name() == name)
}

/// Whether some input is 1. Linear in the inputs.
pub(crate) fn is_some_high(ins: &[bool]) -> bool
    ensures { result ≡ some_high ins.now }
{
    ins.iter().any(|high| *high)
}

/// The value at a place as a word, 0 where there is none.
fn word_at(ins: &[bool], place: usize) -> u64
    ensures { is_set result 0 ≡ slice_index_or ins.now place false }
{
    u64::from(place < ins.len() && ins[place])
}
