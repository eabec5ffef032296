//! Forms: gates over the rails of a few inputs, and the test of what they show and wait for.
ghost use Rattle.std.specs.Prelude.{◌≡◌, ◌<◌, ◌≤◌, ◌==◌, ◌&&◌, ℕ, [], true, false, not, length};
ghost use Rattle.std.specs.List.{slice_index_or};
ghost use Rattle.ncl_gates.specs.Gate.{arity_of};
ghost use Rattle.ncl_template.specs.Waits.{waits_at};
ghost use Rattle.ncl_template.specs.Forms.{pin_bit, gate_bit, inner_bits, behind_bit, AreInner, IsBehind, FitsAt};

use crate::waits::Waits;
use arrayvec::ArrayVec;
use ncl_gates::Kind;

/// The most inner gates of a form.
pub(crate) const MOST_INNER: usize = 3;

/// What is on an input pin of a gate of a form: rail 0 or rail 1 of the input at a place, or the inner gate at a place.
#[derive(Clone, Copy)]
pub(crate) enum FormPin {
    Zero(usize),
    One(usize),
    Inner(usize),
}

/// A gate of a form.
#[derive(Clone, Drop)]
pub(crate) struct FormGate {
    pub kind: Kind,
    pub pins: ArrayVec<FormPin, 4>,
}

/// The gates of a node: inner gates, each of which may read those before it, and those of its two rails; and for which
/// inputs they wait, word by word.
#[derive(Clone, Drop)]
pub(crate) struct Form {
    pub inner: ArrayVec<FormGate, MOST_INNER>,
    pub zero: FormGate,
    pub one: FormGate,
    pub waits: Waits,
}

impl Form {
    /// How many gates stand one after another at most.
    pub(crate) fn levels(&self) -> u32 {
        let mut levels = [0u32; MOST_INNER];
        for (place, gate) in self.inner.as_slice().iter().enumerate() {
            levels[place % MOST_INNER] = level_behind(&levels, gate);
        }
        level_behind(&levels, &self.zero).max(level_behind(&levels, &self.one))
    }
}

/// How many gates stand one after another up to a gate, where this is told of the inner gates.
fn level_behind(levels: &[u32], gate: &FormGate) -> u32 {
    let mut most = 0u32;
    for pin in gate.pins.as_slice() {
        if let FormPin::Inner(place) = *pin
            && let Some(level) = levels.get(place)
        {
            most = most.max(*level);
        }
    }
    most.saturating_add(1)
}

impl Default for FormPin {
    /// Rail 0 of the first input.
    fn default() -> FormPin {
        FormPin::Zero(0)
    }
}

impl Default for FormGate {
    /// A gate with no pins yet.
    fn default() -> FormGate {
        FormGate {
            kind: Kind::Th12,
            pins: ArrayVec::new(),
        }
    }
}

/// The bit at a place, and 0 past the end.
fn bit_at(bits: &[bool], place: usize) -> bool
    ensures { result ≡ slice_index_or bits.now place false }
{
    match bits.get(place) {
        Some(bit) => *bit,
        None => false,
    }
}

/// The bit on a pin where the inputs show a word, but the one at a place is NULL, and the inner gates have these bits.
pub(crate) fn pin_bit(word: &[bool], null: usize, inner: &[bool], pin: FormPin) -> bool
    ensures { result ≡ pin_bit word.now null inner.now pin }
{
    match pin {
        FormPin::Zero(place) => place != null && !bit_at(word, place),
        FormPin::One(place) => place != null && bit_at(word, place),
        FormPin::Inner(place) => bit_at(inner, place),
    }
}

/// Whether a gate is set there.
pub(crate) fn is_set(word: &[bool], null: usize, inner: &[bool], gate: &FormGate) -> bool
    requires few { length gate.now.pins.items ≤ 4 }
    requires arity { length gate.now.pins.items ≡ arity_of gate.now.kind }
    ensures { result ≡ gate_bit word.now null inner.now gate.now }
{
    let mut values = ArrayVec::<bool, 4>::new();
    for pin in gate.pins.as_slice() {
        values.push(pin_bit(word, null, inner, *pin));
    }
    gate.kind.set(&values)
}

/// The bit of an inner gate behind others, which is low at a place.
fn inner_bit(word: &[bool], null: usize, low: usize, bits: &[bool], gate: &FormGate) -> bool
    requires few { length gate.now.pins.items ≤ 4 }
    requires arity { length gate.now.pins.items ≡ arity_of gate.now.kind }
    ensures { result ≡ (not (length bits.now == low) && gate_bit word.now null bits.now gate.now) }
{
    bits.len() != low && is_set(word, null, bits, gate)
}

/// The bits of the inner gates there, where the one at a place is low, if there is one.
fn inner_bits(
    word: &[bool],
    null: usize,
    low: usize,
    inner: &[FormGate],
) -> ArrayVec<bool, MOST_INNER>
    requires few { length inner.now ≤ MOST_INNER }
    requires inner { AreInner (length word.now) 0 inner.now }
    ensures { result.items ≡ inner_bits word.now null low [] inner.now }
{
    let mut bits = ArrayVec::<bool, MOST_INNER>::new();
    for gate in inner {
        let bit = inner_bit(word, null, low, bits.as_slice(), gate);
        bits.push(bit);
    }
    bits
}

/// A gate behind inner gates, at a word.
#[derive(Clone, Copy)]
struct Behind<'a> {
    inner: &'a [FormGate],
    gate: &'a FormGate,
    word: &'a [bool],
}

impl<'a> Behind<'a> {
    /// Whether the gate is set where the input at a place is NULL, and an inner gate is low, if there are such.
    fn is_set(&self, null: usize, low: usize) -> bool
        requires { IsBehind (length self.now.word.now) self.now.inner.now self.now.gate.now }
        ensures { result ≡ behind_bit self.now.word.now null low self.now.inner.now self.now.gate.now }
    {
        let bits = inner_bits(self.word, null, low, self.inner);
        is_set(self.word, null, bits.as_slice(), self.gate)
    }

    /// Whether it waits for the input at a place, if it is to.
    fn waits_for(&self, null: usize, waits: Waits) -> bool
        requires { IsBehind (length self.now.word.now) self.now.inner.now self.now.gate.now }
        ensures { result ≡ true → waits_at waits self.now.word.now null ≡ true
            → behind_bit self.now.word.now null (length self.now.inner.now) self.now.inner.now self.now.gate.now ≡ false }
    {
        !waits.at(self.word, null) || !self.is_set(null, self.inner.len())
    }

    /// Whether it waits for those of the inputs that it is to wait for.
    fn waits(&self, waits: Waits) -> bool
        requires { IsBehind (length self.now.word.now) self.now.inner.now self.now.gate.now }
        ensures { result ≡ true → (null : ℕ) → null < length self.now.word.now → waits_at waits self.now.word.now null ≡ true
            → behind_bit self.now.word.now null (length self.now.inner.now) self.now.inner.now self.now.gate.now ≡ false }
    {
        for null in 0..self.word.len() {
            if !self.waits_for(null, waits) {
                return false;
            }
        }
        true
    }

    /// Whether it waits for the inner gate at a place, if that is high.
    fn observes_at(&self, low: usize, high: &[bool]) -> bool
        requires { IsBehind (length self.now.word.now) self.now.inner.now self.now.gate.now }
        ensures { result ≡ true → slice_index_or high.now low false ≡ true
            → behind_bit self.now.word.now (length self.now.word.now) low self.now.inner.now self.now.gate.now ≡ false }
    {
        !bit_at(high, low) || !self.is_set(self.word.len(), low)
    }

    /// Whether it waits for the inner gates that are high.
    fn observes(&self, high: &[bool]) -> bool
        requires { IsBehind (length self.now.word.now) self.now.inner.now self.now.gate.now }
        ensures { result ≡ true → (low : ℕ) → low < length self.now.inner.now → slice_index_or high.now low false ≡ true
            → behind_bit self.now.word.now (length self.now.word.now) low self.now.inner.now self.now.gate.now ≡ false }
    {
        for low in 0..self.inner.len() {
            if !self.observes_at(low, high) {
                return false;
            }
        }
        true
    }
}

/// Whether a gate has a bit at a word, and waits there for those of the inputs that it is to wait for, and for the
/// inner gates that are high.
pub(crate) fn fits_at(
    bit: bool,
    waits: Waits,
    inner: &[FormGate],
    gate: &FormGate,
    word: &[bool],
) -> bool
    requires { IsBehind (length word.now) inner.now gate.now }
    ensures { result ≡ true → FitsAt bit (waits_at waits) inner.now gate.now word.now }
{
    let behind = Behind { inner, gate, word };
    let none = word.len();
    if behind.is_set(none, inner.len()) != bit {
        return false;
    }
    let high = inner_bits(word, none, inner.len(), inner);
    behind.observes(high.as_slice()) && behind.waits(waits)
}
