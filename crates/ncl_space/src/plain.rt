//! The space of truth tables.
ghost use Rattle.std.specs.Prelude.{◌≡◌, ◌≢◌, ℕ, ◌+◌, ◌*◌, ◌<◌, ◌≤◌, ◌++◌, ◌&&◌, [], ◌∷◌, false, Some, None, Err, length, map, nat_lt, IfOk, OnOk, OnErr, IfSome, IfNone, All, slice_index_or, if◌then◌else◌};
ghost use Rattle.ncl_gates.specs.Gate.{arity_of};
ghost use Rattle.ncl_gates.specs.Bits.{is_set};
ghost use Rattle.ncl_space.specs.Bits.{word_of};
ghost use Rattle.ncl_space.specs.Functions.{gate_table, is_value, least, rail_table};
ghost use Rattle.ncl_space.specs.Space.{IsLive, IsNew, IsSpace, Keeps};
ghost use Rattle.ncl_space.specs.Plain.{
  Holds,
  IsFirst,
  IsNowhere,
  IsRow,
  plain_space,
  row_table,
  stride_of,
};

use crate::space::{Mark, Ref, Space, SpaceFault};
use crate::values::{all_ones, bit_values};
use arrayvec::ArrayVec;
use ncl_base::Word;
use ncl_gates::Kind;
use std::alloc::Global;
use std::marker::Model;

/// The function that is 0 everywhere.
const ZERO: Ref = Ref { place: 0 };

/// The most chunks of 64 values that a table has.
const MOST_CHUNKS: usize = 16;

/// The chunks of one table.
type Row = ArrayVec<u64, MOST_CHUNKS>;

/// A space of functions of 1 to 10 bits that keeps the table of each, 64 values to a word. It has no
/// limit and never answers `Full`.
#[derive(Drop)]
pub struct Plain {
    width: usize,
    // how many words a table takes
    stride: usize,
    // how many tables there are, one after another in `words`
    count: u32,
    words: Vec<u64>,
}

impl Model for Plain {
    ghost use Rattle.ncl_space.specs.Plain.{AreTables, PlainData, tables_in};

    ghost Value = { PlainData };

    ghost view = { λ p. record { width = p.width; tables = tables_in p.width p.count p.words.items } };

    ghost invariant = { λ p. AreTables p.width p.stride p.count p.words.items };
}

impl Plain {
    /// The space of words of this many bits, without functions but the constants. Takes no memory.
    pub fn new(alloc: Global, width: usize) -> Plain
        requires some { 1 ≤ width }
        requires few { width ≤ 10 }
        ensures width { (plain_space result).width ≡ width }
        ensures limit { (plain_space result).limit ≡ None }
        ensures new { IsNew (plain_space result) }
        ensures space { IsSpace (plain_space result) }
    {
        Plain {
            width,
            stride: 1 << width.saturating_sub(6),
            count: 0,
            words: Vec::new(alloc),
        }
    }

    /// Word j of a table: bit k is its value at 64 * j + k, or 0 past its end.
    fn word(&self, x: Ref, j: usize) -> u64
        requires live { IsLive (plain_space self.now) x }
        requires within { j < stride_of self.now.width }
        ensures { (k : ℕ) → k < 64 →
            is_set result k ≡ slice_index_or ((plain_space self.now).table x) (64 * j + k) false }
    {
        match x.place {
            0 => 0,
            1 => all_ones(self.width),
            place => self.words[(place as usize - 2) * self.stride + j],
        }
    }

    /// The words of the function that is 1 where a bit has this value. Linear in them.
    fn rail_row(&self, bit: usize, value: bool) -> Row
        requires { bit < self.now.width }
        ensures { let n = self.now.width in Holds n result.items (rail_table n bit value) }
    {
        let shift = self.width - 1 - bit;
        let ones = all_ones(self.width);
        let mut row = Row::new();
        for j in 0..self.stride {
            let values = bit_values(shift, j);
            row.push(if value { values & ones } else { !values & ones });
        }
        row
    }

    /// The words of a gate's function. Linear in them.
    fn gate_row(&self, kind: Kind, ins: &[Ref]) -> Row
        requires arity { length ins.now ≡ arity_of kind }
        requires live { All (IsLive (plain_space self.now)) ins.now }
        ensures { let s = plain_space self.now in
            Holds s.width result.items (gate_table s.width kind (map s.table ins.now)) }
    {
        let third = pin(ins, 2);
        let fourth = pin(ins, 3);
        let mut row = Row::new();
        for j in 0..self.stride {
            let a = self.word(ins[0], j);
            let b = self.word(ins[1], j);
            let c = self.word(third, j);
            let d = self.word(fourth, j);
            row.push(kind.set_values(a, b, c, d));
        }
        row
    }

    /// Keeps the table of these words, after the others. Linear in the words, but for room that has to
    /// grow.
    fn push_row(&mut self, row: &[u64]) -> Result<Ref, SpaceFault>
        requires { IsRow self.old.width row.now }
        ensures place { IfOk result (λ r. r.place ≡ length self.old.tables + 2) }
        ensures pushed { let t = row_table self.old.width row.now 0 in
            OnOk result (self.new ≡ record self.old { tables = self.old.tables ++ t ∷ [] }) }
        ensures unchanged { OnErr result (self.new ≡ self.old) }
        ensures never_full { result ≢ Err SpaceFault.Full }
        ensures kept { Keeps (plain_space self.old) (plain_space self.new) }
    {
        if self.count >= u32::MAX - 2 {
            return Err(SpaceFault::Memory);
        }
        self.words.extend_from_slice(row)?;
        self.count += 1;
        Ok(Ref {
            place: self.count + 1,
        })
    }

    /// Word j of where a function has this value: bit k is 1 where it has it at 64 * j + k.
    fn places(&self, x: Ref, value: bool, j: usize) -> u64
        requires live { IsLive (plain_space self.now) x }
        requires within { j < stride_of self.now.width }
        ensures { let s = plain_space self.now in (k : ℕ) → k < 64 →
            is_set result k ≡ (nat_lt (64 * j + k) (length (s.table x))
            && is_value value (slice_index_or (s.table x) (64 * j + k) false)) }
    {
        let word = self.word(x, j);
        if value {
            word
        } else {
            !word & all_ones(self.width)
        }
    }

    /// The first number at which a function has this value. Linear in the words of its table.
    fn first(&self, x: Ref, value: bool) -> Option<usize>
        requires { IsLive (plain_space self.now) x }
        ensures some { IfSome result (λ i. IsFirst ((plain_space self.now).table x) value i) }
        ensures none { IfNone result (IsNowhere ((plain_space self.now).table x) value) }
    {
        for j in 0..self.stride {
            let places = self.places(x, value, j);
            if places != 0 {
                return Some(64 * j + places.trailing_zeros() as usize);
            }
        }
        None
    }

    /// Whether a function has this value at some word, and then `out` is the least of these words.
    fn find_least(&self, x: Ref, value: bool, out: &mut Word) -> bool
        requires { IsLive (plain_space self.now) x }
        ensures word { let s = plain_space self.now in
            least value s.width (s.table x) ≡ (if result then Some out.new else None) }
        ensures unchanged { result ≡ false → out.new ≡ out.old }
    {
        match self.first(x, value) {
            Some(number) => {
                *out = numbered_word(self.width, number);
                true
            }
            None => false,
        }
    }
}

/// What stands at a pin, or 0 where the gate has no such pin.
fn pin(ins: &[Ref], place: usize) -> Ref
    ensures { result ≡ slice_index_or ins.now place ZERO }
{
    ins.get(place).copied().unwrap_or(ZERO)
}

/// The word of a number, the first bit the most significant. Linear in the bits.
fn numbered_word(width: usize, number: usize) -> Word
    requires { width ≤ 10 }
    ensures { result ≡ word_of width number }
{
    let mut word = Word::new();
    for place in 0..width {
        word.push((number >> (width - 1 - place)) & 1 == 1);
    }
    word
}

impl Space for Plain {
    ghost meaning = { plain_space };

    fn width(&self) -> usize {
        self.width
    }

    fn constant(&self, value: bool) -> Ref {
        Ref {
            place: u32::from(value),
        }
    }

    fn rail(&mut self, bit: usize, value: bool) -> Result<Ref, SpaceFault> {
        let row = self.rail_row(bit, value);
        self.push_row(row.as_slice())
    }

    fn apply(&mut self, kind: Kind, ins: &[Ref]) -> Result<Ref, SpaceFault> {
        let row = self.gate_row(kind, ins);
        self.push_row(row.as_slice())
    }

    fn same(&self, x: Ref, y: Ref) -> bool {
        for j in 0..self.stride {
            if self.word(x, j) != self.word(y, j) {
                return false;
            }
        }
        true
    }

    fn least_one(&self, x: Ref, out: &mut Word) -> bool {
        self.find_least(x, true, out)
    }

    fn least_zero(&self, x: Ref, out: &mut Word) -> bool {
        self.find_least(x, false, out)
    }

    fn mark(&self) -> Mark {
        Mark { count: self.count }
    }

    fn release(&mut self, mark: Mark) {
        self.words.truncate(mark.count as usize * self.stride);
        self.count = mark.count;
    }
}
