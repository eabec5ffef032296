//! Orders of the bits of a word, and the bit order of a stage.
ghost use Rattle.std.specs.Prelude.{◌≡◌, ◌<◌, ◌≤◌, Contains, IfOk, length, map, unwrap_or};
ghost use Rattle.std.specs.List.{range_with_len};
ghost use Rattle.ncl_shape.specs.Stage.{nets_of};
ghost use Rattle.ncl_stage.specs.BitOrder.{IsOrderOf, bit_order, place_in, placed};
ghost use Rattle.ncl_stage.specs.Wiring.{pin_places, rail_places};

use crate::walk::{add_bits, walked};
use crate::wiring::Wiring;
use arrayvec::ArrayVec;
use indexmap::IndexSet;
use ncl_base::{Memory, Word};
use ncl_shape::Stage;
use std::alloc::Global;
use std::marker::Model;

/// The place of a bit among some bits. Takes as long as a look-up in a table of hashes.
fn place_of(bits: &IndexSet<usize>, bit: usize) -> usize
    requires { Contains bits.now.keys bit }
    ensures place { result ≡ place_in bits.now.keys bit }
    ensures within { result < length bits.now.keys }
{
    bits.get_index_of(&bit).unwrap()
}

/// An order of the bits of a word, each once.
#[derive(Drop)]
pub struct BitOrder {
    pub(crate) places: IndexSet<usize>,
}

impl Model for BitOrder {
    ghost use Rattle.std.specs.Prelude.{◌≤◌, List, ℕ, length};
    ghost use Rattle.ncl_stage.specs.BitOrder.{IsOrderOf};

    ghost Value = { List ℕ };

    ghost view = { λ a. a.places.keys };

    ghost invariant = { λ a. IsOrderOf (length a.places.keys) a.places.keys × (length a.places.keys ≤ 128) };
}

impl BitOrder {
    /// So many bits in ascending order: words stand in it as the binary numbers that they are. An error is want of
    /// memory.
    ///
    /// Linear in the bits.
    pub fn ascending(alloc: Global, bits: usize) -> Result<BitOrder, Memory>
        requires { bits ≤ 128 }
        ensures bits { IfOk result (λ order. order ≡ range_with_len 0 bits) }
        ensures each { IfOk result (IsOrderOf bits) }
    {
        let mut places: IndexSet<usize> = IndexSet::new(alloc);
        add_bits(&mut places, bits)?;
        Ok(BitOrder { places })
    }

    /// The bits in this order, counting from 0. Takes no memory.
    pub fn bits(&self) -> &[usize]
        ensures { result.now ≡ self.now }
    {
        self.places.as_slice()
    }

    /// The place of a bit. Takes no memory.
    pub fn place_of(&self, bit: usize) -> usize
        requires { bit < length self.now }
        ensures place { result ≡ place_in self.now bit }
        ensures within { result < length self.now }
    {
        place_of(&self.places, bit)
    }

    /// The word whose bits, taken in this order, are those of a word. Takes no memory. Linear in the bits.
    pub fn placed(&self, word: &Word) -> Word
        requires { length word.now ≡ length self.now }
        ensures { result ≡ placed self.now word.now }
    {
        let mut all = Word::new();
        for bit in 0..self.places.len() {
            all.push(word.bits()[self.place_of(bit)]);
        }
        all
    }
}

/// An order that is given, or else the bit order of the stage, from the places of what its cells and outputs read.
///
/// Linear in the cells and what they read.
pub(crate) fn order_of(
    alloc: Global,
    stage: &Stage,
    pins: &[ArrayVec<usize, 4>],
    outputs: &[(usize, usize)],
    given: Option<BitOrder>,
) -> Result<BitOrder, Memory>
    requires pins { map (λ p. p.items) pins.now ≡ map (pin_places (nets_of stage.now.inputs stage.now.cells)) stage.now.cells }
    requires outputs { outputs.now ≡ map (rail_places (nets_of stage.now.inputs stage.now.cells)) stage.now.outputs }
    ensures { IfOk result (λ order. order ≡ unwrap_or given (bit_order stage.now)) }
{
    if let Some(order) = given {
        return Ok(order);
    }
    stage.facts();
    let places = walked(alloc, stage.inputs.items().len(), pins, outputs)?;
    Ok(BitOrder { places })
}

/// The bit order of a stage: its bits in the order in which a walk from its outputs meets them, and then those that it
/// doesn't meet, in ascending order. The walk goes through the outputs in their order, rail 0 before rail 1, and through
/// what a cell reads in pin order. An error is want of memory.
///
/// Linear in the cells and what they read: no cell is entered twice, and nothing calls itself.
pub fn bit_order(alloc: Global, stage: &Stage) -> Result<BitOrder, Memory>
    ensures { IfOk result (λ order. order ≡ bit_order stage.now) }
{
    let wiring = Wiring::new(alloc, stage)?;
    Ok(wiring.into_order())
}
