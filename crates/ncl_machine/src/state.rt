//! The firing machine as a program.
ghost use Rattle.std.specs.Prelude.{◌≡◌, ◌+◌, ◌<◌, ◌≤◌, ◌↔◌, ℕ, true, false, not, length, set, slice_get, Some, None, Err, Ok, IsTrue, IfOk, IfSome, IfNone, OnOk, OnErr, Contains};
ghost use Rattle.ncl_shape.specs.declared.item.Item.TheVariants.{Cell as Fire, Raise, Lower, Take, Ready};
ghost use Rattle.ncl_netlist.specs.declared.ids.CellId.{CellId};
ghost use Rattle.ncl_netlist.specs.Netlist.{CellFits};
ghost use Rattle.ncl_shape.specs.Held.{data_banks};
ghost use Rattle.ncl_shape.specs.Stage.{rail_nets, rail_of};
ghost use Rattle.ncl_machine.specs.declared.step_fault.StepFault.TheVariants.{NotEnabled, Memory as OutOfMemory};
ghost use Rattle.ncl_machine.specs.State.{reset};
ghost use Rattle.ncl_machine.specs.Steps.{enabled, step, next_value, is_excited, has_value};
ghost use Rattle.ncl_machine.specs.Run.{AreWordsOf, IsQuiet};
ghost use Rattle.ncl_machine.specs.OneChange.{net_of_step};
ghost use Rattle.ncl_machine.specs.Held.{IsFor, InRange, meaning, net_values};
ghost use Rattle.ncl_machine.specs.Tallies.{current_word, raised_from, lowered_from, taken_from};

use crate::levels::Levels;
use crate::pair::Pair;
use crate::reset::reset_values;
use crate::step_fault::StepFault;
use arrayvec::ArrayVec;
use ncl_base::{Memory, Word};
use ncl_netlist::{Cell, CellId, NetId};
use ncl_shape::{Item, Pipeline, Rails};
use std::alloc::Global;
use std::marker::Model;

/// A state of the firing machine of a pipeline, which steps in constant time.
///
/// It is made for one pipeline and told that pipeline at each call. It keeps counts of the rails that the source has
/// raised and of the outputs that have data, so that nothing is walked over.
#[derive(Debug, Drop)]
pub struct State {
    inputs: Vec<Rails>,
    ki: NetId,
    ko: NetId,
    offered: Vec<Word>,
    /// How many words are due: those held at reset and those offered.
    due: usize,
    levels: Levels,
    /// How many words have been raised and lowered again.
    done: usize,
    falling: bool,
    /// How many rails of the current word are high.
    raised: usize,
    delivered: Vec<Pair>,
}

impl Model for State {
    ghost use Rattle.std.specs.Prelude.{◌≤◌, vec_capacity};
    ghost use Rattle.ncl_machine.specs.Held.{Held};
    ghost use Rattle.ncl_machine.specs.Tallies.{IsCounted};

    ghost Value = { Held };

    ghost view = { λ a. record { inputs = a.inputs.items; outputs = a.levels.outputs; ki = a.ki.0; ko = a.ko.0; offered = a.offered.items; due = a.due; values = a.levels.values; done = a.done; falling = a.falling; delivered = a.delivered.items } };

    ghost invariant = { λ a. IsCounted (record { inputs = a.inputs.items; outputs = a.levels.outputs; ki = a.ki.0; ko = a.ko.0; offered = a.offered.items; due = a.due; values = a.levels.values; done = a.done; falling = a.falling; delivered = a.delivered.items }) a.raised × (a.due ≤ vec_capacity a.delivered) };
}

/// The words, copied. Linear in their bits.
fn copied(alloc: Global, words: &[Word]) -> Result<Vec<Word>, Memory>
    ensures { IfOk result (λ copy. copy.items ≡ words.now) }
{
    let mut copy = Vec::with_capacity(alloc, words.len())?;
    for word in words {
        copy.push(word.clone()?)?;
    }
    Ok(copy)
}

/// The rail of a bit that a value names.
fn named(rails: Rails, bit: bool) -> NetId
    ensures { result.0 ≡ rail_of rails bit }
{
    if bit { rails.one } else { rails.zero }
}

impl State {
    /// The state of a pipeline at reset with some words offered, each of the width of the first bank. Fails where memory
    /// is refused.
    ///
    /// Linear in nets, cells and the bits of the words. Reserves room for as many delivered words as are held at reset and
    /// offered.
    pub fn new(alloc: Global, pipeline: &Pipeline, words: &[Word]) -> Result<State, Memory>
        requires { AreWordsOf pipeline.now words.now }
        ensures made { IfOk result (λ state. IsFor pipeline.now state) }
        ensures reset { IfOk result (λ state. meaning state ≡ reset pipeline.now words.now) }
    {
        let values = reset_values(alloc, pipeline)?;
        let levels = Levels::new(alloc, values, pipeline.outputs())?;
        let inputs = Vec::from_slice(alloc, pipeline.inputs())?;
        let offered = copied(alloc, words)?;
        let due = pipeline.data_banks() + words.len();
        let delivered = Vec::with_capacity(alloc, due)?;
        Ok(State {
            inputs,
            ki: pipeline.ki(),
            ko: pipeline.ko(),
            offered,
            due,
            levels,
            done: 0,
            falling: false,
            raised: 0,
            delivered,
        })
    }

    /// The value of a net. Takes constant time.
    pub fn value(&self, net: NetId) -> bool
        requires { net.0 < length self.now.values }
        ensures { result ≡ (meaning self.now).value net.0 }
    {
        self.levels.value(net)
    }

    /// Whether the source lowers a word. Takes no memory.
    pub fn falling(&self) -> bool
        ensures { result ≡ self.now.falling }
    {
        self.falling
    }

    /// What the sink has taken, in order.
    pub fn delivered(&self) -> &[Pair]
        ensures { result.now ≡ self.now.delivered }
    {
        self.delivered.as_slice()
    }

    /// The rail of a bit that the current word names, or `None` where all words are done.
    fn rail(&self, bit: usize) -> Option<NetId>
        requires { bit < length self.now.inputs }
        ensures none { IfNone result (slice_get (current_word self.now) bit ≡ None) }
        ensures some { IfSome result (λ net. slice_get (current_word self.now) bit ≡ Some net.0) }
        ensures within { IfSome result (λ net. net.0 < length self.now.values) }
    {
        if self.done >= self.offered.len() {
            return None;
        }
        let word = &self.offered[self.done];
        Some(named(self.inputs[bit], word.bits()[bit]))
    }

    /// Whether the current word names a rail of a bit that has this value.
    fn rail_is(&self, bit: usize, value: bool) -> bool
        requires { bit < length self.now.inputs }
        ensures { result ≡ has_value (net_values self.now.values) (slice_get (current_word self.now) bit) value }
    {
        match self.rail(bit) {
            None => false,
            Some(net) => self.value(net) == value,
        }
    }

    /// The next value of a cell.
    fn next(&self, cell: &Cell) -> bool
        requires { CellFits (length self.now.values) cell.now }
        ensures { result ≡ next_value (net_values self.now.values) cell.now }
    {
        let mut ins: ArrayVec<bool, 4> = ArrayVec::new();
        for net in cell.ins.as_slice() {
            ins.push(self.value(*net));
        }
        cell.kind.next(ins.as_slice(), self.value(cell.out))
    }

    /// Whether a cell is excited.
    fn is_excited(&self, pipeline: &Pipeline, cell: CellId) -> bool
        requires made { IsFor pipeline.now self.now }
        requires within { cell.0 < length pipeline.now.netlist.cells }
        ensures { result ≡ is_excited (net_values self.now.values) (slice_get pipeline.now.netlist.cells cell.0) }
    {
        let cell = &pipeline.netlist().cells()[cell.0 as usize];
        self.next(cell) != self.value(cell.out)
    }

    /// Whether an item can happen. The cell, or the bit, is one of the pipeline. Takes the time of the cell's own pins.
    pub fn enabled(&self, pipeline: &Pipeline, item: Item) -> bool
        requires made { IsFor pipeline.now self.now }
        requires within { InRange pipeline.now item }
        ensures { result ≡ enabled pipeline.now (meaning self.now) item }
    {
        match item {
            Item::Cell(cell) => self.is_excited(pipeline, cell),
            Item::Raise(bit) => !self.falling && self.value(self.ko) && self.rail_is(bit, false),
            Item::Lower(bit) => self.falling && !self.value(self.ko) && self.rail_is(bit, true),
            Item::Take => self.value(self.ki) && self.levels.are_data(),
            Item::Ready => !self.value(self.ki) && self.levels.are_null(),
        }
    }

    /// The net that an item changes: what the cell drives, the rail of the bit that the current word names, or the sink's
    /// acknowledge. Where the word has no such rail, the answer is any net. Takes constant time.
    pub fn net(&self, pipeline: &Pipeline, item: Item) -> NetId
        requires made { IsFor pipeline.now self.now }
        requires within { InRange pipeline.now item }
        ensures net { IfSome (net_of_step pipeline.now (meaning self.now) item) (λ net. result.0 ≡ net) }
        ensures within { result.0 < length pipeline.now.netlist.nets }
    {
        match item {
            Item::Cell(cell) => pipeline.netlist().cells()[cell.0 as usize].out,
            Item::Raise(bit) => self.rail(bit).unwrap_or(self.ki),
            Item::Lower(bit) => self.rail(bit).unwrap_or(self.ki),
            Item::Take => self.ki,
            Item::Ready => self.ki,
        }
    }

    /// Gives a net its other value that is no rail of the inputs.
    fn flip(&mut self, net: NetId)
        requires within { net.0 < length self.old.values }
        requires apart { Contains (rail_nets self.old.inputs) net.0 → ⊥ }
        ensures { self.new ≡ record self.old { values = set self.old.values net.0 (not (net_values self.old.values net.0)) } }
    {
        let value = !self.levels.value(net);
        self.levels.put(net, value);
    }

    /// Raises a rail of the current word. Where all of them are high then, the source lowers.
    fn raise(&mut self, net: NetId)
        requires within { net.0 < length self.old.values }
        requires named { Contains (current_word self.old) net.0 }
        requires low { net_values self.old.values net.0 ≡ false }
        ensures { self.new ≡ raised_from self.old net.0 }
    {
        self.levels.put(net, true);
        self.raised += 1;
        self.falling = self.raised == self.inputs.len();
    }

    /// Lowers a rail of the current word. Where all of them are low then, the word is done.
    fn lower(&mut self, net: NetId)
        requires within { net.0 < length self.old.values }
        requires named { Contains (current_word self.old) net.0 }
        requires high { net_values self.old.values net.0 ≡ true }
        ensures { self.new ≡ lowered_from self.old net.0 }
    {
        self.levels.put(net, false);
        self.raised -= 1;
        if self.raised == 0 {
            self.falling = false;
            self.done += 1;
        }
    }

    /// Takes the word at the outputs. Takes memory only where as many words have been delivered as are due.
    fn take(&mut self) -> Result<(), Memory>
        requires { net_values self.old.values self.old.ki ≡ true }
        ensures taken { OnOk result (self.new ≡ taken_from self.old) }
        ensures refused { OnErr result (self.new ≡ self.old) }
        ensures full { OnErr result (self.old.due ≤ length self.old.delivered) }
    {
        self.delivered.push(self.levels.pair())?;
        self.levels.put(self.ki, false);
        Ok(())
    }

    /// Makes the step of an item that is enabled, and tells the net that it changes. The cell, or the bit, is one of the
    /// pipeline. Fails only at `Take`, where memory is refused and as many words have been delivered as are due; then
    /// nothing has changed.
    ///
    /// Takes constant time, but `Take` takes that of the outputs.
    pub fn fire(&mut self, pipeline: &Pipeline, item: Item) -> Result<NetId, Memory>
        requires made { IsFor pipeline.now self.old }
        requires within { InRange pipeline.now item }
        requires can { enabled pipeline.now (meaning self.old) item ≡ true }
        ensures kept { IsFor pipeline.now self.new }
        ensures done { OnOk result (meaning self.new ≡ step pipeline.now (meaning self.old) item) }
        ensures refused { OnErr result (self.new ≡ self.old) }
        ensures memory { OnErr result ((item ≡ Take) × (data_banks pipeline.now.banks + length self.old.offered ≤ length self.old.delivered)) }
        ensures net { IfOk result (λ net. IfSome (net_of_step pipeline.now (meaning self.old) item) (λ changed. net.0 ≡ changed)) }
        ensures within { IfOk result (λ net. net.0 < length pipeline.now.netlist.nets) }
    {
        pipeline.facts();
        let net = self.net(pipeline, item);
        match item {
            Item::Cell(_) => self.flip(net),
            Item::Raise(_) => self.raise(net),
            Item::Lower(_) => self.lower(net),
            Item::Take => self.take()?,
            Item::Ready => self.flip(net),
        }
        Ok(net)
    }

    /// Makes the step of an item. The cell, or the bit, is one of the pipeline. Fails where the item isn't enabled, and at
    /// `Take` where memory is refused and as many words have been delivered as are due; then nothing has changed.
    ///
    /// Takes the time of the cell's own pins, but `Take` takes that of the outputs.
    pub fn step(&mut self, pipeline: &Pipeline, item: Item) -> Result<(), StepFault>
        requires made { IsFor pipeline.now self.old }
        requires within { InRange pipeline.now item }
        ensures kept { IsFor pipeline.now self.new }
        ensures done { OnOk result (meaning self.new ≡ step pipeline.now (meaning self.old) item) }
        ensures refused { OnErr result (self.new ≡ self.old) }
        ensures not_enabled { (result ≡ Err NotEnabled) ↔ (enabled pipeline.now (meaning self.old) item ≡ false) }
        ensures memory { result ≡ Err OutOfMemory → (item ≡ Take) × (data_banks pipeline.now.banks + length self.old.offered ≤ length self.old.delivered) }
    {
        if !self.enabled(pipeline, item) {
            return Err(StepFault::NotEnabled);
        }
        match self.fire(pipeline, item) {
            Ok(_) => Ok(()),
            Err(_) => Err(StepFault::Memory),
        }
    }

    /// Whether no cell is excited. Linear in the cells.
    fn cells_rest(&self, pipeline: &Pipeline) -> bool
        requires { IsFor pipeline.now self.now }
        ensures { IsTrue result ↔ ((cell : CellId) → enabled pipeline.now (meaning self.now) (Fire cell) ≡ false) }
    {
        for k in 0..pipeline.netlist().cells().len() {
            if self.is_excited(pipeline, CellId(k as u32)) {
                return false;
            }
        }
        true
    }

    /// Whether the source can neither raise nor lower a bit. Linear in the bits of the inputs.
    fn source_rests(&self, pipeline: &Pipeline) -> bool
        requires { IsFor pipeline.now self.now }
        ensures { IsTrue result ↔ ((bit : ℕ) → (enabled pipeline.now (meaning self.now) (Raise bit) ≡ false) × (enabled pipeline.now (meaning self.now) (Lower bit) ≡ false)) }
    {
        for bit in 0..self.inputs.len() {
            if self.enabled(pipeline, Item::Raise(bit))
                || self.enabled(pipeline, Item::Lower(bit))
            {
                return false;
            }
        }
        true
    }

    /// Whether the sink can neither take nor get ready.
    fn sink_rests(&self, pipeline: &Pipeline) -> bool
        requires { IsFor pipeline.now self.now }
        ensures { IsTrue result ↔ ((enabled pipeline.now (meaning self.now) Take ≡ false) × (enabled pipeline.now (meaning self.now) Ready ≡ false)) }
    {
        !self.enabled(pipeline, Item::Take) && !self.enabled(pipeline, Item::Ready)
    }

    /// Whether nothing can happen. Linear in cells and bits.
    pub fn quiet(&self, pipeline: &Pipeline) -> bool
        requires { IsFor pipeline.now self.now }
        ensures { IsTrue result ↔ IsQuiet pipeline.now (meaning self.now) }
    {
        if !self.cells_rest(pipeline) {
            return false;
        }
        if !self.source_rests(pipeline) {
            return false;
        }
        self.sink_rests(pipeline)
    }
}
