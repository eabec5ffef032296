//! The nets of a stage by their places.
ghost use Rattle.std.specs.Prelude.{◌≡◌, ◌-◌, ◌+◌, ◌<◌, ◌≤◌, ℕ, IfOk, [], All, Contains, length, map, slice_index_or, unwrap_or};
ghost use Rattle.std.specs.Option.{ForSome};
ghost use Rattle.ncl_netlist.specs.declared.ids.NetId.{NetId};
ghost use Rattle.ncl_shape.specs.Stage.{nets_of, rail_nets};
ghost use Rattle.ncl_stage.specs.BitOrder.{IsOrderOf, bit_order};
ghost use Rattle.ncl_stage.specs.Wiring.{IsWiring, pin_places, place_in, rail_places};

use crate::input_order::{BitOrder, order_of};
use crate::readers::readers_of;
use arrayvec::ArrayVec;
use indexmap::IndexSet;
use ncl_base::{ListTable, Memory};
use ncl_netlist::NetId;
use ncl_shape::{Stage, StageCell};
use std::alloc::Global;
use std::marker::Model;

/// The nets of a stage in their order, the rails of its inputs before the outputs of its cells, and what
/// its cells and outputs read, by places in that order; an order of the bits of a word; and of each net the places of
/// the cells that read it.
#[derive(Drop)]
pub struct Wiring {
    nets: IndexSet<u32>,
    pins: Vec<ArrayVec<usize, 4>>,
    outputs: Vec<(usize, usize)>,
    order: BitOrder,
    readers: ListTable<usize>,
}

impl Model for Wiring {
    ghost use Rattle.std.specs.Prelude.{◌-◌, length, map, ℕ};
    ghost use Rattle.arrayvec.specs.declared.ArrayVec.{ArrayVec};
    ghost use Rattle.ncl_stage.specs.Wiring.{WiringData};

    ghost Value = { WiringData };

    ghost use Rattle.ncl_stage.specs.Wiring.{AreReaders};

    ghost view = { λ a. record { nets = a.nets.keys; pins = map (λ p. p.items) a.pins.items; outputs = a.outputs.items; order = a.order } };

    ghost invariant = { λ a. AreReaders (length a.nets.keys - length a.pins.items) (map (λ p. p.items) a.pins.items) (length a.nets.keys) a.readers };
}

impl Wiring {
    /// The wiring of a stage, in its bit order. An error is want of memory.
    ///
    /// Linear in the stage: each net is looked up once for each cell or output that reads it.
    pub fn new(alloc: Global, stage: &Stage) -> Result<Wiring, Memory>
        ensures wiring { IfOk result (IsWiring stage.now) }
        ensures order { IfOk result (λ wiring. wiring.order ≡ bit_order stage.now) }
    {
        Wiring::in_order(alloc, stage, None)
    }

    /// The wiring of a stage, in an order of its bits that is given, or else in its bit order. An error is want of memory.
    ///
    /// Linear in the stage: each net is looked up once for each cell or output that reads it.
    pub(crate) fn in_order(
        alloc: Global,
        stage: &Stage,
        order: Option<BitOrder>,
    ) -> Result<Wiring, Memory>
        requires { ForSome order (IsOrderOf (length stage.now.inputs)) }
        ensures wiring { IfOk result (IsWiring stage.now) }
        ensures order { IfOk result (λ wiring. wiring.order ≡ unwrap_or order (bit_order stage.now)) }
    {
        stage.facts();
        let nets = number_nets(alloc, stage)?;
        let pins = places_of_cells(alloc, &nets, stage)?;
        let outputs = places_of_outputs(alloc, &nets, stage)?;
        let order = order_of(alloc, stage, &pins, &outputs, order)?;
        Wiring::of_parts(alloc, nets, pins, outputs, order)
    }

    /// The wiring of these parts. An error is want of memory. Linear in the nets and the pins.
    fn of_parts(
        alloc: Global,
        nets: IndexSet<u32>,
        pins: Vec<ArrayVec<usize, 4>>,
        outputs: Vec<(usize, usize)>,
        order: BitOrder,
    ) -> Result<Wiring, Memory>
        requires within { All (All (λ place. place < length nets.keys)) (map (λ p. p.items) pins.items) }
        requires many { length pins.items ≤ length nets.keys }
        ensures { IfOk result (λ wiring. wiring ≡ record { nets = nets.keys; pins = map (λ p. p.items) pins.items; outputs = outputs.items; order = order }) }
    {
        let readers = readers_of(alloc, nets.len(), pins.as_slice())?;
        Ok(Wiring {
            nets,
            pins,
            outputs,
            order,
            readers,
        })
    }

    /// The place of a net of the stage. Takes no memory.
    pub fn place_of(&self, net: NetId) -> usize
        requires { Contains self.now.nets net.0 }
        ensures { result ≡ place_in self.now.nets net.0 }
    {
        place_of(&self.nets, net)
    }

    /// How many nets there are. Takes no memory.
    pub(crate) fn len(&self) -> usize
        ensures { result ≡ length self.now.nets }
    {
        self.nets.len()
    }

    /// The net at a place. Takes no memory.
    pub fn net(&self, place: usize) -> NetId
        requires { place < length self.now.nets }
        ensures { result.0 ≡ slice_index_or self.now.nets place 0 }
    {
        NetId(*self.nets.get_index(place).unwrap())
    }

    /// The places of the inputs of a cell, in pin order. Takes no memory.
    pub fn pins(&self, cell: usize) -> &[usize]
        requires { cell < length self.now.pins }
        ensures pins { result.now ≡ slice_index_or self.now.pins cell [] }
        ensures few { length result.now ≤ 4 }
    {
        self.pins[cell].as_slice()
    }

    /// The places of the cells that read the net at a place. Takes no memory.
    pub(crate) fn readers(&self, place: usize) -> &[usize]
        requires { place < length self.now.nets }
        ensures all { (cell : ℕ) → cell < length self.now.pins → Contains (slice_index_or self.now.pins cell []) place → Contains result.now (length self.now.nets - length self.now.pins + cell) }
        ensures within { All (λ reader. reader < length self.now.nets) result.now }
    {
        self.readers.at(place)
    }

    /// The places of the rails of each output, rail 0 first. Takes no memory.
    pub fn outputs(&self) -> &[(usize, usize)]
        ensures { result.now ≡ self.now.outputs }
    {
        self.outputs.as_slice()
    }

    /// The order of the bits. Takes no memory.
    pub fn order(&self) -> &BitOrder
        ensures { result.now ≡ self.now.order }
    {
        &self.order
    }

    /// The same, without the rest.
    pub(crate) fn into_order(self) -> BitOrder
        ensures { result ≡ self.order }
    {
        self.order
    }
}

/// The nets of a stage in their order. Linear in the nets.
fn number_nets(alloc: Global, stage: &Stage) -> Result<IndexSet<u32>, Memory>
    ensures { IfOk result (λ nets. nets.keys ≡ nets_of stage.now.inputs stage.now.cells) }
{
    stage.facts();
    let mut nets = number_rails(alloc, stage)?;
    for cell in stage.cells.items() {
        nets.insert(cell.out.0)?;
    }
    Ok(nets)
}

/// The rails of the inputs in their order. Linear in the inputs.
fn number_rails(alloc: Global, stage: &Stage) -> Result<IndexSet<u32>, Memory>
    ensures { IfOk result (λ nets. nets.keys ≡ rail_nets stage.now.inputs) }
{
    stage.facts();
    let mut nets: IndexSet<u32> = IndexSet::new(alloc);
    for pair in stage.inputs.items() {
        nets.insert(pair.zero.0)?;
        nets.insert(pair.one.0)?;
    }
    Ok(nets)
}

/// The place of a net among some nets. Takes as long as a look-up in a table of hashes.
pub fn place_of(nets: &IndexSet<u32>, net: NetId) -> usize
    requires { Contains nets.now.keys net.0 }
    ensures { result ≡ place_in nets.now.keys net.0 }
{
    nets.get_index_of(&net.0).unwrap()
}

/// The places of the inputs of a cell, in pin order. Linear in the pins.
fn places_of_pins(nets: &IndexSet<u32>, cell: &StageCell) -> ArrayVec<usize, 4>
    requires { All (λ (net : NetId). Contains nets.now.keys net.0) cell.now.ins.items }
    ensures { result.items ≡ pin_places nets.now.keys cell.now }
{
    let mut places: ArrayVec<usize, 4> = ArrayVec::new();
    for net in cell.ins.as_slice() {
        places.push(place_of(nets, *net));
    }
    places
}

/// The places of the inputs of each cell. Linear in the pins of the cells.
fn places_of_cells(
    alloc: Global,
    nets: &IndexSet<u32>,
    stage: &Stage,
) -> Result<Vec<ArrayVec<usize, 4>>, Memory>
    requires { nets.now.keys ≡ nets_of stage.now.inputs stage.now.cells }
    ensures { IfOk result (λ places. map (λ p. p.items) places.items ≡ map (pin_places nets.now.keys) stage.now.cells) }
{
    stage.facts();
    let mut places = Vec::with_capacity(alloc, stage.cells.items().len())?;
    for cell in stage.cells.items() {
        places.push(places_of_pins(nets, cell))?;
    }
    Ok(places)
}

/// The places of the rails of each output. Linear in the outputs.
fn places_of_outputs(
    alloc: Global,
    nets: &IndexSet<u32>,
    stage: &Stage,
) -> Result<Vec<(usize, usize)>, Memory>
    requires { nets.now.keys ≡ nets_of stage.now.inputs stage.now.cells }
    ensures { IfOk result (λ places. places.items ≡ map (rail_places nets.now.keys) stage.now.outputs) }
{
    stage.facts();
    let mut places = Vec::with_capacity(alloc, stage.outputs.items().len())?;
    for pair in stage.outputs.items() {
        places.push((place_of(nets, pair.zero), place_of(nets, pair.one)))?;
    }
    Ok(places)
}
