//! Delays.
ghost use Rattle.std.specs.Prelude.{◌≡◌, Bool};
ghost use Rattle.ncl_shape.specs.declared.item.Item.{Item};
ghost use Rattle.ncl_delay.specs.Delays.{IsDelay, AreDelays, HasDelays, edges_of, edges_of_cell, delay_of};

use ncl_base::Memory;
use ncl_netlist::CellId;
use ncl_shape::{Item, Pipeline};
use std::alloc::Global;
use std::marker::Model;

/// The greatest delay. The least is 1.
pub const MOST_DELAY: u32 = 1_000_000;

/// The delays of a net that rises and of one that falls.
#[derive(Clone, Copy, Debug, PartialEq, Eq)]
pub struct Edges {
    pub rise: u32,
    pub fall: u32,
}

/// Where nothing is stated, the delays are 1.
pub(crate) const UNIT: Edges = Edges { rise: 1, fall: 1 };

/// The delays of the cells of a netlist, of the source and of the sink.
///
/// Contracts see them as a record. Each is from 1 to 1,000,000.
#[derive(Debug, Drop)]
pub struct Delays {
    pub(crate) default: Edges,
    pub(crate) cells: Vec<Option<Edges>>,
    pub(crate) source: Edges,
    pub(crate) sink: Edges,
}

impl Model for Delays {
    ghost use Rattle.ncl_delay.specs.Delays.{DelaysData, HasDelays};

    ghost Value = { DelaysData };

    ghost view = { λ a. record { default = a.default; cells = a.cells.items; source = a.source; sink = a.sink } };

    ghost invariant = { λ a. HasDelays (record { default = a.default; cells = a.cells.items; source = a.source; sink = a.sink }) };
}

impl Delays {
    /// The delays that are 1 everywhere, whatever the netlist. Takes no memory.
    pub fn unit(alloc: Global) -> Delays
        ensures { (item : Item) (rising : Bool) → delay_of result item rising ≡ 1 }
    {
        Delays {
            default: UNIT,
            cells: Vec::new(alloc),
            source: UNIT,
            sink: UNIT,
        }
    }

    /// The fact that every delay keeps: it is from 1 to 1,000,000. Costs nothing.
    pub fn facts(&self)
        ensures { HasDelays self.now }
    {
        let _ = &self.default;
    }

    /// The delay of an item whose net rises, or falls. Takes no memory.
    ///
    /// The source's delay of rising is that of Raise and its delay of falling that of Lower; the sink's
    /// delay of falling is that of Take and its delay of rising that of Ready. The cells are told by
    /// their numbers, so the pipeline isn't looked at.
    pub fn of(&self, pipeline: &Pipeline, item: Item, rising: bool) -> u32
        ensures value { result ≡ delay_of self.now item rising }
        ensures range { IsDelay result }
    {
        let _ = pipeline;
        let edges = self.edges(item);
        if rising { edges.rise } else { edges.fall }
    }

    /// The delays of an item.
    fn edges(&self, item: Item) -> Edges
        ensures value { result ≡ edges_of self.now item }
        ensures range { AreDelays result }
    {
        match item {
            Item::Cell(cell) => self.cell(cell),
            Item::Raise(_) | Item::Lower(_) => self.source,
            Item::Take | Item::Ready => self.sink,
        }
    }

    /// The delays of a cell: those stated of it, or the default.
    fn cell(&self, cell: CellId) -> Edges
        ensures value { result ≡ edges_of_cell self.now cell }
        ensures range { AreDelays result }
    {
        match self.cells.get(cell.0 as usize) {
            Some(Some(edges)) => *edges,
            _ => self.default,
        }
    }
}
