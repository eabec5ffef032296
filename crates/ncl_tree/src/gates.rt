//! Gates that are added one by one.
ghost use Rattle.std.specs.Prelude.{◌≡◌, ◌+◌, ◌<◌, ◌^◌, ◌∷◌, ◌++◌, [], IfOk, OnErr, length};
ghost use Rattle.ncl_tree.specs.Gates.{AreNumbered, nets_so_far};

use arrayvec::ArrayVec;
use ncl_base::Memory;
use ncl_gates::Kind;
use ncl_netlist::{CellId, NetId};
use ncl_shape::StageCell;
use std::alloc::Global;
use std::marker::Model;

/// Gates over nets that are there already. Each gate has the number of its place, and drives the net that follows
/// the one of the gate before.
#[derive(Debug, Drop)]
pub struct Gates {
    first: u32,
    cells: Vec<StageCell>,
}

impl Model for Gates {
    ghost use Rattle.ncl_tree.specs.Gates.{GatesData, AreNumbered};

    ghost Value = { GatesData };

    ghost view = { λ a. record { first = a.first; cells = a.cells.items } };

    ghost invariant = { λ a. AreNumbered (record { first = a.first; cells = a.cells.items }) };
}

impl Gates {
    /// No gates yet, over nets below `first`. Takes no memory.
    pub fn new(alloc: Global, first: u32) -> Gates
        ensures { result ≡ record { first = first; cells = [] } }
    {
        Gates {
            first,
            cells: Vec::new(alloc),
        }
    }

    /// What memory is taken from.
    pub(crate) fn alloc(&self) -> Global {
        *self.cells.allocator()
    }

    /// Adds a gate with these input nets, and gives the net that it drives. The only error is want of memory.
    pub fn add(&mut self, kind: Kind, ins: ArrayVec<NetId, 4>) -> Result<NetId, Memory>
        requires { nets_so_far self.old + 1 < 2 ^ 32 }
        ensures net { IfOk result (λ net. net.0 ≡ nets_so_far self.old) }
        ensures added { IfOk result (λ net. self.new ≡ record {
          first = self.old.first;
          cells = self.old.cells ++ record { cell = record { 0 = length self.old.cells }; kind = kind; ins = ins; out = net } ∷ [];
        }) }
        ensures err { OnErr result (self.new ≡ self.old) }
    {
        let place = self.cells.len() as u32;
        let out = NetId(self.first + place);
        self.cells.push(StageCell {
            cell: CellId(place),
            kind,
            ins,
            out,
        })?;
        Ok(out)
    }

    /// The gates in order. Takes no memory.
    pub fn cells(&self) -> &[StageCell]
        ensures cells { result.now ≡ self.now.cells }
        ensures numbered { AreNumbered self.now }
    {
        self.cells.as_slice()
    }
}
