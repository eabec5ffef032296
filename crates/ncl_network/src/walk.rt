//! The walk over the covers of a model.
ghost use Rattle.std.specs.Prelude.{◌≡◌, ◌<◌, ◌^◌, ◌==◌, ◌++◌, ℕ, List, [], ◌∷◌, if◌then◌else◌, map, nat_lt, None, Some, IfOk, OnOk, IsSome, length, All, slice_get};
ghost use Rattle.std.specs.Ordering.{nat_cmp};
ghost use Rattle.std.specs.BTreeMap.{get};
ghost use Rattle.ncl_graph.specs.Graph.{IsOrder};
ghost use Rattle.ncl_blif.specs.Dependence.{dependency_graph};
ghost use Rattle.ncl_blif.specs.Model.{IsModel};
ghost use Rattle.ncl_blif.specs.declared.model.Model.{Model};
ghost use Rattle.ncl_network.specs.Walk.{IsWalked, input_signal, nodes_with, signal_with};

use crate::fold::{Folded, fold_cover};
use crate::network::{Node, Signal, SignalSource};
use ncl_base::Memory;
use ncl_blif::{Cover, Model};
use std::alloc::Global;
use std::collections::BTreeMap;

/// How far the covers of a model are folded.
#[derive(Drop)]
pub(crate) struct Walk {
    /// What the signals of the model are, by their numbers.
    pub(crate) signals: BTreeMap<u32, Signal>,
    /// The nodes so far.
    pub(crate) nodes: Vec<Node>,
}

/// The walk that knows the inputs alone. `n log n` in the inputs.
fn begin(alloc: Global, inputs: usize) -> Result<Walk, Memory>
    requires { inputs < 2 ^ 32 }
    ensures known { IfOk result (λ walk. (name : ℕ) → get nat_cmp walk.signals name ≡ (if nat_lt name inputs then Some (input_signal name) else None)) }
    ensures nodes { IfOk result (λ walk. walk.nodes.items ≡ []) }
{
    let mut signals = BTreeMap::new(alloc);
    for name in 0..inputs as u32 {
        let signal = Signal {
            from: SignalSource::Input(name),
            inverted: false,
        };
        signals.insert(name, signal)?;
    }
    Ok(Walk {
        signals,
        nodes: Vec::new(alloc),
    })
}

impl Walk {
    /// What some signals are, in order. A look-up for each.
    pub(crate) fn look_up(&self, alloc: Global, names: &[u32]) -> Result<Vec<Signal>, Memory>
        requires { All (λ name. IsSome (get nat_cmp self.now.signals name)) names.now }
        ensures { IfOk result (λ found. map Some found.items ≡ map (get nat_cmp self.now.signals) names.now) }
    {
        let mut found = Vec::new(alloc);
        for name in names {
            let signal = self.signals.get(name).copied().unwrap();
            found.push(signal)?;
        }
        Ok(found)
    }

    /// Adds what a cover folded into, as a signal of the model. One look-up.
    fn add(&mut self, name: u32, folded: Folded) -> Result<(), Memory>
        requires { length self.old.nodes.items < 2 ^ 32 }
        ensures known { OnOk result ((q : ℕ) → get nat_cmp self.new.signals q ≡ (if name == q then Some (signal_with self.old.nodes.items folded) else get nat_cmp self.old.signals q)) }
        ensures nodes { OnOk result (self.new.nodes.items ≡ nodes_with self.old.nodes.items folded) }
    {
        match folded {
            Folded::Signal(signal) => {
                self.signals.insert(name, signal)?;
            }
            Folded::Node(node) => {
                let place = self.nodes.len() as u32;
                self.nodes.push(node)?;
                let signal = Signal {
                    from: SignalSource::Node(place),
                    inverted: false,
                };
                self.signals.insert(name, signal)?;
            }
        }
        Ok(())
    }

    /// Folds a cover all of whose inputs are known. Linear in its rows, with a look-up for each input.
    fn take_cover(&mut self, alloc: Global, cover: &Cover) -> Result<(), Memory>
        requires known { All (λ name. IsSome (get nat_cmp self.old.signals name)) cover.now.ins }
        requires widths { All (λ row. length row ≡ length cover.now.ins) cover.now.rows }
        requires few { length self.old.nodes.items < 2 ^ 32 }
        ensures { OnOk result ((model : Model) (done : List ℕ) (place : ℕ) → slice_get model.covers place ≡ Some cover.now
            → IsWalked model (get nat_cmp self.old.signals) self.old.nodes.items done
            → IsWalked model (get nat_cmp self.new.signals) self.new.nodes.items (done ++ place ∷ [])) }
    {
        let ins = self.look_up(alloc, cover.ins.items())?;
        let folded = fold_cover(alloc, &ins, cover.on, cover.rows.items())?;
        self.add(cover.out, folded)?;
        Ok(())
    }
}

/// Folds the covers of a model in an order in which each stands after those that it reads. `n log n` in the
/// model.
pub(crate) fn walk_covers(alloc: Global, model: &Model, order: &[u32]) -> Result<Walk, Memory>
    requires model { IsModel model.now }
    requires order { IsOrder (dependency_graph model.now.covers) order.now }
    ensures { IfOk result (λ walk. IsWalked model.now (get nat_cmp walk.signals) walk.nodes.items order.now) }
{
    let covers = model.covers.items();
    let mut walk = begin(alloc, model.inputs.items().len())?;
    for place in order {
        walk.take_cover(alloc, &covers[*place as usize])?;
    }
    Ok(walk)
}
