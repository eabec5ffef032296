//! The functions of the nets of a stage, by their names in a space.
ghost use Rattle.std.specs.Prelude.{◌≡◌, Contains, IfOk, length};
ghost use Rattle.ncl_shape.specs.Stage.{StageData};
ghost use Rattle.ncl_space.specs.Space.{IsLive, SpaceData};
ghost use Rattle.ncl_stage.specs.StageTables.{AreValues, net_table_by, ref_at};
ghost use Rattle.ncl_stage.specs.Wiring.{place_in};
ghost use Rattle.ncl_faults.specs.declared.variant.Variant.{Variant};

use crate::input_order::BitOrder;
use crate::wiring::Wiring;
use ncl_base::Memory;
use ncl_netlist::NetId;
use ncl_space::Ref;
use std::alloc::Global;
use std::marker::Model;
use std::rc::Rc;

/// The functions of the nets of a stage under a variant, by their names in a space.
#[derive(Drop)]
pub struct Values {
    wiring: Rc<Wiring>,
    refs: Vec<Ref>,
}

impl Model for Values {
    ghost use Rattle.std.specs.Prelude.{◌≡◌, length};
    ghost use Rattle.ncl_stage.specs.StageTables.{ValuesData};

    ghost Value = { ValuesData };

    ghost view = { λ a. record { wiring = a.wiring.value; refs = a.refs.items } };

    ghost invariant = { λ a. length a.refs.items ≡ length a.wiring.value.nets };
}

impl Values {
    /// The values of a wiring and a function for each of its nets. An error is want of memory.
    pub(crate) fn new(alloc: Global, wiring: Wiring, refs: Vec<Ref>) -> Result<Values, Memory>
        requires { length refs.items ≡ length wiring.nets }
        ensures { IfOk result (λ values. values ≡ record { wiring = wiring; refs = refs.items }) }
    {
        let wiring = Rc::new(alloc, wiring)?;
        Ok(Values { wiring, refs })
    }

    /// Other functions for the nets of the same wiring, which is shared. Takes no memory; an error is that
    /// so many values share it that they can't be counted.
    pub(crate) fn with_refs(&self, refs: Vec<Ref>) -> Result<Values, Memory>
        requires { length refs.items ≡ length self.now.wiring.nets }
        ensures { IfOk result (λ values. values ≡ record self.now { refs = refs.items }) }
    {
        let wiring = self.wiring.clone()?;
        Ok(Values { wiring, refs })
    }

    /// The function of a net of the stage. Takes no memory.
    pub fn of(&self, net: NetId) -> Ref
        requires { Contains self.now.wiring.nets net.0 }
        ensures named { result ≡ ref_at self.now.refs (place_in self.now.wiring.nets net.0) }
        ensures shown { (space : SpaceData) (s : StageData) (variant : Variant) → AreValues space s variant self.now
            → IsLive space result × (space.table result ≡ net_table_by self.now.wiring.order s variant net.0) }
    {
        self.refs[self.wiring.place_of(net)]
    }

    /// The functions of all nets, in their order. Takes no memory.
    pub fn refs(&self) -> &[Ref]
        ensures refs { result.now ≡ self.now.refs }
        ensures many { length self.now.refs ≡ length self.now.wiring.nets }
    {
        self.refs.as_slice()
    }

    /// The order in which the functions take the bits of a word: the stage's bit order, for what `values` gives. Takes
    /// no memory.
    pub fn order(&self) -> &BitOrder
        ensures { result.now ≡ self.now.wiring.order }
    {
        self.wiring.order()
    }

    /// The places of the nets. Takes no memory.
    pub fn wiring(&self) -> &Wiring
        ensures { result.now ≡ self.now.wiring }
    {
        &self.wiring
    }
}
