//! The laws of the closure of a netlist, and of its shape. Each function states some, and does nothing.
ghost use Rattle.std.specs.Prelude.{◌≡◌, ◌⊎◌, ℕ, true, All, Contains};
ghost use Rattle.ncl_netlist.specs.declared.cell.Cell.{Cell};
ghost use Rattle.ncl_netlist.specs.Netlist.{IsNetlist, NetlistData};
ghost use Rattle.ncl_shape.specs.declared.fault.ShapeFault.{ShapeFault};
ghost use Rattle.ncl_shape.specs.Nets.{Nets, IsBelow};
ghost use Rattle.ncl_shape.specs.Pipeline.{PipelineData};
ghost use Rattle.ncl_shape.specs.Shape.{Shape, Broken};
ghost use Rattle.ncl_shape.specs.SamePipeline.{IsSamePipeline};
ghost use Rattle.ncl_shape.specs.Closure.{close, net_of, passes};

/// The closure of more nets is no less.
pub fn closure_grows()
    ensures { (n : NetlistData) (v w : Nets) → IsBelow v w → IsBelow (close n v) (close n w) }
{}

/// The closure keeps what is high at the start, leaves no cell that passes on with a low output, and is
/// the least that does.
pub fn closure_is_least()
    ensures kept { (n : NetlistData) (v : Nets) → IsBelow v (close n v) }
    ensures settled { (n : NetlistData) (v : Nets) → All (λ cell. passes (close n v) cell ≡ true → close n v (net_of cell) ≡ true) n.cells }
    ensures least { (n : NetlistData) (v w : Nets) → IsBelow v w → All (λ cell. passes w cell ≡ true → w (net_of cell) ≡ true) n.cells → IsBelow (close n v) w }
{}

/// A net that is high in the closure is high at the start, or is the output of a cell that passes on.
pub fn closure_is_supported()
    ensures { (n : NetlistData) (v : Nets) (net : ℕ) → close n v net ≡ true → (v net ≡ true) ⊎ ((cell : Cell) × Contains n.cells cell × (net_of cell ≡ net) × (passes (close n v) cell ≡ true)) }
{}

/// A netlist has the shape of one pipeline, but for the order of the cells of its stages.
pub fn shape_is_one()
    ensures { (n : NetlistData) (p q : PipelineData) → Shape n p → Shape n q → IsSamePipeline p q }
{}

/// A netlist that has the shape of a pipeline breaks no rule of shape.
pub fn shape_is_unbroken()
    ensures { (n : NetlistData) (p : PipelineData) (fault : ShapeFault) → Shape n p → Broken n fault → ⊥ }
{}

/// A netlist has at most one fault of shape: the first rule that it breaks, at the first place.
pub fn first_broken_is_one()
    ensures { (n : NetlistData) (f g : ShapeFault) → IsNetlist n → Broken n f → Broken n g → f ≡ g }
{}
