//! That what is told names what is there. Each function states a law, and does nothing.
ghost use Rattle.std.specs.Prelude.{ℕ};
ghost use Rattle.ncl_netlist.specs.Netlist.{NetlistData, IsNetlist};
ghost use Rattle.ncl_shape.specs.declared.fault.ShapeFault.{ShapeFault};
ghost use Rattle.ncl_shape.specs.Pipeline.{PipelineData};
ghost use Rattle.ncl_shape.specs.Shape.{Shape, IsShapeFault};
ghost use Rattle.ncl_verdict.specs.Judgement.{judgement};
ghost use Rattle.ncl_lines.specs.ShapeText.{NamesPlaceOf};
ghost use Rattle.ncl_lines.specs.VerdictText.{NamesCellOf};

/// The verdict on a pipeline names no cell but those of its netlist.
pub fn verdict_names()
    ensures { (n : NetlistData) (p : PipelineData) (limit : ℕ) → Shape n p → NamesCellOf n (judgement limit p.stages) }
{}

/// The fault of a netlist's shape names no net and no cell but those of the netlist.
pub fn shape_fault_names()
    ensures { (n : NetlistData) (fault : ShapeFault) → IsNetlist n → IsShapeFault n fault → NamesPlaceOf n fault }
{}
