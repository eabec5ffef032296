//! The law of layouts. It is a function that does nothing.
ghost use Rattle.ncl_netlist.specs.Netlist.{NetlistData};
ghost use Rattle.ncl_shape.specs.Pipeline.{PipelineData};
ghost use Rattle.ncl_shape.specs.Shape.{Shape};
ghost use Rattle.ncl_cell_roles.specs.Layout.{Layout, IsLayoutOf};

/// A netlist that has the shape of a pipeline can be laid out.
pub fn shape_is_laid_out()
    ensures { (n : NetlistData) (p : PipelineData) → Shape n p → (l : Layout) × IsLayoutOf p l }
{}
