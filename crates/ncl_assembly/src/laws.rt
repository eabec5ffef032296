//! The law of netlists that are put together of banks and stages. It is a function that does nothing.
ghost use Rattle.ncl_netlist.specs.Netlist.{NetlistData};
ghost use Rattle.ncl_shape.specs.Pipeline.{PipelineData};
ghost use Rattle.ncl_shape.specs.Shape.{Shape};
ghost use Rattle.ncl_assembly.specs.Assembled.{IsAssembled};

/// A netlist that is put together of banks and the stages between them has the shape of their pipeline.
pub fn assembled_has_shape()
    ensures { (n : NetlistData) (p : PipelineData) → IsAssembled n p → Shape n p }
{}
