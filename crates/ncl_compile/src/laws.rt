//! The law of compiled netlists. The function states it, and does nothing.
ghost use Rattle.std.specs.Prelude.{◌≡◌, List};
ghost use Rattle.ncl_blif.specs.declared.model.Model.{Model};
ghost use Rattle.ncl_netlist.specs.Netlist.{NetlistData};
ghost use Rattle.ncl_shape.specs.Held.{data_banks};
ghost use Rattle.ncl_shape.specs.Pipeline.{PipelineData};
ghost use Rattle.ncl_shape.specs.Shape.{Shape};
ghost use Rattle.ncl_compile.specs.Compiled.{Compiled};

/// No bank of a compiled netlist holds a word at reset, so that no words are due but those offered.
pub fn holds_no_word()
    ensures { (models : List Model) (n : NetlistData) (p : PipelineData) → Compiled models n → Shape n p → data_banks p.banks ≡ 0 }
{}
