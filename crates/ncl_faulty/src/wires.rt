//! Two banks joined by wires: the smallest pipeline, which has no fault.
ghost use Rattle.std.specs.Prelude.{All};
ghost use Rattle.ncl_netlist.specs.Netlist.{IsNetlist};
ghost use Rattle.ncl_shape.specs.Examples.{wires, wires_pipeline};
ghost use Rattle.ncl_shape.specs.Shape.{Shape};
ghost use Rattle.ncl_faults.specs.Faults.{IsSound};
ghost use Rattle.ncl_machine.specs.DelayInsensitive.{IsDelayInsensitive};

/// Two banks joined by wires are a netlist, and they have the shape of a linear pipeline of two banks of
/// one bit, whose one stage has no gates.
pub fn have_a_shape()
    ensures netlist { IsNetlist wires }
    ensures shape { Shape wires wires_pipeline }
{}

/// Two banks joined by wires are delay-insensitive: the stage of wires between them is sound.
pub fn are_delay_insensitive()
    ensures sound { All IsSound wires_pipeline.stages }
    ensures insensitive { IsDelayInsensitive wires_pipeline }
{
    have_a_shape();
}
