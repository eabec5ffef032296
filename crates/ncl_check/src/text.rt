//! The bytes of a file, as the text of a pipeline.
ghost use Rattle.std.specs.Prelude.{◌≡◌, ◌≢◌, ℕ, List, IfOk, IfErr, codes};
ghost use Rattle.ncl_reader.specs.declared.net_fault.NetFault.TheVariants.{Memory as OutOfMemory};
ghost use Rattle.ncl_shape.specs.Shape.{Shape, IsShapeFault};
ghost use Rattle.ncl_lines.specs.Line.{line};
ghost use Rattle.ncl_lines.specs.NetText.{net_line};
ghost use Rattle.ncl_check.specs.Text.{IsNetlistText, IsRefusedText, IsShapeless};
ghost use Rattle.ncl_check.specs.Refusals.{TellsLine};

use ncl_base::{MOST_BYTES, Memory};
use ncl_lines::{net_text, shape_text};
use ncl_netlist::Netlist;
use ncl_reader::{NetFault, read_netlist};
use ncl_shape::{Pipeline, ShapeFault, shape};
use std::alloc::Global;

/// Why bytes are the text of no pipeline.
#[derive(Debug, Drop)]
pub enum Refusal {
    /// This line tells it.
    Told(Vec<u8>),
    /// Memory was refused.
    Memory,
}

impl Refusal {
    /// The refusal that tells a line, once that is made.
    pub fn of(made: Result<Vec<u8>, Memory>) -> Refusal
        ensures { (line : List ℕ) → IfOk made (λ text. text.items ≡ line) → TellsLine (λ text. text ≡ line) result }
    {
        match made {
            Ok(text) => Refusal::Told(text),
            Err(Memory) => Refusal::Memory,
        }
    }
}

/// The netlist of which the bytes are the text, or the line that tells the first thing that keeps them from being one.
///
/// Costs as reading does: near linear in the bytes. The one other error is want of memory.
pub fn netlist_in(alloc: Global, bytes: &[u8]) -> Result<Netlist, Refusal>
    ensures netlist { IfOk result (λ n. IsNetlistText bytes.now n) }
    ensures refused { IfErr result (TellsLine (IsRefusedText bytes.now)) }
{
    if bytes.len() > MOST_BYTES {
        return Err(too_long(alloc));
    }
    match read_netlist(alloc, bytes) {
        Ok(netlist) => Ok(netlist),
        Err(fault) => Err(unread(alloc, fault)),
    }
}

/// The pipeline whose shape a netlist has, or the line that tells the first rule of shape that it breaks.
///
/// Costs as finding the shape does: linear in nets, cells and pins. The one other error is want of memory.
pub fn pipeline_in<'a>(alloc: Global, netlist: &'a Netlist) -> Result<Pipeline<'a>, Refusal>
    ensures pipeline { IfOk result (λ p. Shape netlist.now p) }
    ensures refused { IfErr result (TellsLine (IsShapeless netlist.now)) }
{
    match shape(alloc, netlist) {
        Ok(pipeline) => Ok(pipeline),
        Err(fault) => Err(no_shape(alloc, netlist, fault)),
    }
}

/// The line for more bytes than are read.
fn too_long(alloc: Global) -> Refusal
    ensures { TellsLine (λ text. text ≡ line (codes "netlist: too long")) result }
{
    match Vec::from_slice(alloc, b"netlist: too long\n") {
        Ok(text) => Refusal::Told(text),
        Err(_) => Refusal::Memory,
    }
}

/// The line for a text that is no netlist.
fn unread(alloc: Global, fault: NetFault) -> Refusal
    ensures { TellsLine (λ text. (fault ≢ OutOfMemory) × (text ≡ net_line fault)) result }
{
    match fault {
        NetFault::Memory => Refusal::Memory,
        fault => Refusal::of(net_text(alloc, &fault)),
    }
}

/// The line for a netlist that has no shape.
fn no_shape(alloc: Global, netlist: &Netlist, fault: ShapeFault) -> Refusal
    requires { IsShapeFault netlist.now fault }
    ensures { TellsLine (IsShapeless netlist.now) result }
{
    // The cells come with the facts of a netlist.
    let _ = netlist.cells();
    match fault {
        ShapeFault::Memory => Refusal::Memory,
        fault => Refusal::of(shape_text(alloc, netlist, &fault)),
    }
}
