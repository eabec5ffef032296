//! Why a text is no netlist.
use ncl_base::Memory;
use ncl_netlist::BuildFault;
use thiserror::Error;

/// Why a text is no netlist. A place is that of the first byte of the first token that breaks, counted
/// from 0; the end of the text is a token at the text's length, and a bad byte one at its own place.
#[derive(Debug, Drop, Error)]
pub enum NetFault {
    /// The token may not stand there, and none of the other faults is told of it.
    #[error("syntax error at byte {0}")]
    Syntax(usize),
    /// No cell has the name.
    #[error("unknown cell at byte {0}")]
    UnknownCell(usize),
    /// The cell has no pin of the name, or it is joined already; or a pin is missing at the `)` of an
    /// instance.
    #[error("bad pins at byte {0}")]
    BadPins(usize),
    /// Verilog that is left out here: a reserved word or a mark that may not stand there, a connection by
    /// position, or a pin without a net.
    #[error("unsupported at byte {0}")]
    Unsupported(usize),
    /// The text is read whole, and what it says is no netlist.
    #[error("no netlist")]
    Build(BuildFault),
    /// Memory was refused.
    #[error("out of memory")]
    Memory,
}

impl From<Memory> for NetFault {
    ghost use Rattle.std.specs.Prelude.{◌≡◌};
    ghost use Rattle.ncl_reader.specs.declared.net_fault.NetFault.TheVariants.{Memory as OutOfMemory};

    ghost from_gives = { λ _ fault. fault ≡ OutOfMemory };

    fn from(_memory: Memory) -> NetFault {
        NetFault::Memory
    }
}
