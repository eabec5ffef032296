//! The first rule of shape: each input port is read.
ghost use Rattle.std.specs.Prelude.{ℕ, ◌<◌, MatchOption};
ghost use Rattle.ncl_cell_rules.specs.Rules.{IsReadPort};
ghost use Rattle.ncl_cell_rules.specs.Free.{FailsFirst};
ghost use Rattle.ncl_cell_rules.specs.Tables.{AreReads};

use ncl_netlist::{NetId, Netlist};

/// The first input port that no pin reads. Linear in the ports.
pub(crate) fn first_unread(netlist: &Netlist, reads: &[bool]) -> Option<NetId>
    requires { AreReads netlist.now reads.now }
    ensures { MatchOption result ((net : ℕ) → IsReadPort netlist.now net) (λ net. FailsFirst (IsReadPort netlist.now) net.0) }
{
    for (net, port) in netlist.ports().iter().enumerate() {
        if !port.output && !reads[net] {
            return Some(NetId(net as u32));
        }
    }
    None
}
