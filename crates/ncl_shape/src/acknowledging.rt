//! The fifth inner rule: the request of each bank but the last is the acknowledge of the next.
ghost use Rattle.std.specs.Prelude.{◌↔◌, IsTrue};
ghost use Rattle.ncl_cell_rules.specs.Free.{IsFree};
ghost use Rattle.ncl_shape.specs.Chain.{HasEnds, IsAcknowledged, IsChain};
ghost use Rattle.ncl_shape.specs.ChainSteps.{numbers_of};

use ncl_cell_rules::{Origins, Source, same_source};
use ncl_netlist::NetId;

/// Whether the request of each bank comes from the acknowledge cells of the next. That of the last is then the one
/// that is an input port. Linear in the banks.
pub(crate) fn is_acknowledged(origins: &Origins, banks: &[NetId]) -> bool
    requires free { IsFree origins.now.netlist }
    requires ends { HasEnds origins.now.netlist }
    requires chain { IsChain origins.now.netlist (numbers_of banks.now) }
    ensures { IsTrue result ↔ IsAcknowledged origins.now.netlist (numbers_of banks.now) }
{
    origins.facts();
    for next in 1..banks.len() {
        if !same_source(origins.source(banks[next - 1]), Source::Ack(banks[next])) {
            return false;
        }
    }
    true
}
