//! Tables of nets in which each entry is written once.
ghost use Rattle.std.specs.Prelude.{◌≡◌, ◌<◌, IsTrue, IsFalse, None, Some, length, set};
ghost use Rattle.ncl_shape.specs.ChainSteps.{net_at};

use ncl_netlist::NetId;

/// Puts a net down at an entry that is free, and tells whether it was.
pub(crate) fn put_once(table: &mut [Option<NetId>], entry: NetId, net: NetId) -> bool
    requires { entry.0 < length table.old }
    ensures free { IsTrue result → net_at table.old entry.0 ≡ None }
    ensures put { IsTrue result → table.new ≡ set table.old entry.0 (Some net) }
    ensures taken { IsFalse result → (other : NetId) × (net_at table.old entry.0 ≡ Some other) }
{
    if table[entry.0 as usize].is_some() {
        return false;
    }
    table[entry.0 as usize] = Some(net);
    true
}
