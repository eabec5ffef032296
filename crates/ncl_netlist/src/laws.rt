//! The laws of netlists. Each function states one, and does nothing.
ghost use Rattle.std.specs.Prelude.{◌≡◌};
ghost use Rattle.ncl_netlist.specs.Netlist.{NetlistData, IsNetlist};
ghost use Rattle.ncl_netlist.specs.Parts.{netlist_of, parts_said};
ghost use Rattle.ncl_netlist.specs.Faults.{IsFaultless};

/// The parts that say a netlist break no rule, and describe that netlist.
pub fn said_again()
    ensures same { (n : NetlistData) → IsNetlist n → netlist_of (parts_said n) ≡ n }
    ensures faultless { (n : NetlistData) → IsNetlist n → IsFaultless (parts_said n) }
{}
