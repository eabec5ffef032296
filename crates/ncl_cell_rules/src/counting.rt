//! On how many pins a net is.
ghost use Rattle.std.specs.Prelude.{◌≡◌, ℕ, ◌+◌, ◌<◌, ◌≤◌, ◌^◌, All, length, slice_index};
ghost use Rattle.ncl_netlist.specs.declared.ids.NetId.{NetId};
ghost use Rattle.ncl_cell_rules.specs.Rules.{pins_with};

use ncl_netlist::NetId;

/// Adds to the count of each net how many of some pins have it. Linear in the pins.
pub fn count_pins(counts: &mut [u32], pins: &[NetId])
    requires fit { All (λ (net : NetId). net.0 < length counts.old) pins.now }
    requires few { length pins.now ≤ 4 }
    requires room { (net : ℕ) → slice_index counts.old net + 4 < 2 ^ 32 }
    ensures { (net : ℕ) → net < length counts.old → slice_index counts.new net
        ≡ slice_index counts.old net + pins_with net pins.now }
{
    for net in pins {
        counts[net.0 as usize] += 1;
    }
}
