//! The ninth inner rule: no bank that is reset to DATA is followed by one.
ghost use Rattle.std.specs.Prelude.{◌<◌, ◌↔◌, ℕ, IsTrue, length};
ghost use Rattle.ncl_cell_rules.specs.Origin.{IsDataBank};
ghost use Rattle.ncl_shape.specs.Chain.{Follows, IsDataApart};
ghost use Rattle.ncl_shape.specs.ChainSteps.{AreOnly};

use ncl_cell_rules::Origins;
use ncl_netlist::NetId;

/// Whether the bank of a request and the bank that follows it are not both reset to DATA.
fn is_apart(origins: &Origins, followers: &[Option<NetId>], bank: NetId) -> bool
    requires inside { bank.0 < length origins.now.netlist.nets }
    requires followers { AreOnly origins.now.netlist (Follows origins.now.netlist) followers.now }
    ensures { IsTrue result ↔ ((next : ℕ) → Follows origins.now.netlist bank.0 next → IsDataBank origins.now.netlist bank.0 → IsDataBank origins.now.netlist next → ⊥) }
{
    let Some(next) = followers[bank.0 as usize] else {
        return true;
    };
    if !origins.is_data_bank(bank) {
        return true;
    }
    !origins.is_data_bank(next)
}

/// Whether no bank that is reset to DATA is followed by one. Linear in the nets.
pub(crate) fn are_data_apart(origins: &Origins, followers: &[Option<NetId>]) -> bool
    requires followers { AreOnly origins.now.netlist (Follows origins.now.netlist) followers.now }
    ensures { IsTrue result ↔ IsDataApart origins.now.netlist }
{
    for net in 0..origins.netlist().nets().len() {
        let bank = NetId(net as u32);
        if !is_apart(origins, followers, bank) {
            return false;
        }
    }
    true
}
