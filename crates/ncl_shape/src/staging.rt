//! The stages between the banks.
ghost use Rattle.std.specs.Prelude.{◌≡◌, ◌≤◌, IfOk, length, map};
ghost use Rattle.std.specs.List.{AllZip};
ghost use Rattle.ncl_netlist.specs.Netlist.{IsNetlist};
ghost use Rattle.ncl_cell_rules.specs.Free.{IsFree};
ghost use Rattle.ncl_shape.specs.declared.bank.TheConstants.{MOST_BANKS};
ghost use Rattle.ncl_shape.specs.declared.bank.Bank.{Bank};
ghost use Rattle.ncl_shape.specs.Chain.{Follows, IsPath};
ghost use Rattle.ncl_shape.specs.FoundParts.{AreGatesOf, AreStagesOf, IsFewBitBank};
ghost use Rattle.ncl_shape.specs.Shape.{IsStageOf};

use crate::bank::Bank;
use crate::rail_lists::rails_on;
use crate::rails::Side;
use crate::stage::{Stage, StageCell};
use ncl_base::{Items, Memory};
use ncl_netlist::Netlist;
use std::alloc::Global;

/// The stage between a bank and the next, of the gate cells that read the rails of the bank. Linear in the bits of
/// both.
fn stage_between(
    alloc: Global,
    netlist: &Netlist,
    bank: &Bank,
    next: &Bank,
    number: u32,
    cells: Vec<StageCell>,
) -> Result<Stage, Memory>
    requires netlist { IsNetlist netlist.now }
    requires free { IsFree netlist.now }
    requires bank { IsFewBitBank netlist.now bank.now.request.0 bank.now }
    requires next { IsFewBitBank netlist.now next.now.request.0 next.now }
    requires follows { Follows netlist.now bank.now.request.0 next.now.request.0 }
    requires cells { AreGatesOf netlist.now bank.now.request.0 cells.items }
    ensures number { IfOk result (λ stage. stage.number ≡ number) }
    ensures stage { IfOk result (IsStageOf netlist.now bank.now next.now) }
{
    let inputs = rails_on(alloc, netlist, bank.bits.items(), Side::Driven)?;
    let outputs = rails_on(alloc, netlist, next.bits.items(), Side::Read)?;
    Ok(Stage::new(number, inputs, Items::from_vec(cells), outputs))
}

/// The stages between some banks, from the gate cells that read the rails of each; those of the last, which has no
/// stage after it, are left. Linear in banks and bits.
pub(crate) fn stages_between(
    alloc: Global,
    netlist: &Netlist,
    banks: &[Bank],
    gates: Vec<Vec<StageCell>>,
) -> Result<Vec<Stage>, Memory>
    requires netlist { IsNetlist netlist.now }
    requires free { IsFree netlist.now }
    requires banks { AllZip (IsFewBitBank netlist.now) (map (λ (b : Bank). b.request.0) banks.now) banks.now }
    requires path { IsPath netlist.now (map (λ (b : Bank). b.request.0) banks.now) }
    requires few { length banks.now ≤ MOST_BANKS }
    requires gates { AllZip (AreGatesOf netlist.now) (map (λ (b : Bank). b.request.0) banks.now) (map (λ l. l.items) gates.items) }
    ensures { IfOk result (λ stages. AreStagesOf netlist.now banks.now stages.items) }
{
    let mut stages = Vec::with_capacity(alloc, banks.len())?;
    for cells in gates {
        let k = stages.len();
        if k + 1 < banks.len() {
            let number = k as u32 + 1;
            let stage = stage_between(alloc, netlist, &banks[k], &banks[k + 1], number, cells)?;
            stages.push(stage)?;
        }
    }
    Ok(stages)
}
