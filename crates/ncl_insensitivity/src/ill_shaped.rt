//! Pipelines that lack one condition of shape each, and go wrong: none of these conditions can be left out. Each
//! has two banks of two bits, wires between them, and the word 11 to pass on. That they keep the other conditions
//! of shape is not stated here.
ghost use Rattle.std.specs.Prelude.{◌≡◌};
ghost use Rattle.ncl_shape.specs.declared.item.Item.TheVariants.{Lower, Raise};
ghost use Rattle.ncl_netlist.specs.Netlist.{IsNetlist, drivers_of};
ghost use Rattle.ncl_cell_rules.specs.declared.fault.CellFault.TheVariants.{Loose};
ghost use Rattle.ncl_shape.specs.declared.fault.ShapeFault.TheVariants.{CellRule};
ghost use Rattle.ncl_cell_rules.specs.Free.{AtCell};
ghost use Rattle.ncl_cell_rules.specs.Rules.{IsUnmixed};
ghost use Rattle.ncl_shape.specs.Chain.{HasOne, IsRoot};
ghost use Rattle.ncl_shape.specs.Shape.{BreaksRule};
ghost use Rattle.ncl_shape.specs.Examples.{bit_left_out};
ghost use Rattle.ncl_machine.specs.State.{reset};
ghost use Rattle.ncl_machine.specs.Run.{IsRun, after};
ghost use Rattle.ncl_machine.specs.DelayInsensitive.{IsSafe};
ghost use Rattle.ncl_insensitivity.specs.Examples.{fire};
ghost use Rattle.ncl_insensitivity.specs.IllShaped.{TakesBack, one_offered, two_offered, without_a_bit, acknowledges_one_bit, with_th12, asks_too_early, with_two_drivers, excites_both, two_roots, with_two_roots, one_bit_seen};

/// A completion tree that leaves out a bit: the acknowledge cell of the second bit is loose. The first bank
/// acknowledges without that bit, and the source lowers its rail while the register cell is still to rise.
pub fn tree_without_a_bit()
    ensures netlist { IsNetlist bit_left_out }
    ensures loose { BreaksRule bit_left_out (CellRule (Loose (record { 0 = 5 }))) }
    ensures run { IsRun without_a_bit one_offered acknowledges_one_bit }
    ensures taken_back { TakesBack without_a_bit (after without_a_bit (reset without_a_bit one_offered) acknowledges_one_bit) (Lower 1) (fire 3) }
    ensures not_safe { IsSafe without_a_bit → ⊥ }
{
    ncl_shape::examples::tree_that_leaves_out_a_bit();
}

/// A TH12 in a completion tree: the cell is of a tree, and its gate is none of TH22, TH33 and TH44. The first
/// bank asks for the next word with its first NULL bit, and the source raises a rail while the register cell
/// is still to fall.
#[tactic(auto, using(crate::proofs::IllShapedLaws::th12_netlist, crate::proofs::IllShapedLaws::th12_is_mixed))]
pub fn th12_in_a_tree()
    ensures netlist { IsNetlist with_th12.netlist }
    ensures mixed { AtCell IsUnmixed with_th12.netlist 6 → ⊥ }
    ensures run { IsRun with_th12 two_offered asks_too_early }
    ensures taken_back { TakesBack with_th12 (after with_th12 (reset with_th12 two_offered) asks_too_early) (Raise 1) (fire 3) }
    ensures not_safe { IsSafe with_th12 → ⊥ }
{}

/// Two cells that drive one net: once the one has fired, the other is no longer excited.
pub fn two_drivers_of_a_net()
    ensures driven { drivers_of with_two_drivers.netlist 10 ≡ 2 }
    ensures run { IsRun with_two_drivers one_offered excites_both }
    ensures taken_back { TakesBack with_two_drivers (after with_two_drivers (reset with_two_drivers one_offered) excites_both) (fire 6) (fire 14) }
    ensures not_safe { IsSafe with_two_drivers → ⊥ }
{}

/// A bank with two roots: the source goes by the one that tells of the first bit alone, and lowers the rail of
/// the second while its register cell is still to rise.
#[tactic(auto, using(crate::proofs::IllShapedLaws::two_roots_netlist, crate::proofs::IllShapedLaws::roots_are_two))]
pub fn two_roots_of_a_bank()
    ensures netlist { IsNetlist two_roots }
    ensures roots { HasOne (IsRoot two_roots 12) → ⊥ }
    ensures run { IsRun with_two_roots one_offered one_bit_seen }
    ensures taken_back { TakesBack with_two_roots (after with_two_roots (reset with_two_roots one_offered) one_bit_seen) (Lower 1) (fire 3) }
    ensures not_safe { IsSafe with_two_roots → ⊥ }
{}
