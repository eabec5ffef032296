//! The laws of the values of a stage. Each function states some, and does nothing.
ghost use Rattle.std.specs.Prelude.{◌≡◌, ◌^◌, ℕ, Bool, false, List, [], ◌∷◌, All, Contains, length, map};
ghost use Rattle.std.specs.List.{range_with_len};
ghost use Rattle.ncl_shape.specs.Nets.{IsBelow};
ghost use Rattle.ncl_shape.specs.Stage.{StageData, IsStage, rail_nets, nets_of, out_of};
ghost use Rattle.ncl_space.specs.Table.{word_number, words};
ghost use Rattle.ncl_stage.specs.BitOrder.{IsOrderOf, bit_order, taken, words_by};
ghost use Rattle.ncl_faults.specs.declared.variant.Variant.{Variant};
ghost use Rattle.ncl_faults.specs.declared.variant.Variant.TheVariants.{Base};
ghost use Rattle.ncl_faults.specs.Values.{kept_low, rises, start, val};
ghost use Rattle.ncl_faults.specs.Pass.{pass};
ghost use Rattle.ncl_faults.specs.Faults.{IsSound, IsWordOf};
ghost use Rattle.ncl_stage.specs.Supports.{AgreeOn, AreSupports, Marks};
ghost use Rattle.ncl_stage.specs.Observed.{AreObserved, HasValidRails};
ghost use Rattle.ncl_faults.specs.Examples.{and_stage, eager_and_stage, orphan_and_stage, crossed_stage, dead_rail_stage, adder_stage, sum_stage, swapped_stage, straight_stage, unmet_stage};

/// A rail of the inputs is high exactly where the word names it and the variant doesn't keep it low.
pub fn rails_are_named()
    ensures { (s : StageData) (word : List Bool) (variant : Variant) → IsStage s → All (λ net. val s word variant net ≡ start s (kept_low s variant) word net) (rail_nets s.inputs) }
{}

/// The output of a cell is high exactly where its set function holds at the values and the variant
/// doesn't keep it low.
pub fn outputs_are_set()
    ensures { (s : StageData) (word : List Bool) (variant : Variant) → IsStage s → All (λ cell. val s word variant (out_of cell) ≡ rises (kept_low s variant) (val s word variant) cell) s.cells }
{}

/// A net that is no net of the stage is low.
pub fn other_nets_are_low()
    ensures { (s : StageData) (word : List Bool) (variant : Variant) (net : ℕ) → (Contains (nets_of s.inputs s.cells) net → ⊥) → val s word variant net ≡ false }
{}

/// No variant raises a net that Base leaves low.
pub fn variants_are_below_base()
    ensures { (s : StageData) (word : List Bool) (variant : Variant) → IsBelow (val s word variant) (val s word Base) }
{}

/// Evaluating each cell once, in the stage's order, gives the values.
pub fn one_pass_is_enough()
    ensures { (s : StageData) (word : List Bool) (variant : Variant) (net : ℕ) → IsStage s → pass (kept_low s variant) s.cells (start s (kept_low s variant) word) net ≡ val s word variant net }
{}

/// Where each output has one high rail under Base, and each net that is high is a rail of an output or makes some gate fall
/// that reads it, the stage is sound: no forced net need be followed further than to the gates that read it.
pub fn observed_is_sound()
    ensures { (s : StageData) → IsStage s → HasValidRails s → AreObserved s → IsSound s }
{}

/// And back: in a sound stage each net that is high is a rail of an output, or makes some gate fall that reads it.
pub fn sound_is_observed()
    ensures { (s : StageData) → IsStage s → IsSound s → AreObserved s }
{}

/// Where two words agree on the bits on which a net depends, through the rails and cells that lead to it, the net has one
/// value at both, under every variant.
pub fn supports_tell_values()
    ensures { (s : StageData) → IsStage s → (marks : Marks) → AreSupports s marks → (variant : Variant) (v w : List Bool) → IsWordOf s v → IsWordOf s w → (net : ℕ) → Contains (nets_of s.inputs s.cells) net → AgreeOn (marks net) v w → val s v variant net ≡ val s w variant net }
{}

/// Each bit of a stage stands in its bit order once.
pub fn each_bit_stands_once()
    ensures { (s : StageData) → IsOrderOf (length s.inputs) (bit_order s) }
{}

/// The words stand in an order as the numbers that their bits, taken in the order, make: the first bit is the most
/// significant. In ascending order they are all words as they stand.
pub fn words_are_in_order()
    ensures numbers { (n : ℕ) (order : List ℕ) → IsOrderOf n order → map (λ word. word_number (taken order word)) (words_by order) ≡ range_with_len 0 (2 ^ n) }
    ensures ascending { (n : ℕ) → words_by (range_with_len 0 n) ≡ words n }
{}

/// The bits of a full adder stand in the order of the bank. Where two outputs are wires from the second bit and the
/// first, the second stands first. A bit that no output reads comes after those that some output does.
pub fn example_orders()
    ensures adder { bit_order adder_stage ≡ 0 ∷ 1 ∷ 2 ∷ [] }
    ensures swapped { bit_order swapped_stage ≡ 1 ∷ 0 ∷ [] }
    ensures unmet { bit_order unmet_stage ≡ 1 ∷ 0 ∷ 2 ∷ [] }
{}

/// The worked examples are stages.
pub fn examples_are_stages()
    ensures and_of_two { IsStage and_stage }
    ensures eager_and { IsStage eager_and_stage }
    ensures unobserved_cell { IsStage orphan_and_stage }
    ensures crossed { IsStage crossed_stage }
    ensures dead_rail { IsStage dead_rail_stage }
    ensures adder { IsStage adder_stage }
    ensures sum { IsStage sum_stage }
    ensures swapped { IsStage swapped_stage }
    ensures straight { IsStage straight_stage }
    ensures unmet { IsStage unmet_stage }
{}
