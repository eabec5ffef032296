//! Pipelines whose one stage breaks one condition of soundness each, and keeps the others, and that go wrong. That
//! their netlists keep the rules of shape is not stated here.
ghost use Rattle.std.specs.Prelude.{◌≡◌, true, false, [], ◌∷◌};
ghost use Rattle.ncl_faults.specs.Faults.{BothRails, NoRail, Incomplete, Orphan};
ghost use Rattle.ncl_machine.specs.Run.{IsQuiet};
ghost use Rattle.ncl_machine.specs.DelayInsensitive.{DeliversInTime, DeliversWhatIsDue, IsDelayInsensitive, IsSafe};
ghost use Rattle.ncl_insensitivity.specs.Examples.{fire, one_word};
ghost use Rattle.ncl_insensitivity.specs.IllShaped.{TakesBack};
ghost use Rattle.ncl_insensitivity.specs.Unsound.{IsCounterexample, after_run, orphan_stage, with_orphan, leaves_a_gate_behind, dead_stage, with_dead_rail, one_zero, gets_stuck, illegal_stage, with_both_rails, delivers_both_rails, eager_stage, with_eager_and, two_zeros, delivers_too_early};

/// A stage that doesn't need all its inputs: an AND whose output is 0 as soon as one bit is. A word is taken
/// before the source has raised it all, and so too early.
pub fn incomplete_stage()
    ensures counterexample { IsCounterexample with_eager_and eager_stage (Incomplete 0) two_zeros delivers_too_early }
    ensures too_early { DeliversInTime with_eager_and (after_run with_eager_and two_zeros delivers_too_early) → ⊥ }
    ensures not_safe { IsSafe with_eager_and → ⊥ }
{}

/// A stage with an orphan, a gate that nothing observes: a word goes through both banks while the gate is still
/// to rise, and the NULL behind it takes the gate's excitation away.
pub fn orphan_in_a_stage()
    ensures counterexample { IsCounterexample with_orphan orphan_stage (Orphan 0) one_word leaves_a_gate_behind }
    ensures taken_back { TakesBack with_orphan (after_run with_orphan one_word leaves_a_gate_behind) (fire 1) (fire 3) }
    ensures not_safe { IsSafe with_orphan → ⊥ }
{}

/// A stage with an output of which both rails rise: what is taken has both, and is no word.
pub fn both_rails_of_an_output()
    ensures counterexample { IsCounterexample with_both_rails illegal_stage (BothRails 0) one_word delivers_both_rails }
    ensures delivered { (after_run with_both_rails one_word delivers_both_rails).delivered ≡ record { rail0 = true ∷ true ∷ []; rail1 = true ∷ false ∷ [] } ∷ [] }
    ensures not_due { DeliversWhatIsDue with_both_rails one_word (after_run with_both_rails one_word delivers_both_rails) → ⊥ }
    ensures not_safe { IsSafe with_both_rails → ⊥ }
{}

/// A stage with an output of which at some word no rail rises: the word never leaves the first bank. Nothing can
/// move, and nothing is delivered.
pub fn no_rail_of_an_output()
    ensures counterexample { IsCounterexample with_dead_rail dead_stage (NoRail 0) one_zero gets_stuck }
    ensures quiet { IsQuiet with_dead_rail (after_run with_dead_rail one_zero gets_stuck) }
    ensures nothing { (after_run with_dead_rail one_zero gets_stuck).delivered ≡ [] }
    ensures not_insensitive { IsDelayInsensitive with_dead_rail → ⊥ }
{}
