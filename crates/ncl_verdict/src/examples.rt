//! Worked examples: what the judgement says of small stages.
ghost use Rattle.std.specs.Prelude.{◌≡◌, true, false, [], ◌∷◌};
ghost use Rattle.ncl_faults.specs.Examples.{and_stage, eager_and_stage, orphan_and_stage, crossed_stage, dead_rail_stage, adder_stage, sum_stage, swapped_stage, straight_stage};
ghost use Rattle.ncl_stage.specs.Tables.{count};
ghost use Rattle.ncl_faults.specs.declared.variant.Variant.TheVariants.{Base};
ghost use Rattle.ncl_verdict.specs.Judgement.{judgement};
ghost use Rattle.ncl_verdict.specs.declared.verdict.Verdict.TheVariants.{Accepted, BothRails, NoRail, Incomplete, Orphan, Limit};

/// An AND of two bits is accepted with six nodes, and with five it is not judged.
pub fn and_of_two_bits()
    ensures count { count and_stage Base ≡ 6 }
    ensures accepted { judgement 6 (and_stage ∷ []) ≡ Accepted }
    ensures limited { judgement 5 (and_stage ∷ []) ≡ Limit 1 }
{}

/// An output that is DATA before both bits are is not input-complete.
pub fn eager_and()
    ensures { judgement 100 (eager_and_stage ∷ []) ≡ Incomplete 1 1 (false ∷ false ∷ []) }
{}

/// A cell that no output observes is an orphan.
pub fn unobserved_cell()
    ensures { judgement 100 (orphan_and_stage ∷ []) ≡ Orphan 1 (record { 0 = 8 }) (true ∷ true ∷ []) }
{}

/// An output of rails of two bits can have both rails high, and one of a dead rail can have none.
pub fn rails_of_no_bit()
    ensures crossed { judgement 100 (crossed_stage ∷ []) ≡ BothRails 1 1 (true ∷ false ∷ []) }
    ensures dead { judgement 100 (dead_rail_stage ∷ []) ≡ NoRail 1 1 (false ∷ []) }
{}

/// A full adder is accepted; with the sum alone its carry is an orphan.
pub fn full_adder()
    ensures whole { judgement 100 (adder_stage ∷ []) ≡ Accepted }
    ensures sum_alone { judgement 100 (sum_stage ∷ []) ≡ Orphan 1 (record { 0 = 9 }) (false ∷ false ∷ false ∷ []) }
{}

/// A cell that no output observes, at the words 01 and 10. Which of them is the least goes by the order of the bits: where
/// the outputs are the second bit and the first it is 10, and 01 where they are the first and the second.
pub fn words_in_two_orders()
    ensures swapped { judgement 100 (swapped_stage ∷ []) ≡ Orphan 1 (record { 0 = 6 }) (true ∷ false ∷ []) }
    ensures straight { judgement 100 (straight_stage ∷ []) ≡ Orphan 1 (record { 0 = 6 }) (false ∷ true ∷ []) }
{}
