//! For each kind of fault the smallest pipeline that shows it at a word which its inputs bring: it is refused, a run over
//! that word goes wrong, and so it isn't delay-insensitive. And one whose fault no input brings: it is refused, and
//! delay-insensitive all the same.
ghost use Rattle.std.specs.Prelude.{◌≡◌, true, false, [], ◌∷◌};
ghost use Rattle.ncl_shape.specs.Shape.{Shape};
ghost use Rattle.ncl_verdict.specs.Judgement.{judgement};
ghost use Rattle.ncl_verdict.specs.declared.verdict.Verdict.TheVariants.{BothRails, NoRail, Incomplete, Orphan};
ghost use Rattle.ncl_machine.specs.DelayInsensitive.{IsDelayInsensitive};
ghost use Rattle.ncl_refusal.specs.Reached.{GoesWrong, IsSoundWhereReached};
ghost use Rattle.ncl_faulty.specs.Examples.{with_both_rails, with_dead_rail, with_eager_and, with_orphan, twins};

/// Rail 0 of the output is a TH12 of both rails of the bit, and rail 1 is rail 1 of the bit: at 1 both are high.
pub fn both_rails()
    ensures shape { Shape with_both_rails.netlist with_both_rails }
    ensures refused { judgement 100 with_both_rails.stages ≡ BothRails 1 1 (true ∷ []) }
    ensures wrong { GoesWrong with_both_rails ((true ∷ []) ∷ []) }
    ensures not_insensitive { IsDelayInsensitive with_both_rails → ⊥ }
{}

/// Rail 0 of the output is a TH22 of both rails of the bit, which never rises: at 0 the output stays NULL.
pub fn no_rail()
    ensures shape { Shape with_dead_rail.netlist with_dead_rail }
    ensures refused { judgement 100 with_dead_rail.stages ≡ NoRail 1 1 (false ∷ []) }
    ensures wrong { GoesWrong with_dead_rail ((false ∷ []) ∷ []) }
    ensures not_insensitive { IsDelayInsensitive with_dead_rail → ⊥ }
{}

/// An AND of two bits whose rail 0 is a TH12 of their rails 0: at 00 it is DATA before the first bit is.
pub fn incomplete()
    ensures shape { Shape with_eager_and.netlist with_eager_and }
    ensures refused { judgement 100 with_eager_and.stages ≡ Incomplete 1 1 (false ∷ false ∷ []) }
    ensures wrong { GoesWrong with_eager_and ((false ∷ false ∷ []) ∷ []) }
    ensures not_insensitive { IsDelayInsensitive with_eager_and → ⊥ }
{}

/// Wires, and beside them a TH12 of both rails of the bit that nothing reads: it rises at each word, and no output waits
/// for it.
pub fn orphan()
    ensures shape { Shape with_orphan.netlist with_orphan }
    ensures refused { judgement 100 with_orphan.stages ≡ Orphan 1 (record { 0 = 6 }) (false ∷ []) }
    ensures wrong { GoesWrong with_orphan ((false ∷ []) ∷ []) }
    ensures not_insensitive { IsDelayInsensitive with_orphan → ⊥ }
{}

/// The first stage hands its bit on twice, and the second has a gate that rises where the two bits differ, which nothing
/// reads. The netlist is refused, for 01 shows that the gate is an orphan. But no input brings 01 to the second stage: at 00
/// and 11 it shows no fault, and so the pipeline is delay-insensitive.
pub fn unreached_fault()
    ensures shape { Shape twins.netlist twins }
    ensures refused { judgement 100 twins.stages ≡ Orphan 2 (record { 0 = 17 }) (false ∷ true ∷ []) }
    ensures sound_where_reached { IsSoundWhereReached twins }
    ensures insensitive { IsDelayInsensitive twins }
{}
