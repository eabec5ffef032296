//! Worked examples: a word goes through two banks joined by wires, and on its way two items may happen in either
//! order. The AND of two bits is a sound stage. A word that goes through a chain of gates takes nearly as many steps
//! as the bound on runs allows. A word that a bank holds at reset is delivered before the one that is offered.
ghost use Rattle.std.specs.Prelude.{◌≡◌, ◌≢◌, ◌+◌, ◌*◌, true, false, [], ◌∷◌, length};
ghost use Rattle.ncl_shape.specs.declared.item.Item.TheVariants.{Lower};
ghost use Rattle.ncl_netlist.specs.Netlist.{IsNetlist};
ghost use Rattle.ncl_shape.specs.Examples.{wires, wires_pipeline};
ghost use Rattle.ncl_shape.specs.Stage.{IsStage};
ghost use Rattle.ncl_shape.specs.Closure.{function_of};
ghost use Rattle.ncl_shape.specs.Held.{data_banks};
ghost use Rattle.ncl_faults.specs.Examples.{and_stage};
ghost use Rattle.ncl_faults.specs.Faults.{IsSound};
ghost use Rattle.ncl_machine.specs.Run.{IsRun, IsQuiet, IsPersistent};
ghost use Rattle.ncl_machine.specs.Steps.{enabled};
ghost use Rattle.ncl_machine.specs.DelayInsensitive.{due};
ghost use Rattle.ncl_insensitivity.specs.Examples.{fire, one_word, through_wires, where_two_may_move, at_the_end, chain, chain_stage, chain_pipeline, through_chain, where_the_chain_rests, holding, holding_pipeline, zero_word, through_holding, where_holding_rests};

/// A word goes through two banks joined by wires in twelve steps: it is delivered unchanged in
/// dual-rail form, and then nothing can move. The bound on runs is twenty steps.
pub fn word_through_wires()
    ensures run { IsRun wires_pipeline one_word through_wires }
    ensures delivered { at_the_end.delivered ≡ record { rail0 = false ∷ []; rail1 = true ∷ [] } ∷ [] }
    ensures function { function_of wires_pipeline (true ∷ []) ≡ true ∷ [] }
    ensures quiet { IsQuiet wires_pipeline at_the_end }
    ensures steps { length through_wires ≡ 12 }
    ensures bound { 2 * length one_word * length wires.nets ≡ 20 }
{}

/// On the way of that word, after three steps, two items are enabled at once: the source may lower its
/// rail, and the second bank may pass it on. Neither takes the other back: the state is persistent.
pub fn two_that_may_move()
    ensures lowers { enabled wires_pipeline where_two_may_move (Lower 0) ≡ true }
    ensures fires { enabled wires_pipeline where_two_may_move (fire 4) ≡ true }
    ensures differ { Lower 0 ≢ fire 4 }
    ensures persistent { IsPersistent wires_pipeline where_two_may_move }
{}

/// The AND of two bits, with a TH22 for rail 1 and a THand0 for rail 0, is a sound stage, as the laws of
/// rising and falling ask.
pub fn and_of_two_is_sound()
    ensures { IsSound and_stage }
{}

/// The bound on runs is nearly reached: one word goes through two banks with a chain of four gates between them
/// in 20 steps, where twice the words times the nets is 28. The stage is sound, and at the end nothing can move.
pub fn word_through_a_chain()
    ensures netlist { IsNetlist chain }
    ensures stage { IsStage chain_stage }
    ensures sound { IsSound chain_stage }
    ensures run { IsRun chain_pipeline one_word through_chain }
    ensures steps { length through_chain ≡ 20 }
    ensures bound { 2 * length one_word * length chain.nets ≡ 28 }
    ensures quiet { IsQuiet chain_pipeline where_the_chain_rests }
{}

/// Where the second of three banks joined by wires holds the word 1 at reset and the word 0 is offered, these two are
/// due in this order, and so they are delivered, in 24 steps, after which nothing can move. The bound on runs is 52.
pub fn held_word_goes_first()
    ensures due { due holding_pipeline zero_word ≡ (true ∷ []) ∷ (false ∷ []) ∷ [] }
    ensures run { IsRun holding_pipeline zero_word through_holding }
    ensures delivered { where_holding_rests.delivered ≡ record { rail0 = false ∷ []; rail1 = true ∷ [] } ∷ record { rail0 = true ∷ []; rail1 = false ∷ [] } ∷ [] }
    ensures quiet { IsQuiet holding_pipeline where_holding_rests }
    ensures steps { length through_holding ≡ 24 }
    ensures bound { 2 * (data_banks holding_pipeline.banks + length zero_word) * length holding.nets ≡ 52 }
{}
