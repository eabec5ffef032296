//! Worked examples of shape: what chains, what does not, and a completion tree that leaves out a bit.
ghost use Rattle.std.specs.Prelude.{[], ◌∷◌};
ghost use Rattle.ncl_cell_rules.specs.declared.fault.CellFault.TheVariants.{Loose};
ghost use Rattle.ncl_shape.specs.declared.fault.ShapeFault.TheVariants.{CellRule};
ghost use Rattle.ncl_shape.specs.Chain.{BreaksInner, HasChain, IsChain};
ghost use Rattle.ncl_shape.specs.Shape.{BreaksRule};
ghost use Rattle.ncl_shape.specs.Examples.{bit_left_out, cut, three};

/// Three banks of one bit, joined by wires, form a chain, from the bank that reads the inputs to the bank
/// that the sink asks. Cut before the last, they form none: two banks then read input ports alone.
pub fn chain_of_three()
    ensures chain { IsChain three (7 ∷ 10 ∷ 2 ∷ []) }
    ensures none { HasChain cut → ⊥ }
    ensures rule { BreaksInner cut 2 }
{}

/// Where the completion tree of a bank leaves out its second bit, the acknowledge cell of that bit, the
/// cell number 5, is the first loose cell.
pub fn tree_that_leaves_out_a_bit()
    ensures { BreaksRule bit_left_out (CellRule (Loose (record { 0 = 5 }))) }
{}
