//! A worked example: a network of two nodes, and the words that it answers.
ghost use Rattle.std.specs.Prelude.{◌≡◌, true, false, [], ◌∷◌};
ghost use Rattle.ncl_network.specs.Network.{answer_of, weight_of_network, IsNetwork};
ghost use Rattle.ncl_network.specs.Examples.{half_adder};

/// The half adder is a network that models fold into. Its outputs are the carry and the sum of its inputs.
pub fn half_adder_of_two_nodes()
    ensures network { IsNetwork half_adder }
    ensures weight { weight_of_network half_adder ≡ 11 }
    ensures both { answer_of half_adder (true ∷ true ∷ []) ≡ true ∷ false ∷ [] }
    ensures first { answer_of half_adder (true ∷ false ∷ []) ≡ false ∷ true ∷ [] }
    ensures second { answer_of half_adder (false ∷ true ∷ []) ≡ false ∷ true ∷ [] }
    ensures neither { answer_of half_adder (false ∷ false ∷ []) ≡ false ∷ false ∷ [] }
{}
