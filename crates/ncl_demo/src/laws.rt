//! The law of the demo: its models add.
ghost use Rattle.std.specs.Prelude.{◌+◌, ◌<◌, ◌^◌, ℕ, List};
ghost use Rattle.ncl_blif.specs.declared.model.Model.{Model};
ghost use Rattle.ncl_blif.specs.Meaning.{Computes};
ghost use Rattle.ncl_demo.specs.Adder.{IsAdder};
ghost use Rattle.ncl_demo.specs.Offered.{in_turn, carry_and_sums};

/// At the bits of two numbers, in turn, the models of an adder compute the bits of the sum: the carry, which is the
/// most significant, and then the others, the least significant first.
pub fn demo_adds()
    ensures { (bits a b : ℕ) (models : List Model) → 0 < bits → IsAdder bits models → a < 2 ^ bits → b < 2 ^ bits
        → Computes models (in_turn bits a b) (carry_and_sums bits (a + b)) }
{}
