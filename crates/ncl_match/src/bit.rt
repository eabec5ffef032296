//! The comparison of two functions in a space.
ghost use Rattle.std.specs.Prelude.{◌≡◌, ◌-◌, ℕ, List, true, false, All, IfOk, IsErrOf, length};
ghost use Rattle.ncl_blif.specs.Model.{IsModel};
ghost use Rattle.ncl_blif.specs.declared.model.Model.{Model};
ghost use Rattle.ncl_space.specs.Functions.{least};
ghost use Rattle.ncl_space.specs.Table.{table_of, words};
ghost use Rattle.ncl_match.specs.Answer.{IsBitAnswer, IsOver};
ghost use Rattle.ncl_match.specs.Circuit.{Circuit};
ghost use Rattle.ncl_match.specs.Listed.{AreCompared};
ghost use Rattle.ncl_space.specs.Space.{IsLive, Keeps, fits};
ghost use Rattle.ncl_match.specs.Difference.{apart_function, apart_tables, without};
ghost use Rattle.ncl_match.specs.Pairs.{IsPair, MakesPair, WordFunction, both_tables, function_at};

use crate::answer::BitAnswer;
use crate::pair::{Pair, gate_pair};
use ncl_base::Word;
use ncl_gates::Kind;
use ncl_space::{Ref, Space, SpaceFault};

/// The words at which the first of two functions is 1 and the second isn't.
fn without_pair<P: Space>(space: &mut P, f: Pair, g: Pair) -> Result<Pair, SpaceFault>
    requires f { IsPair (P.meaning space.old) f }
    requires g { IsPair (P.meaning space.old) g }
    ensures made { let s = P.meaning space.old in let h = without (function_at s f) (function_at s g) in
        IfOk result (λ p. MakesPair s (P.meaning space.new) p h (both_tables s.width h)) }
    ensures kept { Keeps (P.meaning space.old) (P.meaning space.new) }
    ensures full { let s = P.meaning space.old in let h = without (function_at s f) (function_at s g) in
        IsErrOf result SpaceFault.Full → fits s (both_tables s.width h) ≡ false }
{
    space.facts();
    gate_pair(space, Kind::Th22, &[f, g.swapped()])
}

/// Where two functions differ. It makes each without the other, and where either holds, with the complements.
///
/// `Full` comes exactly where the beads held with those of the six tables are more than the limit. What is made
/// before a refusal stays.
pub(crate) fn apart<P: Space>(space: &mut P, f: Pair, g: Pair) -> Result<Pair, SpaceFault>
    requires f { IsPair (P.meaning space.old) f }
    requires g { IsPair (P.meaning space.old) g }
    ensures made { let s = P.meaning space.old in
        IfOk result (λ p. MakesPair s (P.meaning space.new) p (apart_function (function_at s f) (function_at s g)) (apart_tables s.width (function_at s f) (function_at s g))) }
    ensures kept { Keeps (P.meaning space.old) (P.meaning space.new) }
    ensures full { let s = P.meaning space.old in
        IsErrOf result SpaceFault.Full → fits s (apart_tables s.width (function_at s f) (function_at s g)) ≡ false }
{
    let less = without_pair(space, f, g)?;
    let more = without_pair(space, g, f)?;
    let either = gate_pair(space, Kind::Th12, &[less, more])?;
    Ok(either)
}

/// The answer to an output whose tables don't pass the limit, by the function of where the netlist and the models differ.
///
/// Takes no memory.
pub(crate) fn told<P: Space>(space: &P, apart: Pair) -> BitAnswer
    requires { IsLive (P.meaning space.now) apart.one }
    ensures { (c : Circuit) (models : List Model) (limit output : ℕ) (f g : WordFunction) → All IsModel models → AreCompared c models (output - 1) f g → (P.meaning space.now).width ≡ length c.inputs
        → (P.meaning space.now).table apart.one ≡ table_of (words (length c.inputs)) (apart_function f g) → (IsOver c models limit output → ⊥) → IsBitAnswer c models limit output result }
{
    match least_word(space, apart.one) {
        Some(word) => BitAnswer::Differ(word),
        None => BitAnswer::Same,
    }
}

/// The least word at which a function is 1, if there is one. Takes no memory.
fn least_word<P: Space>(space: &P, function: Ref) -> Option<Word>
    requires { IsLive (P.meaning space.now) function }
    ensures { let s = P.meaning space.now in result ≡ least true s.width (s.table function) }
{
    let mut word = Word::new();
    if space.least_one(function, &mut word) {
        Some(word)
    } else {
        None
    }
}
