//! The functions of the rails of the inputs in a space.
ghost use Rattle.std.specs.Prelude.{◌≡◌, ◌≢◌, ◌<◌, ◌||◌, All, AllPairs, OnOk, IsErrOf, false, length};
ghost use Rattle.ncl_shape.specs.declared.rails.Rails.{Rails};
ghost use Rattle.ncl_shape.specs.Stage.{rail_nets};
ghost use Rattle.ncl_space.specs.Space.{Keeps, fits};
ghost use Rattle.ncl_match.specs.Inputs.{HaveInputs, input_tables, is_needed};
ghost use Rattle.ncl_match.specs.Pairs.{IsPair};
ghost use Rattle.ncl_match.specs.Turns.{gathered};

use crate::pair::{Pair, rail_pair};
use ncl_shape::Rails;
use ncl_space::{Space, SpaceFault};

/// Makes the functions of the rails of the bits one of whose rails is marked.
///
/// Linear in the bits, with one function and its complement for each of them. `Full` comes exactly where the beads held
/// with those of all these are more than the limit. What is made before a refusal stays.
pub(crate) fn input_pairs<P: Space>(
    space: &mut P,
    inputs: &[Rails],
    marks: &[bool],
    pairs: &mut [Pair],
) -> Result<(), SpaceFault>
    requires width { (P.meaning space.old).width ≡ length inputs.now }
    requires differ { AllPairs (λ x y. x ≢ y) (rail_nets inputs.now) }
    requires zeros { All (λ (r : Rails). r.zero.0 < length pairs.old) inputs.now }
    requires ones { All (λ (r : Rails). r.one.0 < length pairs.old) inputs.now }
    requires marks { length marks.now ≡ length pairs.old }
    requires pairs { All (IsPair (P.meaning space.old)) pairs.old }
    ensures have { OnOk result (HaveInputs (P.meaning space.old) (P.meaning space.new) inputs.now marks.now pairs.new (length inputs.now)) }
    ensures pairs { OnOk result (All (IsPair (P.meaning space.new)) pairs.new) }
    ensures kept { Keeps (P.meaning space.old) (P.meaning space.new) }
    ensures full { let s = P.meaning space.old in IsErrOf result SpaceFault.Full → fits s (gathered (input_tables s.width inputs.now marks.now) (length inputs.now)) ≡ false }
{
    space.facts();
    for bit in 0..inputs.len() {
        let rails = inputs[bit];
        if is_needed(marks, rails) {
            let made = rail_pair(space, bit)?;
            pairs[rails.zero.0 as usize] = made.swapped();
            pairs[rails.one.0 as usize] = made;
        }
    }
    Ok(())
}

/// Whether one of two rails is marked. Takes no memory.
fn is_needed(marks: &[bool], rails: Rails) -> bool
    requires zero { rails.zero.0 < length marks.now }
    requires one { rails.one.0 < length marks.now }
    ensures { result ≡ is_needed marks.now rails }
{
    marks[rails.zero.0 as usize] || marks[rails.one.0 as usize]
}
