//! The parts of one model.
ghost use Rattle.std.specs.Prelude.{◌≡◌, ◌+◌, ◌<◌, ◌≤◌, ◌∷◌, length, take, drop, not};
ghost use Rattle.std.specs.List.{prefix_len};
ghost use Rattle.ncl_blif.specs.Parts.{begins_model, sections_of};

use crate::command::is_model;
use crate::part::Part;

/// How many of these parts are of the first model: the first part, and those up to the next that begins
/// a model.
///
/// Linear in these parts.
pub(crate) fn section_length(parts: &[Part]) -> usize
    requires { 0 < length parts.now }
    ensures cut { sections_of parts.now ≡ take result parts.now ∷ sections_of (drop result parts.now) }
    ensures some { 0 < result }
    ensures within { result ≤ length parts.now }
{
    1 + length_before_model(&parts[1..])
}

/// How many parts stand before the first that begins a model. Linear in these parts.
fn length_before_model(parts: &[Part]) -> usize
    ensures count { result ≡ prefix_len (λ part. not (begins_model part)) parts.now }
    ensures within { result ≤ length parts.now }
{
    for (count, part) in parts.iter().enumerate() {
        if is_model(part.head()) {
            return count;
        }
    }
    parts.len()
}
