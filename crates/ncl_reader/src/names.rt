//! Names and bits of vectors.
ghost use Rattle.std.specs.Prelude.{List};
ghost use Rattle.std.specs.Bool.{Decides};
ghost use Rattle.ncl_reader.specs.Lexemes.{Lexeme};
ghost use Rattle.ncl_reader.specs.Vectors.{IsBit};
ghost use Rattle.ncl_reader.specs.Ranges.{IsRanges};

use crate::bit::bit_of;
use crate::ranges::Ranges;

/// Whether a name is that of a bit of a vector that is declared. Linear in the name, and a look-up of O(log n)
/// comparisons.
pub(crate) fn is_bit(ranges: &Ranges, name: &[u8]) -> bool
    ensures { (xs : List Lexeme) → IsRanges ranges.now xs → Decides result (IsBit xs name.now) }
{
    let Some((vector, number)) = bit_of(name) else {
        return false;
    };
    match ranges.vector(vector) {
        Some(span) => span.covers(number),
        None => false,
    }
}
