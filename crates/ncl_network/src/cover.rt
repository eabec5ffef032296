//! The values of covers.
ghost use Rattle.std.specs.Prelude.{◌≡◌};
ghost use Rattle.std.specs.List.{list_all, list_any, zip};
ghost use Rattle.ncl_blif.specs.Meaning.{lit_matches, cover_value};

use ncl_blif::{Lit, Row};

/// Whether a literal lets a bit through.
pub(crate) fn lets_through(lit: Lit, bit: bool) -> bool
    ensures { result ≡ lit_matches lit bit }
{
    match lit {
        Lit::Zero => !bit,
        Lit::One => bit,
        Lit::Dash => true,
    }
}

/// Whether a row matches bits. Linear in it.
fn matches(row: &[Lit], bits: &[bool]) -> bool
    ensures { result ≡ list_all (λ pair. lit_matches pair.0 pair.1) (zip row.now bits.now) }
{
    row.iter()
        .zip(bits)
        .all(|(lit, bit)| lets_through(*lit, *bit))
}

/// Whether some row matches bits. Linear in the rows.
fn some_matches(rows: &[Row], bits: &[bool]) -> bool
    ensures { result ≡ list_any (λ row. list_all (λ pair. lit_matches pair.0 pair.1) (zip row bits.now)) rows.now }
{
    rows.iter().any(|row| matches(row.items(), bits))
}

/// The value of a cover. Linear in its rows.
pub fn cover_bit(on: bool, rows: &[Row], bits: &[bool]) -> bool
    ensures { result ≡ cover_value on rows.now bits.now }
{
    if rows.is_empty() {
        return false;
    }
    some_matches(rows, bits) == on
}
