//! Rows of a cover.
ghost use Rattle.std.specs.Prelude.{◌≡◌, ◌==◌, ◌⊎◌, true, false, length, map, codes, if◌then◌else◌, MatchOption, IfOk, MatchResult};
ghost use Rattle.std.specs.List.{list_all};
ghost use Rattle.std.specs.Str.{bytes_eq};
ghost use Rattle.ncl_blif.specs.declared.fault.BlifFault.TheVariants.{Memory as OutOfMemory};
ghost use Rattle.ncl_blif.specs.Named.{lit_of, pattern_of, last_field, lits_of, is_on};
ghost use Rattle.ncl_blif.specs.LineFaults.{is_literal, is_value, is_row_of};

use crate::fault::BlifFault;
use crate::fields::front_and_last;
use crate::line::Line;
use crate::model::{Lit, Row};
use ncl_base::{Items, Memory};
use std::alloc::Global;

/// The field that ends a row of the ON-set.
const ONE: &[u8] = b"1";

/// The literals of a row of a cover of this many inputs, and whether it is of the ON-set. It answers
/// `BadRow` where the line is no such row.
///
/// Linear in the row.
pub(crate) fn read_row(alloc: Global, inputs: usize, line: &Line) -> Result<(Row, bool), BlifFault>
    ensures { MatchResult result
        (λ row. (is_row_of inputs line.now.fields ≡ true) × (row.0 ≡ lits_of line.now.fields) × (row.1 ≡ is_on line.now))
        (λ fault. (fault ≡ OutOfMemory) ⊎ ((is_row_of inputs line.now.fields ≡ false) × (fault ≡ BlifFault.BadRow line.now.number))) }
{
    let bad = BlifFault::BadRow(line.number());
    let Some((pattern, field)) = row_fields(inputs, line.fields()) else {
        return Err(bad);
    };
    if pattern.len() != inputs {
        return Err(bad);
    }
    let Some(row) = read_pattern(alloc, pattern)? else {
        return Err(bad);
    };
    let Some(on) = read_value(field) else {
        return Err(bad);
    };
    Ok((row, on))
}

/// The pattern and the value of a row of a cover of this many inputs, or `None` where it has another
/// number of fields. Without inputs the pattern is empty and no field.
fn row_fields<'a>(inputs: usize, fields: &[&'a [u8]]) -> Option<(&'a [u8], &'a [u8])>
    ensures { let said = map (λ field. field.now) fields.now in
        MatchOption result ((length said == (if inputs == 0 then 1 else 2)) ≡ false)
        (λ row. (length said ≡ (if inputs == 0 then 1 else 2)) × (row.0.now ≡ pattern_of said) × (row.1.now ≡ last_field said)) }
{
    match fields {
        [value] if inputs == 0 => Some((&[], *value)),
        [pattern, value] if inputs > 0 => Some((*pattern, *value)),
        _ => None,
    }
}

/// The literals of a pattern, or `None` where it has a character that is none. Linear in the pattern.
fn read_pattern(alloc: Global, pattern: &[u8]) -> Result<Option<Row>, Memory>
    ensures { IfOk result (λ read. MatchOption read (list_all is_literal pattern.now ≡ false)
        (λ row. (list_all is_literal pattern.now ≡ true) × (row ≡ map lit_of pattern.now))) }
{
    let mut lits = Vec::with_capacity(alloc, pattern.len())?;
    for byte in pattern {
        let Some(lit) = read_lit(*byte) else {
            return Ok(None);
        };
        lits.push(lit)?;
    }
    Ok(Some(Items::from_vec(lits)))
}

/// The literal of a character, or `None` where it is none.
fn read_lit(byte: u8) -> Option<Lit>
    ensures { MatchOption result (is_literal byte ≡ false) (λ lit. (is_literal byte ≡ true) × (lit ≡ lit_of byte)) }
{
    match byte {
        b'0' => Some(Lit::Zero),
        b'1' => Some(Lit::One),
        b'-' => Some(Lit::Dash),
        _ => None,
    }
}

/// Whether the field that ends a row is 1, or `None` where it is neither 0 nor 1.
fn read_value(field: &[u8]) -> Option<bool>
    ensures { MatchOption result (is_value field.now ≡ false)
        (λ on. (is_value field.now ≡ true) × (on ≡ bytes_eq field.now (codes "1"))) }
{
    match field {
        b"0" => Some(false),
        b"1" => Some(true),
        _ => None,
    }
}

/// Whether the last field of a line is 1.
pub(crate) fn ends_with_one(line: &Line) -> bool
    ensures { result ≡ is_on line.now }
{
    match front_and_last(line.fields()) {
        Some((_, field)) => field == ONE,
        None => false,
    }
}
