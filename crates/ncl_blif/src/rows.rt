//! The rows that follow a command.
ghost use Rattle.std.specs.Prelude.{◌≡◌, ◌⊎◌, Some, None, true, false, length, map, MatchResult};
ghost use Rattle.ncl_blif.specs.declared.fault.BlifFault.TheVariants.{Memory as OutOfMemory};
ghost use Rattle.ncl_blif.specs.Line.{LineData};
ghost use Rattle.ncl_blif.specs.Parts.{is_names};
ghost use Rattle.ncl_blif.specs.Named.{cover_ins, lits_of, lists_on};
ghost use Rattle.ncl_blif.specs.LineFaults.{rows_fault};

use crate::fault::BlifFault;
use crate::line::Line;
use crate::model::Row;
use crate::row::{ends_with_one, read_row};
use ncl_base::Items;
use std::alloc::Global;

/// The rows of a cover of this many inputs, and whether they list the ON-set, as the first of them says;
/// without rows either would do. It answers the first fault of the rows: `BadRow`, or `MixedCover` where
/// a row ends otherwise than the first.
///
/// Linear in the rows.
pub(crate) fn read_rows(
    alloc: Global,
    inputs: usize,
    lines: &[Line],
) -> Result<(Items<Row>, bool), BlifFault>
    ensures { (head : LineData) → is_names head ≡ true → inputs ≡ length (cover_ins head) → MatchResult result
        (λ read. (rows_fault head lines.now ≡ None)
        × (read.0 ≡ map (λ line. lits_of line.fields) lines.now) × (read.1 ≡ lists_on lines.now))
        (λ fault. (fault ≡ OutOfMemory) ⊎ (rows_fault head lines.now ≡ Some fault)) }
{
    let mut rows = Vec::with_capacity(alloc, lines.len())?;
    let Some(first) = lines.first() else {
        return Ok((Items::from_vec(rows), true));
    };
    let on = ends_with_one(first);
    for line in lines {
        let (row, is_on) = read_row(alloc, inputs, line)?;
        if is_on != on {
            return Err(BlifFault::MixedCover(line.number()));
        }
        rows.push(row)?;
    }
    Ok((Items::from_vec(rows), on))
}

/// Answers `Syntax` where a row stands after a command that begins no cover.
pub(crate) fn no_rows(lines: &[Line]) -> Result<(), BlifFault>
    ensures { (head : LineData) → is_names head ≡ false → MatchResult result
        (λ _. rows_fault head lines.now ≡ None) (λ fault. rows_fault head lines.now ≡ Some fault) }
{
    match lines.first() {
        Some(row) => Err(BlifFault::Syntax(row.number())),
        None => Ok(()),
    }
}
