//! Commands with the rows that follow them.
ghost use Rattle.std.specs.Prelude.{◌≡◌, IfOk};
ghost use Rattle.std.specs.List.{take_while};
ghost use Rattle.ncl_blif.specs.Parts.{parts_of, is_row};

use crate::line::Line;
use ncl_base::Memory;
use std::alloc::Global;
use std::marker::Model;

/// A line that is no row, and the rows that follow it.
#[derive(Drop)]
pub(crate) struct Part<'t, 'a> {
    head: &'t Line<'t, 'a>,
    rows: &'t [Line<'t, 'a>],
}

impl<'t, 'a> Model for Part<'t, 'a> {
    ghost use Rattle.ncl_blif.specs.Parts.{PartData};

    ghost Value = { PartData };

    ghost view = { λ p. record { head = p.head.now; rows = p.rows.now } };
}

impl<'t, 'a> Part<'t, 'a> {
    /// The line.
    pub(crate) fn head(&self) -> &'t Line<'t, 'a>
        ensures { result.now ≡ self.now.head }
    {
        self.head
    }

    /// The rows, in order.
    pub(crate) fn rows(&self) -> &'t [Line<'t, 'a>]
        ensures { result.now ≡ self.now.rows }
    {
        self.rows
    }
}

/// The parts of lines, in order. Rows before the first line that is none belong to no part.
///
/// Linear in the lines: each row is looked at twice.
pub(crate) fn parts<'t, 'a>(
    alloc: Global,
    lines: &'t [Line<'t, 'a>],
) -> Result<Vec<Part<'t, 'a>>, Memory>
    ensures { IfOk result (λ parts. parts.items ≡ parts_of lines.now) }
{
    let mut parts = Vec::new(alloc);
    for (place, head) in lines.iter().enumerate() {
        if !head.is_row() {
            let rows = first_rows(&lines[place + 1..]);
            parts.push(Part { head, rows })?;
        }
    }
    Ok(parts)
}

/// The rows that stand before the first line that is none. Linear in these rows.
fn first_rows<'t, 'a>(lines: &'t [Line<'t, 'a>]) -> &'t [Line<'t, 'a>]
    ensures { result.now ≡ take_while is_row lines.now }
{
    for (count, line) in lines.iter().enumerate() {
        if !line.is_row() {
            return &lines[..count];
        }
    }
    lines
}
