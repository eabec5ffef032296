//! The lines of a text, as fields.
ghost use Rattle.std.specs.Prelude.{◌≡◌, ℕ, ◌+◌, ◌^◌, ◌<◌, ◌≤◌, List, ◌∷◌, ◌++◌, length, map, IfOk};
ghost use Rattle.std.specs.Str.Lines.{lines};
ghost use Rattle.ncl_blif.specs.Line.{LineData};
ghost use Rattle.ncl_blif.specs.Parts.{first_field, is_row};
ghost use Rattle.ncl_blif.specs.Lines.{lines_of, uncommented, joined, in_fields};
ghost use Rattle.ncl_blif.specs.Counted.{AreCounted};

use crate::fields::push_fields;
use crate::piece::{first_piece, without_mark};
use ncl_base::{MOST_BYTES, Memory};
use std::alloc::Global;
use std::marker::Model;

/// A line that has fields: its number, and the fields.
#[derive(Drop)]
pub(crate) struct Line<'t, 'a> {
    number: u32,
    fields: &'t [&'a [u8]],
}

impl<'t, 'a> Model for Line<'t, 'a> {
    ghost use Rattle.std.specs.Prelude.{map};
    ghost use Rattle.ncl_blif.specs.Line.{LineData};

    ghost Value = { LineData };

    ghost view = { λ l. record { number = l.number; fields = map (λ field. field.now) l.fields.now } };
}

impl<'t, 'a> Line<'t, 'a> {
    /// Its number, counted from 1. One that is continued has that of its first part.
    pub(crate) fn number(&self) -> u32
        ensures { result ≡ self.now.number }
    {
        self.number
    }

    /// Its fields, in order.
    pub(crate) fn fields(&self) -> &'t [&'a [u8]]
        ensures { map (λ field. field.now) result.now ≡ self.now.fields }
    {
        self.fields
    }

    /// Its first field, or no bytes where it has no field.
    pub(crate) fn first_field(&self) -> &'a [u8]
        ensures { result.now ≡ first_field self.now }
    {
        match self.fields.first() {
            Some(field) => field,
            None => &[],
        }
    }

    /// Whether it is a row: its first field doesn't begin with a dot.
    pub(crate) fn is_row(&self) -> bool
        ensures { result ≡ is_row self.now }
    {
        match self.first_field() {
            [b'.', ..] => false,
            _ => true,
        }
    }
}

/// The number of a line, and how many fields it has.
#[derive(Clone, Copy)]
pub(crate) struct Count {
    number: u32,
    fields: usize,
}

/// The fields of a text, in order, and the count of each line that has fields.
///
/// Linear in the text.
pub(crate) fn read_fields(alloc: Global, text: &[u8]) -> Result<(Vec<&[u8]>, Vec<Count>), Memory>
    requires { length text.now ≤ MOST_BYTES }
    ensures { IfOk result (λ read. AreCounted (lines_of text.now) (map (λ field. field.now) read.0.items) read.1.items) }
{
    let mut fields = Vec::new(alloc);
    let mut counts = Vec::new(alloc);
    let mut number = 1;
    let mut rest = text;
    while !rest.is_empty() {
        let before = fields.len();
        let (next, left) = next_line(&mut fields, number, rest)?;
        if fields.len() > before {
            counts.push(Count {
                number,
                fields: fields.len() - before,
            })?;
        }
        number = next;
        rest = left;
    }
    Ok((fields, counts))
}

/// Puts the fields of the line that a text begins with, which has this number, after others. Gives the number
/// of the next line, and the rest of the text after the line.
///
/// Linear in the line.
fn next_line<'a>(
    fields: &mut Vec<&'a [u8]>,
    number: u32,
    text: &'a [u8],
) -> Result<(u32, &'a [u8]), Memory>
    requires some { 0 < length text.now }
    requires fits { number + length text.now < 2 ^ 32 }
    ensures { let numbered : ℕ → List ℕ → List LineData = λ n t. map in_fields (joined n (map uncommented (lines t))) in
        IfOk result (λ read. (said : List (List ℕ)) × (map (λ field. field.now) fields.new.items ≡ map (λ field. field.now) fields.old.items ++ said)
        × (numbered number text.now ≡ record { number = number; fields = said } ∷ numbered read.0 read.1.now)
        × (read.0 + length read.1.now ≤ number + length text.now) × (length read.1.now < length text.now)) }
{
    let mut next = number;
    let mut rest = text;
    while !rest.is_empty() {
        let (piece, left) = first_piece(rest);
        let (part, is_continued) = without_mark(piece);
        push_fields(fields, part)?;
        next += 1;
        rest = left;
        if !is_continued {
            return Ok((next, rest));
        }
    }
    Ok((next, rest))
}

/// The lines that have these fields, one line after another, as their counts say.
///
/// Linear in the lines.
pub(crate) fn counted_lines<'t, 'a>(
    alloc: Global,
    fields: &'t [&'a [u8]],
    counts: Vec<Count>,
) -> Result<Vec<Line<'t, 'a>>, Memory>
    requires { (lines : List LineData) × AreCounted lines (map (λ field. field.now) fields.now) counts.items }
    ensures { (lines : List LineData) → AreCounted lines (map (λ field. field.now) fields.now) counts.items → IfOk result (λ made. made.items ≡ lines) }
{
    let mut lines = Vec::with_capacity(alloc, counts.len())?;
    let mut from = 0;
    for count in counts.as_slice() {
        let to = from + count.fields;
        lines.push(Line {
            number: count.number,
            fields: &fields[from..to],
        })?;
        from = to;
    }
    Ok(lines)
}
