//! Long texts, told by their parts.
use std::alloc::Global;
use std::test::Fail;

/// A part of a text.
#[derive(Clone, Copy)]
pub(crate) enum Part {
    /// These characters.
    Text(&'static str),
    /// These, so many times.
    Times(&'static str, usize),
    /// Two pieces around each number from 0, so many times.
    Numbers(&'static str, &'static str, u32),
    /// So many cells side by side that read the net `a`.
    Cells(u32),
}

/// Adds two pieces around each number.
fn push_numbers(text: &mut String, before: &str, after: &str, count: u32) -> Result<(), Fail> {
    for number in 0..count {
        write!(text, "{before}{number}{after}")?;
    }
    Ok(())
}

/// Adds cells.
fn push_cells(text: &mut String, count: u32) -> Result<(), Fail> {
    for cell in 0..count {
        write!(text, "TH12 g{cell}(.B(a),.Z(n{cell}),.A(a));\n")?;
    }
    Ok(())
}

/// Adds a part.
fn push_part(alloc: Global, text: &mut String, part: Part) -> Result<(), Fail> {
    match part {
        Part::Text(piece) => text.push_str(piece)?,
        Part::Times(piece, times) => text.push_str(&piece.repeat(alloc, times)?)?,
        Part::Numbers(before, after, count) => push_numbers(text, before, after, count)?,
        Part::Cells(count) => push_cells(text, count)?,
    }
    Ok(())
}

/// The text of its parts.
pub(crate) fn text_of(alloc: Global, parts: &[Part]) -> Result<String, Fail> {
    let mut text = String::new(alloc);
    for part in parts {
        push_part(alloc, &mut text, *part)?;
    }
    Ok(text)
}
