//! Models whose signals go by their names.
ghost use Rattle.std.specs.Prelude.{◌≡◌, ◌⊎◌, ◌≤◌, [], Some, None, true, false, length, map, slice_get, unwrap_or, MatchOption, MatchResult};
ghost use Rattle.ncl_blif.specs.declared.fault.BlifFault.TheVariants.{Memory as OutOfMemory};
ghost use Rattle.ncl_blif.specs.Named.{name_said, named_model, drivers_of};
ghost use Rattle.ncl_blif.specs.Numbered.{is_driven, signal_number};
ghost use Rattle.ncl_blif.specs.LineFaults.{has_twins, first_part_fault, first_section_fault, first_line_fault};
ghost use Rattle.ncl_blif.specs.Lines.{lines_of};
ghost use Rattle.ncl_blif.specs.Parts.{parts_of, sections_of};
ghost use Rattle.ncl_blif.specs.Answer.{models_said};

use crate::command::is_model;
use crate::draft_body::DraftBody;
use crate::draft_cover::{DraftCover, DraftOutput};
use crate::drivers::Driver;
use crate::fault::BlifFault;
use crate::line::{Line, counted_lines, read_fields};
use crate::part::{Part, parts};
use crate::section::section_length;
use ncl_base::MOST_BYTES;
use std::alloc::Global;
use std::marker::Model;

/// A model whose signals go by their names. No signal has two drivers.
#[derive(Drop)]
pub(crate) struct Draft<'a> {
    name: &'a [u8],
    body: DraftBody<'a>,
}

impl<'a> Model for Draft<'a> {
    ghost use Rattle.std.specs.Prelude.{◌≤◌, length};
    ghost use Rattle.ncl_blif.specs.Named.{NamedModel, drivers_of};
    ghost use Rattle.ncl_blif.specs.Model.{most_size};
    ghost use Rattle.ncl_blif.specs.Body.{said_by, AreDriversKept};

    ghost Value = { NamedModel };

    ghost view = { λ d. record (said_by d.body) { name = d.name.now } };

    ghost invariant = { λ d. AreDriversKept d.body × (length (drivers_of (said_by d.body)) ≤ most_size) };
}

impl<'a> Draft<'a> {
    /// The model that parts say. It answers what breaks the first broken one.
    ///
    /// Linear in the parts, and for each signal that has a driver logarithmic in these signals.
    pub(crate) fn of_parts(alloc: Global, parts: &[Part<'_, 'a>]) -> Result<Draft<'a>, BlifFault>
        requires { length (drivers_of (named_model parts.now)) ≤ MOST_BYTES }
        ensures { MatchResult result
            (λ draft. (first_part_fault [] parts.now ≡ None) × (draft ≡ named_model parts.now))
            (λ fault. (fault ≡ OutOfMemory) ⊎ (first_part_fault [] parts.now ≡ Some fault)) }
    {
        let mut body = DraftBody::new(alloc);
        let mut has_ended = false;
        for part in parts {
            has_ended = body.add_part(alloc, has_ended, part)?;
        }
        Ok(Draft {
            name: name_of(parts),
            body,
        })
    }

    /// The number of a signal: its place among those that have a driver, the inputs first. `None` where
    /// it has none.
    ///
    /// Logarithmic in the signals.
    pub(crate) fn number(&self, signal: &[u8]) -> Option<u32>
        ensures { MatchOption result (is_driven self.now signal.now ≡ false)
            (λ n. (is_driven self.now signal.now ≡ true) × (n ≡ signal_number self.now signal.now)) }
    {
        match self.body.drivers.get(signal)? {
            Driver::Input(place) => Some(place),
            Driver::Cover(place) => Some(self.body.inputs.len() as u32 + place),
        }
    }

    /// Its name, or no bytes where it has none.
    pub(crate) fn name(&self) -> &'a [u8]
        ensures { result.now ≡ self.now.name }
    {
        self.name
    }

    /// How many inputs it has.
    pub(crate) fn inputs(&self) -> usize
        ensures { result ≡ length self.now.inputs }
    {
        self.body.inputs.len()
    }

    /// Its outputs, in order.
    pub(crate) fn outputs(&self) -> &[DraftOutput<'a>]
        ensures { result.now ≡ self.now.outputs }
    {
        self.body.outputs.as_slice()
    }

    /// Its covers, in order.
    pub(crate) fn covers(&self) -> &[DraftCover<'a>]
        ensures covers { result.now ≡ self.now.covers }
        ensures one_driver { has_twins (drivers_of self.now) ≡ false }
        ensures few { length (drivers_of self.now) ≤ MOST_BYTES }
    {
        self.body.covers.as_slice()
    }

    /// Its covers, in order, to be used up. Takes no memory.
    pub(crate) fn into_covers(self) -> Vec<DraftCover<'a>>
        ensures { result.items ≡ self.entry.covers }
    {
        self.body.covers
    }
}

/// The name of the model that parts say: what its `.model` says, or no bytes.
fn name_of<'a>(parts: &[Part<'_, 'a>]) -> &'a [u8]
    ensures { result.now ≡ name_said parts.now }
{
    match parts.first() {
        Some(part) if is_model(part.head()) => second_field(part.head()),
        _ => &[],
    }
}

/// The second field of a line, or no bytes where it has none.
fn second_field<'a>(line: &Line<'_, 'a>) -> &'a [u8]
    ensures { result.now ≡ unwrap_or (slice_get line.now.fields 1) [] }
{
    match line.fields().get(1) {
        Some(field) => field,
        None => &[],
    }
}

/// The models that a text says, in order. It answers the fault of the first broken line.
///
/// Linear in the text, but for the look-ups of signals, each logarithmic in those of its model.
pub(crate) fn drafts<'a>(alloc: Global, text: &'a [u8]) -> Result<Vec<Draft<'a>>, BlifFault>
    requires { length text.now ≤ MOST_BYTES }
    ensures { MatchResult result
        (λ drafts. (first_line_fault (lines_of text.now) ≡ None) × (drafts.items ≡ models_said text.now))
        (λ fault. (fault ≡ OutOfMemory) ⊎ (first_line_fault (lines_of text.now) ≡ Some fault)) }
{
    let (fields, counts) = read_fields(alloc, text)?;
    let lines = counted_lines(alloc, &fields, counts)?;
    begin(&lines)?;
    let parts = parts(alloc, &lines)?;
    drafts_of(alloc, &parts)
}

/// Answers `Syntax` where there is no line, or the first is a row.
fn begin(lines: &[Line]) -> Result<(), BlifFault>
    ensures { MatchResult result
        (λ _. first_line_fault lines.now ≡ first_section_fault (sections_of (parts_of lines.now)))
        (λ fault. first_line_fault lines.now ≡ Some fault) }
{
    match lines.first() {
        None => Err(BlifFault::Syntax(0)),
        Some(line) if line.is_row() => Err(BlifFault::Syntax(line.number())),
        Some(_) => Ok(()),
    }
}

/// The models that these parts say, in order. It answers what breaks the first broken part.
///
/// Linear in the parts, but for the look-ups of signals, each logarithmic in those of its model.
fn drafts_of<'a>(alloc: Global, parts: &[Part<'_, 'a>]) -> Result<Vec<Draft<'a>>, BlifFault>
    requires { length (drivers_of (named_model parts.now)) ≤ MOST_BYTES }
    ensures { MatchResult result
        (λ drafts. (first_section_fault (sections_of parts.now) ≡ None)
        × (drafts.items ≡ map named_model (sections_of parts.now)))
        (λ fault. (fault ≡ OutOfMemory) ⊎ (first_section_fault (sections_of parts.now) ≡ Some fault)) }
{
    let mut drafts = Vec::new(alloc);
    let mut at = 0;
    while at < parts.len() {
        let end = at + section_length(&parts[at..]);
        drafts.push(Draft::of_parts(alloc, &parts[at..end])?)?;
        at = end;
    }
    Ok(drafts)
}
