//! Outputs and covers whose signals go by their names.
ghost use Rattle.std.specs.Prelude.{◌≡◌, ◌≤◌, ◌⊎◌, Some, None, true, length, map, MatchResult};
ghost use Rattle.ncl_blif.specs.declared.fault.BlifFault.TheVariants.{Memory as OutOfMemory};
ghost use Rattle.ncl_blif.specs.Parts.{is_names};
ghost use Rattle.ncl_blif.specs.Named.{cover_of};
ghost use Rattle.ncl_blif.specs.LineFaults.{rows_fault};

use crate::fault::BlifFault;
use crate::fields::front_and_last;
use crate::model::Row;
use crate::part::Part;
use crate::rows::read_rows;
use ncl_base::Items;
use std::alloc::Global;
use std::marker::Model;

/// A signal that is an output, with the number of the line that says so.
#[derive(Drop)]
pub(crate) struct DraftOutput<'a> {
    line: u32,
    signal: &'a [u8],
}

impl<'a> Model for DraftOutput<'a> {
    ghost use Rattle.ncl_blif.specs.Named.{NamedOutput};

    ghost Value = { NamedOutput };

    ghost view = { λ o. record { line = o.line; signal = o.signal.now } };
}

impl<'a> DraftOutput<'a> {
    /// A signal that this line says is an output.
    pub(crate) fn new(line: u32, signal: &'a [u8]) -> DraftOutput<'a>
        ensures { result ≡ record { line = line; signal = signal.now } }
    {
        DraftOutput { line, signal }
    }

    /// The number of the line.
    pub(crate) fn line(&self) -> u32
        ensures { result ≡ self.now.line }
    {
        self.line
    }

    /// The signal.
    pub(crate) fn signal(&self) -> &'a [u8]
        ensures { result.now ≡ self.now.signal }
    {
        self.signal
    }
}

/// A cover, with the number of the line that begins it.
#[derive(Drop)]
pub(crate) struct DraftCover<'a> {
    line: u32,
    ins: Vec<&'a [u8]>,
    out: &'a [u8],
    on: bool,
    rows: Items<Row>,
}

impl<'a> Model for DraftCover<'a> {
    ghost use Rattle.std.specs.Prelude.{map};
    ghost use Rattle.ncl_blif.specs.Named.{NamedCover};

    ghost Value = { NamedCover };

    ghost view = { λ c. record {
      line = c.line;
      ins = map (λ name. name.now) c.ins.items;
      out = c.out.now;
      on = c.on;
      rows = c.rows;
    } };
}

impl<'a> DraftCover<'a> {
    /// The cover that a `.names` line of at least two fields and the rows after it say. It answers the
    /// first fault of the rows.
    ///
    /// Linear in the lines.
    pub(crate) fn read(alloc: Global, part: &Part<'_, 'a>) -> Result<DraftCover<'a>, BlifFault>
        requires names { is_names part.now.head ≡ true }
        requires fields { 2 ≤ length part.now.head.fields }
        ensures { MatchResult result
            (λ cover. (rows_fault part.now.head part.now.rows ≡ None) × (cover ≡ cover_of part.now))
            (λ fault. (fault ≡ OutOfMemory) ⊎ (rows_fault part.now.head part.now.rows ≡ Some fault)) }
    {
        let Some((ins, out)) = front_and_last(&part.head().fields()[1..]) else {
            unreachable!()
        };
        let (rows, on) = read_rows(alloc, ins.len(), part.rows())?;
        Ok(DraftCover {
            line: part.head().number(),
            ins: Vec::from_slice(alloc, ins)?,
            out,
            on,
            rows,
        })
    }

    /// The number of the line that begins it.
    pub(crate) fn line(&self) -> u32
        ensures { result ≡ self.now.line }
    {
        self.line
    }

    /// The signals that it reads, in order.
    pub(crate) fn ins(&self) -> &[&'a [u8]]
        ensures { map (λ name. name.now) result.now ≡ self.now.ins }
    {
        self.ins.as_slice()
    }

    /// The signal that it drives.
    pub(crate) fn out(&self) -> &'a [u8]
        ensures { result.now ≡ self.now.out }
    {
        self.out
    }

    /// Whether the rows list the ON-set.
    pub(crate) fn on(&self) -> bool
        ensures { result ≡ self.now.on }
    {
        self.on
    }

    /// The rows, which are moved out of it. Takes no memory.
    pub(crate) fn into_rows(self) -> Items<Row>
        ensures { result ≡ self.entry.rows }
    {
        self.rows
    }
}
