//! What a line of a file of delays states.
ghost use Rattle.std.specs.Prelude.{◌≡◌, IfSome, map, take};
ghost use Rattle.ncl_delay.specs.Delays.{AreDelays};
ghost use Rattle.ncl_base.specs.TextLines.{is_blank, fields_of};
ghost use Rattle.ncl_delay.specs.DelayText.{edges_text, subject_text, cell_text, stating, said};

use crate::delays::Edges;
use crate::number::read_delay;
use arrayvec::ArrayVec;
use ncl_base::is_blank;
use std::marker::Model;

/// A name as it stands in a text, which contracts see as the list of its bytes.
#[derive(Drop)]
pub(crate) struct Written<'a> {
    bytes: &'a [u8],
}

impl<'a> Model for Written<'a> {
    ghost use Rattle.std.specs.Prelude.{List, ℕ};

    ghost Value = { List ℕ };

    ghost view = { λ a. a.bytes.now };
}

impl<'a> Written<'a> {
    /// The bytes.
    pub(crate) fn bytes(&self) -> &'a [u8]
        ensures { result.now ≡ self.now }
    {
        self.bytes
    }
}

/// What a line states the delays of.
#[derive(Drop)]
pub(crate) enum Subject<'a> {
    /// Each cell without a line.
    Default,
    /// The source.
    Source,
    /// The sink.
    Sink,
    /// The cell of a name.
    Cell(Written<'a>),
}

/// What a line states: the delays of a subject.
#[derive(Drop)]
pub(crate) struct Statement<'a> {
    pub(crate) subject: Subject<'a>,
    pub(crate) edges: Edges,
}

/// The most fields of a line that are told apart.
const MOST_FIELDS: usize = 5;

const DEFAULT: &[u8] = b"default";

const SOURCE: &[u8] = b"source";

const SINK: &[u8] = b"sink";

const CELL: &[u8] = b"cell";

/// What a line states, or `None` where it is of none of the forms.
///
/// Linear in the line.
pub(crate) fn said(line: &[u8]) -> Option<Statement<'_>>
    ensures value { result ≡ said (fields_of line.now) }
    ensures range { IfSome result (λ statement. AreDelays statement.edges) }
{
    match first_fields(line).as_slice() {
        [field, rise, fall] => stating(read_subject(field), read_edges(rise, fall)),
        [field, name, rise, fall] => stating(read_cell(field, name), read_edges(rise, fall)),
        _ => None,
    }
}

/// The statement of these delays for this subject, where both are there.
fn stating<'a>(subject: Option<Subject<'a>>, edges: Option<Edges>) -> Option<Statement<'a>>
    requires { IfSome edges AreDelays }
    ensures value { result ≡ stating subject.entry edges }
    ensures range { IfSome result (λ statement. AreDelays statement.edges) }
{
    let subject = subject?;
    let edges = edges?;
    Some(Statement { subject, edges })
}

/// The first fields of a line, five at most. Linear in the line.
fn first_fields(line: &[u8]) -> ArrayVec<&[u8], MOST_FIELDS>
    ensures { map (λ field. field.now) result.items ≡ take MOST_FIELDS (fields_of line.now) }
{
    let mut fields = ArrayVec::new();
    for part in line.split(|byte| is_blank(*byte)) {
        if !part.is_empty() && fields.len() < MOST_FIELDS {
            fields.push(part);
        }
    }
    fields
}

/// The subject that a field stands for, or `None` where it stands for none.
fn read_subject(field: &[u8]) -> Option<Subject<'static>>
    ensures { result ≡ subject_text field.now }
{
    if field == DEFAULT {
        return Some(Subject::Default);
    }
    if field == SOURCE {
        return Some(Subject::Source);
    }
    if field == SINK {
        return Some(Subject::Sink);
    }
    None
}

/// The cell of a name, or `None` where the field before the name is not `cell`.
fn read_cell<'a>(field: &[u8], name: &'a [u8]) -> Option<Subject<'a>>
    ensures { result ≡ cell_text field.now name.now }
{
    if field == CELL {
        return Some(Subject::Cell(Written { bytes: name }));
    }
    None
}

/// The delays of two fields, the first of rising and the second of falling, or `None` where one is none.
fn read_edges(rise: &[u8], fall: &[u8]) -> Option<Edges>
    ensures value { result ≡ edges_text rise.now fall.now }
    ensures range { IfSome result AreDelays }
{
    let rise = read_delay(rise)?;
    let fall = read_delay(fall)?;
    Some(Edges { rise, fall })
}
