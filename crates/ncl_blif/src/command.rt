//! The commands that are read.
ghost use Rattle.std.specs.Prelude.{◌≡◌, ◌≢◌, List, true, false, length, MatchOption};
ghost use Rattle.ncl_blif.specs.Line.{LineData};
ghost use Rattle.ncl_blif.specs.Parts.{PartData, is_command, is_model, is_names, is_end, first_field};
ghost use Rattle.ncl_blif.specs.LineFaults.{has_ended, is_malformed};
ghost use Rattle.ncl_blif.specs.Commands.{field_of};

use crate::line::Line;

/// A command that is read.
#[derive(Clone, Copy)]
pub(crate) enum Command {
    /// `.model` begins a model.
    Model,
    /// `.inputs` names inputs.
    Inputs,
    /// `.outputs` names outputs.
    Outputs,
    /// `.names` begins a cover.
    Names,
    /// `.end` ends a model.
    End,
}

const MODEL: &[u8] = b".model";

const INPUTS: &[u8] = b".inputs";

const OUTPUTS: &[u8] = b".outputs";

const NAMES: &[u8] = b".names";

const END: &[u8] = b".end";

impl Command {
    /// The command that a line begins with, or `None` where it begins with none that is read.
    pub(crate) fn of_line(line: &Line) -> Option<Command>
        ensures { MatchOption result (is_command line.now ≡ false) (λ command. first_field line.now ≡ field_of command) }
    {
        let field = line.first_field();
        if field == MODEL {
            return Some(Command::Model);
        }
        if field == INPUTS {
            return Some(Command::Inputs);
        }
        if field == OUTPUTS {
            return Some(Command::Outputs);
        }
        if field == NAMES {
            return Some(Command::Names);
        }
        if field == END {
            return Some(Command::End);
        }
        None
    }

    /// Whether its line, of this many fields, may not stand where it does, in a model that has ended
    /// before or not: it has the wrong number of fields, or follows `.end` and doesn't begin a model.
    pub(crate) fn is_malformed(self, ended: bool, fields: usize) -> bool
        ensures malformed { (before : List PartData) (line : LineData) → first_field line ≡ field_of self
            → fields ≡ length line.fields → ended ≡ has_ended before → result ≡ is_malformed before line }
        ensures names { (line : LineData) → first_field line ≡ field_of self → is_names line ≡ true
            → result ≡ false → fields ≢ 1 }
    {
        let is_miscounted = match self {
            Command::Model => fields != 2,
            Command::Names => fields == 1,
            Command::End => fields != 1,
            Command::Inputs | Command::Outputs => false,
        };
        is_miscounted || ended && self != Command::Model
    }

    /// Whether it ends a model.
    pub(crate) fn is_end(self) -> bool
        ensures { (line : LineData) → first_field line ≡ field_of self → result ≡ is_end line }
    {
        matches!(self, Command::End)
    }
}

/// Whether a line begins a model.
pub(crate) fn is_model(line: &Line) -> bool
    ensures { result ≡ is_model line.now }
{
    line.first_field() == MODEL
}
