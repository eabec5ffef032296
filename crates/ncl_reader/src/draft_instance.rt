//! What was read so far, at the places of an instance.
ghost use Rattle.ncl_reader.specs.Draft.{Steps};

use crate::draft::{Draft, Step};
use crate::lexeme::{Lexeme, Sign};
use crate::place::Place;
use std::alloc::Global;

impl<'a> Draft<'a> {
    /// Behind a connection.
    pub(crate) fn after_connection(&mut self, alloc: Global, lexeme: &Lexeme<'a>) -> Step
        ensures { Steps Place.AfterConnection self.old lexeme.now result self.new }
    {
        if lexeme.is_mark(Sign::Comma) {
            return Ok(Some(Place::Connection));
        }
        if !lexeme.is_mark(Sign::RParen) {
            return Ok(None);
        }
        let Some(cell) = self.instance.close(alloc)? else {
            return Ok(None);
        };
        self.cells.push(cell)?;
        Ok(Some(Place::AfterInstance))
    }
}
