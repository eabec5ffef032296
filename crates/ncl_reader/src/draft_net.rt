//! What was read so far, at the places of the net of a connection.
ghost use Rattle.std.specs.Prelude.{◌≡◌, Ok, List, MatchOption};
ghost use Rattle.ncl_reader.specs.Lexemes.{Lexeme as Token};
ghost use Rattle.ncl_reader.specs.Grammar.{Range};
ghost use Rattle.ncl_reader.specs.Vectors.{IsVector, span_of};
ghost use Rattle.ncl_reader.specs.Known.{KeepsNames};
ghost use Rattle.ncl_reader.specs.Draft.{Steps};

use crate::draft::{Draft, Step};
use crate::instance::Join;
use crate::lexeme::{Lexeme, Sign};
use crate::number::{is_outside, small};
use crate::place::Place;
use crate::span::Span;
use std::alloc::Global;

impl<'a> Draft<'a> {
    /// At the name of a net.
    pub(crate) fn at_net(&mut self, alloc: Global, lexeme: &Lexeme<'a>) -> Step
        ensures { Steps Place.Net self.old lexeme.now result self.new }
    {
        let Some(name) = lexeme.name() else {
            return Ok(None);
        };
        if self.known.clashes(name) {
            return Ok(None);
        }
        self.known.join(alloc, name)?;
        self.instance.net = name;
        Ok(Some(Place::AfterNet))
    }

    /// Behind the name of a net.
    pub(crate) fn after_net(&mut self, lexeme: &Lexeme<'a>) -> Step
        ensures { Steps Place.AfterNet self.old lexeme.now result self.new }
    {
        let range = self.net_range();
        if lexeme.is_mark(Sign::LBracket) {
            if range.is_none() {
                return Ok(None);
            }
            return Ok(Some(Place::Index));
        }
        if !lexeme.is_mark(Sign::RParen) {
            return Ok(None);
        }
        if range.is_some() {
            return Ok(None);
        }
        let join = Join {
            pin: self.instance.pin,
            net: self.instance.net,
            index: None,
        };
        self.instance.joins.push(join)?;
        Ok(Some(Place::AfterConnection))
    }

    /// At the number of a bit.
    pub(crate) fn at_index(&mut self, lexeme: &Lexeme<'a>) -> Option<Place>
        ensures { Steps Place.Index self.old lexeme.now (Ok result) self.new }
    {
        let Some(number) = lexeme.number() else {
            return None;
        };
        let Some(span) = self.net_range() else {
            return None;
        };
        if is_outside(number, span) {
            return None;
        }
        let Some(index) = small(number) else {
            return None;
        };
        self.instance.index = index;
        Some(Place::AfterIndex)
    }

    /// Behind a bit.
    pub(crate) fn net_end(&mut self, lexeme: &Lexeme<'a>) -> Step
        ensures { Steps Place.NetEnd self.old lexeme.now result self.new }
    {
        if !lexeme.is_mark(Sign::RParen) {
            return Ok(None);
        }
        let join = Join {
            pin: self.instance.pin,
            net: self.instance.net,
            index: Some(self.instance.index),
        };
        self.instance.joins.push(join)?;
        Ok(Some(Place::AfterConnection))
    }

    /// The numbers of the net that is joined, if it is a vector. A look-up of O(log n) comparisons,
    /// where n is the number of vectors.
    pub(crate) fn net_range(&self) -> Option<Span>
        ensures { (xs : List Token) → KeepsNames self.now.known xs
            → MatchOption result ((range : Range) → ¬ IsVector xs self.now.instance.net.now range)
            (λ span. (range : Range) × IsVector xs self.now.instance.net.now range × (span_of range ≡ span)) }
    {
        self.known.ranges.vector(self.instance.net)
    }
}
