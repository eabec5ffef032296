//! What was read so far, at the places of the header.
ghost use Rattle.std.specs.Prelude.{◌≡◌, ℕ, Ok, Some, None, IfOk, List};
ghost use Rattle.std.specs.Bool.{Decides};
ghost use Rattle.ncl_reader.specs.Lexemes.{Name as NameLexeme};
ghost use Rattle.ncl_reader.specs.Grammar.{Direction, Group, Spec};
ghost use Rattle.ncl_reader.specs.Says.{way_output};
ghost use Rattle.ncl_reader.specs.Rules.{BreaksRule};
ghost use Rattle.ncl_reader.specs.Forms.{in_ansi};
ghost use Rattle.ncl_reader.specs.Known.{KeepsNames};
ghost use Rattle.ncl_reader.specs.Lead.{IsSaid, direction_output};
ghost use Rattle.ncl_reader.specs.Draft.{Steps, IsGroupedWith, IsHeadedNext};

use crate::draft::{Draft, Step};
use crate::keyword::Way;
use crate::lead::{Lead, takes_name};
use crate::lexeme::{Lexeme, Sign};
use crate::place::{LeadPlace, Place};
use ncl_base::Memory;
use std::alloc::Global;

impl<'a> Draft<'a> {
    /// Where a header begins.
    pub(crate) fn at_first_port(&mut self, alloc: Global, lexeme: &Lexeme<'a>) -> Step
        ensures { Steps Place.FirstPort self.old lexeme.now result self.new }
    {
        if lexeme.is_mark(Sign::RParen) {
            return Ok(Some(Place::AfterPorts));
        }
        if let Some(way) = lexeme.way() {
            self.ansi = true;
            self.lead = begun(way);
            return Ok(Some(Place::HeaderLead(LeadPlace::Direction)));
        }
        let Some(name) = lexeme.name() else {
            return Ok(None);
        };
        self.at_plain(alloc, Place::FirstPort, name)
    }

    /// Behind a direction of the header.
    pub(crate) fn at_header_lead(
        &mut self,
        alloc: Global,
        at: LeadPlace,
        lexeme: &Lexeme<'a>,
    ) -> Step
        ensures { Steps (Place.HeaderLead at) self.old lexeme.now result self.new }
    {
        let Some(name) = lexeme.name() else {
            let Some(after) = self.lead.step(at, lexeme) else {
                return Ok(None);
            };
            return Ok(Some(Place::HeaderLead(after)));
        };
        if !takes_name(at) {
            return Ok(None);
        }
        if self.breaks_header(name) {
            return Ok(None);
        }
        self.take_header_name(alloc, name)?;
        Ok(Some(Place::AfterHeaderName))
    }

    /// At a further name of a header of declarations, or at the next declaration.
    pub(crate) fn at_header_name(&mut self, alloc: Global, lexeme: &Lexeme<'a>) -> Step
        ensures { Steps Place.HeaderName self.old lexeme.now result self.new }
    {
        if let Some(way) = lexeme.way() {
            self.lead = begun(way);
            return Ok(Some(Place::HeaderLead(LeadPlace::Direction)));
        }
        let Some(name) = lexeme.name() else {
            return Ok(None);
        };
        if self.breaks_header(name) {
            return Ok(None);
        }
        self.take_header_name(alloc, name)?;
        Ok(Some(Place::AfterHeaderName))
    }

    /// Whether a name of a declaration of the header breaks a rule. Six look-ups of O(log n) comparisons.
    fn breaks_header(&self, name: &[u8]) -> bool
        ensures { (groups : List (Group Direction)) (spec : Spec Direction) (names : List (List ℕ))
            → KeepsNames self.now.known (in_ansi self.now.title.now groups spec names)
            → IsSaid direction_output spec self.now.lead → IsGroupedWith self.now groups spec names
            → Decides result (BreaksRule (in_ansi self.now.title.now groups spec names) (NameLexeme name.now)) }
    {
        let span = self.lead.span;
        if self.header.has(name) {
            return true;
        }
        if self.known.redeclares(name, span) {
            return true;
        }
        if self.known.clashes_declared(name, span) {
            return true;
        }
        self.crowds_header(name)
    }

    /// Takes a name of a declaration of the header that breaks no rule. Five look-ups of O(log n) comparisons.
    fn take_header_name(&mut self, alloc: Global, name: &'a [u8]) -> Result<(), Memory>
        ensures { (groups : List (Group Direction)) (spec : Spec Direction) (names : List (List ℕ))
            → KeepsNames self.old.known (in_ansi self.old.title.now groups spec names)
            → IsSaid direction_output spec self.old.lead → IsGroupedWith self.old groups spec names
            → ¬ BreaksRule (in_ansi self.old.title.now groups spec names) (NameLexeme name.now)
            → IfOk result (λ u. IsHeadedNext self.old groups spec names name.now self.new) }
    {
        let span = self.lead.span;
        let Some(output) = self.lead.output else {
            return Ok(());
        };
        self.header.add(name)?;
        self.header.direct(name, output, span)?;
        self.known.declare(alloc, name, span)?;
        Ok(())
    }
}

/// What a declaration begins with that gives a direction.
pub(crate) fn begun(way: Way) -> Lead
    ensures output { result.output ≡ Some (way_output way) }
    ensures span { result.span ≡ None }
{
    Lead {
        output: Some(way == Way::Output),
        span: None,
        first: 0,
    }
}
