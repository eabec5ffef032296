//! What was read so far, at the places of items and of their declarations.
ghost use Rattle.std.specs.Prelude.{◌≡◌, ℕ, Ok, IfOk, List};
ghost use Rattle.std.specs.Bool.{Decides};
ghost use Rattle.ncl_reader.specs.Lexemes.{Name as NameLexeme};
ghost use Rattle.ncl_reader.specs.Grammar.{Head, Item, Lead as LeadOf, Spec};
ghost use Rattle.ncl_reader.specs.Forms.{at_declared};
ghost use Rattle.ncl_reader.specs.Rules.{BreaksRule};
ghost use Rattle.ncl_reader.specs.Known.{KeepsNames};
ghost use Rattle.ncl_reader.specs.Lead.{IsSaid, lead_output};
ghost use Rattle.ncl_reader.specs.Draft.{Steps, IsBodyWith, IsDeclaredNext, IsEarly};
ghost use Rattle.ncl_reader.specs.Meant.{meant};

use crate::draft::{Draft, Step};
use crate::draft_header::begun;
use crate::keyword::Keyword;
use crate::lead::{Lead, takes_name};
use crate::lexeme::{Lexeme, Sign};
use crate::place::{LeadPlace, Place};
use ncl_base::Memory;
use ncl_gates::CellKind;
use std::alloc::Global;

impl<'a> Draft<'a> {
    /// In front of an item.
    pub(crate) fn at_item(&mut self, alloc: Global, lexeme: &Lexeme<'a>) -> Step
        ensures { Steps Place.Item self.old lexeme.now result self.new }
    {
        if let Some(name) = lexeme.name() {
            return self.at_cell(alloc, name, lexeme);
        }
        if let Some(way) = lexeme.way() {
            if self.ansi {
                return Ok(None);
            }
            self.lead = begun(way);
            return Ok(Some(Place::Lead(LeadPlace::Direction)));
        }
        if lexeme.is_word(Keyword::Wire) {
            self.lead = Lead {
                output: None,
                span: None,
                first: 0,
            };
            return Ok(Some(Place::Lead(LeadPlace::Wire)));
        }
        if !lexeme.is_word(Keyword::EndModule) {
            return Ok(None);
        }
        if !self.header.all_directed() {
            return Ok(None);
        }
        Ok(Some(Place::End))
    }

    /// At the name of a cell.
    fn at_cell(&mut self, alloc: Global, name: &'a [u8], lexeme: &Lexeme<'a>) -> Step
        ensures { meant lexeme.now ≡ NameLexeme name.now → Steps Place.Item self.old lexeme.now result self.new }
    {
        let Some(kind) = CellKind::from_name(name) else {
            return Ok(None);
        };
        if self.known.clashes(name) {
            return Ok(None);
        }
        self.known.stand(alloc, name)?;
        self.instance.kind = kind;
        self.instance.joins.clear();
        Ok(Some(Place::InstanceName))
    }

    /// Behind the word that begins a declaration.
    pub(crate) fn at_lead(&mut self, alloc: Global, at: LeadPlace, lexeme: &Lexeme<'a>) -> Step
        ensures { Steps (Place.Lead at) self.old lexeme.now result self.new }
    {
        let Some(name) = lexeme.name() else {
            let Some(after) = self.lead.step(at, lexeme) else {
                return Ok(None);
            };
            return Ok(Some(Place::Lead(after)));
        };
        if !takes_name(at) {
            return Ok(None);
        }
        if self.breaks_declared(name) {
            return Ok(None);
        }
        self.take_declared(alloc, name)?;
        Ok(Some(Place::AfterDeclared))
    }

    /// At a further name of a declaration.
    pub(crate) fn at_declared(&mut self, alloc: Global, lexeme: &Lexeme<'a>) -> Step
        ensures { Steps Place.Declared self.old lexeme.now result self.new }
    {
        let Some(name) = lexeme.name() else {
            return Ok(None);
        };
        if self.breaks_declared(name) {
            return Ok(None);
        }
        self.take_declared(alloc, name)?;
        Ok(Some(Place::AfterDeclared))
    }

    /// Whether a name that is declared breaks a rule. Six look-ups of O(log n) comparisons.
    fn breaks_declared(&self, name: &[u8]) -> bool
        ensures { (head : Head) (items : List Item) (spec : Spec LeadOf) (names : List (List ℕ))
            → KeepsNames self.now.known (at_declared head items spec names) → IsSaid lead_output spec self.now.lead
            → IsEarly self.now → IsBodyWith self.now head items spec names
            → Decides result (BreaksRule (at_declared head items spec names) (NameLexeme name.now)) }
    {
        let span = self.lead.span;
        if self.known.redeclares(name, span) {
            return true;
        }
        if self.known.clashes_declared(name, span) {
            return true;
        }
        if self.lead.output.is_none() {
            return false;
        }
        if !self.header.lacks_way(name) {
            return true;
        }
        self.crowds_items(name)
    }

    /// Takes a name that is declared and breaks no rule. Five look-ups of O(log n) comparisons.
    fn take_declared(&mut self, alloc: Global, name: &'a [u8]) -> Result<(), Memory>
        ensures { (head : Head) (items : List Item) (spec : Spec LeadOf) (names : List (List ℕ))
            → KeepsNames self.old.known (at_declared head items spec names) → IsSaid lead_output spec self.old.lead
            → IsEarly self.old → IsBodyWith self.old head items spec names
            → ¬ BreaksRule (at_declared head items spec names) (NameLexeme name.now)
            → IfOk result (λ u. IsDeclaredNext head items spec names name.now self.new) }
    {
        let span = self.lead.span;
        self.known.declare(alloc, name, span)?;
        let Some(output) = self.lead.output else {
            return Ok(());
        };
        self.header.direct(name, output, span)?;
        Ok(())
    }
}
