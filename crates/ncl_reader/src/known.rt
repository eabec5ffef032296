//! What is kept of the names that stand.
ghost use Rattle.std.specs.Prelude.{◌≡◌, List, [], ◌∷◌, ◌++◌, Option, IfOk};
ghost use Rattle.std.specs.Bool.{Decides};
ghost use Rattle.std.specs.Option.{option_map};
ghost use Rattle.ncl_reader.specs.Lexemes.{Lexeme, Name as NameLexeme};
ghost use Rattle.ncl_reader.specs.Grammar.{Range};
ghost use Rattle.ncl_reader.specs.Forms.{IsDeclaring, IsAtNet};
ghost use Rattle.ncl_reader.specs.Vectors.{span_of};
ghost use Rattle.ncl_reader.specs.Rules.{Redeclares, Clashes};
ghost use Rattle.ncl_reader.specs.Lead.{IsSpanOf};
ghost use Rattle.ncl_reader.specs.Known.{KeepsNames};

use crate::kept_bits::KeptBits;
use crate::name_set::NameSet;
use crate::names::is_bit;
use crate::ranges::Ranges;
use crate::span::Span;
use ncl_base::Memory;
use std::alloc::Global;

/// The names that stand: how they were declared, which have the form of a bit's name, and which a connection used.
#[derive(Drop)]
pub(crate) struct Known<'a> {
    pub ranges: Ranges<'a>,
    pub bits: KeptBits<'a>,
    pub uses: NameSet<'a>,
}

impl<'a> Known<'a> {
    /// No names.
    pub(crate) fn new(alloc: Global) -> Known<'a>
        ensures { KeepsNames result [] }
    {
        Known {
            ranges: Ranges::new(alloc),
            bits: KeptBits::new(alloc),
            uses: NameSet::new(alloc),
        }
    }

    /// Whether a name that is declared was declared with another range, or used before it gets one. Costs as
    /// `agrees` of `Ranges`, and where a range is given as `has` of `NameSet`.
    pub(crate) fn redeclares(&self, name: &[u8], span: Option<Span>) -> bool
        ensures { (xs : List Lexeme) (range : Option Range) → KeepsNames self.now xs → IsDeclaring xs range
            → option_map span_of range ≡ span → Decides result (Redeclares xs name.now) }
    {
        if !self.ranges.agrees(name, span) {
            return true;
        }
        match span {
            Some(_) => self.uses.has(name),
            None => false,
        }
    }

    /// Whether a name that isn't declared here is that of a bit of a vector. A look-up of O(log n) comparisons,
    /// where n is the number of vectors.
    pub(crate) fn clashes(&self, name: &[u8]) -> bool
        ensures { (xs : List Lexeme) → KeepsNames self.now xs → ((range : Option Range) → IsDeclaring xs range → ⊥)
            → Decides result (Clashes xs name.now) }
    {
        is_bit(&self.ranges, name)
    }

    /// Whether a name that is declared is that of a bit of a vector, or a name of one of its bits stands. Three
    /// look-ups of O(log n) comparisons; where the name is declared as a vector for the first time, each number
    /// that stands with it is looked at.
    pub(crate) fn clashes_declared(&self, name: &[u8], span: Option<Span>) -> bool
        ensures { (xs : List Lexeme) (range : Option Range) → KeepsNames self.now xs → IsDeclaring xs range
            → option_map span_of range ≡ span → (Redeclares xs name.now → ⊥) → Decides result (Clashes xs name.now) }
    {
        if is_bit(&self.ranges, name) {
            return true;
        }
        let Some(span) = span else {
            return false;
        };
        if self.ranges.of(name).is_some() {
            return false;
        }
        self.bits.has_bit(name, span)
    }

    /// Keeps a name that is neither declared nor used here. Two look-ups of O(log n) comparisons.
    pub(crate) fn stand(&mut self, alloc: Global, name: &'a [u8]) -> Result<(), Memory>
        ensures { (xs : List Lexeme) → KeepsNames self.old xs → ((range : Option Range) → IsDeclaring xs range → ⊥)
            → (IsAtNet xs → ⊥) → (Clashes xs name.now → ⊥) → IfOk result (λ u. KeepsNames self.new (xs ++ NameLexeme name.now ∷ [])) }
    {
        self.bits.stand(alloc, name)?;
        Ok(())
    }

    /// Keeps a name that is declared. Two look-ups of O(log n) comparisons; for a vector two more, and one for each name
    /// that was declared or used since the last.
    pub(crate) fn declare(
        &mut self,
        alloc: Global,
        name: &'a [u8],
        span: Option<Span>,
    ) -> Result<(), Memory>
        ensures { (xs : List Lexeme) (range : Option Range) → KeepsNames self.old xs → IsDeclaring xs range → IsSpanOf range span
            → (Redeclares xs name.now → ⊥) → (Clashes xs name.now → ⊥)
            → IfOk result (λ u. KeepsNames self.new (xs ++ NameLexeme name.now ∷ [])) }
    {
        self.bits.stand(alloc, name)?;
        self.ranges.declare(name, span)?;
        if span.is_some() {
            self.uses.sort()?;
        }
        Ok(())
    }

    /// Keeps the name of a net on a pin. Two look-ups of O(log n) comparisons.
    pub(crate) fn join(&mut self, alloc: Global, name: &'a [u8]) -> Result<(), Memory>
        ensures { (xs : List Lexeme) → KeepsNames self.old xs → IsAtNet xs → (Clashes xs name.now → ⊥)
            → IfOk result (λ u. KeepsNames self.new (xs ++ NameLexeme name.now ∷ [])) }
    {
        self.bits.stand(alloc, name)?;
        self.uses.add(name)?;
        Ok(())
    }
}
