//! How names were declared.
ghost use Rattle.std.specs.Prelude.{◌≡◌, ◌≢◌, List, [], ◌∷◌, ◌++◌, ◌<◌, Option, Some, IfOk, MatchOption};
ghost use Rattle.std.specs.Bool.{Decides};
ghost use Rattle.std.specs.Option.{option_map};
ghost use Rattle.ncl_reader.specs.declared.span.Span.{Span};
ghost use Rattle.ncl_reader.specs.Lexemes.{Lexeme, Name as NameLexeme};
ghost use Rattle.ncl_reader.specs.Grammar.{Range};
ghost use Rattle.ncl_reader.specs.Forms.{IsDeclaring};
ghost use Rattle.ncl_reader.specs.Vectors.{span_of, IsDeclared};
ghost use Rattle.ncl_reader.specs.Ranges.{IsRanges, range_at};

use crate::name_set::NameSet;
use crate::span::Span;
use ncl_base::Memory;
use std::alloc::Global;
use std::collections::BTreeMap;

/// The names that are declared: vectors, each with its range, and names with none.
#[derive(Drop)]
pub(crate) struct Ranges<'a> {
    vectors: BTreeMap<&'a [u8], Span>,
    plain: NameSet<'a>,
}

impl<'a> Ranges<'a> {
    /// No names.
    pub(crate) fn new(alloc: Global) -> Ranges<'a>
        ensures { IsRanges result [] }
    {
        Ranges {
            vectors: BTreeMap::new(alloc),
            plain: NameSet::new(alloc),
        }
    }

    /// How a name was declared, if it was. Two look-ups of O(log n) comparisons, and one with each name that was
    /// declared since the last vector.
    pub(crate) fn of(&self, name: &[u8]) -> Option<Option<Span>>
        ensures { result ≡ range_at self.now name.now }
    {
        if let Some(span) = self.vectors.get(name) {
            return Some(Some(*span));
        }
        if self.plain.has(name) {
            return Some(None);
        }
        None
    }

    /// The range of a name that is declared with one. A look-up of O(log n) comparisons, where n is the number of
    /// vectors.
    pub(crate) fn vector(&self, name: &[u8]) -> Option<Span>
        ensures { MatchOption result ((span : Span) → range_at self.now name.now ≢ Some (Some span))
            (λ span. range_at self.now name.now ≡ Some (Some span)) }
    {
        self.vectors.get(name).copied()
    }

    /// Whether a name was never declared with another range. Costs as `vector` does where no range is given, and as `of`
    /// does where one is.
    pub(crate) fn agrees(&self, name: &[u8], span: Option<Span>) -> bool
        ensures { (xs : List Lexeme) → IsRanges self.now xs
            → Decides result ((other : Option Range) → IsDeclared xs name.now other → option_map span_of other ≡ span) }
    {
        match span {
            Some(_) => match self.of(name) {
                Some(known) => known == span,
                None => true,
            },
            None => match self.vector(name) {
                Some(_) => false,
                None => true,
            },
        }
    }

    /// Declares a name with a range or with none. A look-up of O(log n) comparisons, for a vector and for each name that
    /// was declared since the last.
    pub(crate) fn declare(&mut self, name: &'a [u8], span: Option<Span>) -> Result<(), Memory>
        ensures { (xs : List Lexeme) (range : Option Range) → IsRanges self.old xs → IsDeclaring xs range
            → option_map span_of range ≡ span
            → ((other : Option Range) → IsDeclared xs name.now other → option_map span_of other ≡ span)
            → ((s : Span) → span ≡ Some s → (s.first < 65536) × (s.last < 65536))
            → IfOk result (λ u. IsRanges self.new (xs ++ NameLexeme name.now ∷ [])) }
    {
        let Some(span) = span else {
            self.plain.add(name)?;
            return Ok(());
        };
        match self.vectors.insert(name, span) {
            Ok(_) => {}
            Err(_) => return Err(Memory),
        }
        self.plain.sort()?;
        Ok(())
    }
}
