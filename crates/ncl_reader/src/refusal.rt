//! Why a token is refused.
ghost use Rattle.std.specs.Prelude.{◌≡◌, List, ℕ, Option};
ghost use Rattle.std.specs.Bool.{Decides};
ghost use Rattle.std.specs.Option.{option_map};
ghost use Rattle.ncl_reader.specs.Lexemes.{Lexeme as Token, Name as NameToken, Number as NumberToken, Mark as MarkToken, Word as WordToken};
ghost use Rattle.ncl_reader.specs.Grammar.{Direction, Lead as LeadOf, Range, Spec, Group, Head, Item};
ghost use Rattle.ncl_reader.specs.Forms.{in_ansi, at_declared, IsDeclaring, IsAtItem, IsAtConn, IsAtPin};
ghost use Rattle.ncl_reader.specs.Vectors.{span_of};
ghost use Rattle.ncl_reader.specs.Partial.{Partial, spelled, place_of};
ghost use Rattle.ncl_reader.specs.Refusals.{IsFaultAt};
ghost use Rattle.ncl_reader.specs.Rules.{Breaks, IsOutside, Crowds};
ghost use Rattle.ncl_reader.specs.Lead.{IsSaid, IsLedBy, direction_output, lead_output};
ghost use Rattle.ncl_reader.specs.Known.{KeepsNames};
ghost use Rattle.ncl_reader.specs.Draft.{HoldsAt, IsGroupedWith, IsBodyWith, IsEarly};
ghost use Rattle.ncl_reader.specs.Meant.{meant};

use crate::draft::Draft;
use crate::keyword::Keyword;
use crate::lead::takes_name;
use crate::lexeme::{Lexeme, Sign};
use crate::net_fault::NetFault;
use crate::number::{Number, is_outside};
use crate::place::{LeadPlace, Place};

impl<'a> Draft<'a> {
    /// Why a token that breaks is refused. Costs what the step cost.
    pub(crate) fn refusal(&self, place: Place, lexeme: &Lexeme<'a>, at: usize) -> NetFault
        ensures { (p : Partial) → HoldsAt place self.now p → Breaks (spelled p) (meant lexeme.now)
            → IsFaultAt (spelled p) (record { lexeme = meant lexeme.now; place = at }) result }
    {
        match lexeme {
            Lexeme::Name(name) => self.of_name(place, name, at),
            Lexeme::Number(number) => self.of_number(place, *number, at),
            Lexeme::Mark(sign) => of_mark(place, *sign, at),
            Lexeme::Word(word) => of_word(place, *word, at),
        }
    }

    /// The fault of a name.
    fn of_name(&self, place: Place, name: &[u8], at: usize) -> NetFault
        ensures { (p : Partial) → HoldsAt place self.now p
            → IsFaultAt (spelled p) (record { lexeme = NameToken name.now; place = at }) result }
    {
        match place {
            Place::Item => NetFault::UnknownCell(at),
            Place::Pin => NetFault::BadPins(at),
            Place::Connection => NetFault::Unsupported(at),
            Place::HeaderLead(lead) => self.of_led(lead, name, self.crowds_header(name), at),
            Place::HeaderName => self.of_declared(name, self.crowds_header(name), at),
            Place::Lead(lead) => self.of_led(lead, name, self.crowds_items(name), at),
            Place::Declared => self.of_declared(name, self.crowds_items(name), at),
            _ => self.of_plain(name, at),
        }
    }

    /// The fault of a name behind what a declaration begins with, by whether it makes the bits of ports too many
    /// where it is declared.
    fn of_led(&self, lead: LeadPlace, name: &[u8], crowds: bool, at: usize) -> NetFault
        ensures { (xs : List Token) → KeepsNames self.now.known xs → IsLedBy xs lead self.now.lead.span crowds name.now
            → ¬ IsAtItem xs → ¬ IsAtPin xs → ¬ IsAtConn xs
            → IsFaultAt xs (record { lexeme = NameToken name.now; place = at }) result }
    {
        if takes_name(lead) {
            return self.of_declared(name, crowds, at);
        }
        self.of_plain(name, at)
    }

    /// The fault of a name that is declared, by whether it makes the bits of ports too many.
    fn of_declared(&self, name: &[u8], crowds: bool, at: usize) -> NetFault
        ensures { (xs : List Token) (range : Option Range) → KeepsNames self.now.known xs → IsDeclaring xs range
            → option_map span_of range ≡ self.now.lead.span → Decides crowds (Crowds xs name.now)
            → IsFaultAt xs (record { lexeme = NameToken name.now; place = at }) result }
    {
        let span = self.lead.span;
        if self.known.redeclares(name, span) {
            return NetFault::Syntax(at);
        }
        if self.known.clashes_declared(name, span) {
            return NetFault::Unsupported(at);
        }
        if crowds {
            return NetFault::Unsupported(at);
        }
        NetFault::Syntax(at)
    }

    /// The fault of a name that isn't declared.
    fn of_plain(&self, name: &[u8], at: usize) -> NetFault
        ensures { (xs : List Token) → KeepsNames self.now.known xs → ((range : Option Range) → ¬ IsDeclaring xs range)
            → ¬ IsAtItem xs → ¬ IsAtPin xs → ¬ IsAtConn xs
            → IsFaultAt xs (record { lexeme = NameToken name.now; place = at }) result }
    {
        if self.known.clashes(name) {
            return NetFault::Unsupported(at);
        }
        NetFault::Syntax(at)
    }

    /// Whether a name that a declaration of the header has makes the bits of ports too many.
    pub(crate) fn crowds_header(&self, name: &[u8]) -> bool
        ensures { (groups : List (Group Direction)) (spec : Spec Direction) (names : List (List ℕ))
            → IsSaid direction_output spec self.now.lead → IsGroupedWith self.now groups spec names
            → Decides result (Crowds (in_ansi self.now.title.now groups spec names) name.now) }
    {
        let Some(span) = self.lead.span else {
            return false;
        };
        if self.header.has(name) {
            return false;
        }
        self.header.crowds(span)
    }

    /// Whether a name that a declaration of an item has makes the bits of ports too many.
    pub(crate) fn crowds_items(&self, name: &[u8]) -> bool
        ensures { (head : Head) (items : List Item) (spec : Spec LeadOf) (names : List (List ℕ))
            → IsSaid lead_output spec self.now.lead → IsEarly self.now → IsBodyWith self.now head items spec names
            → Decides result (Crowds (at_declared head items spec names) name.now) }
    {
        let Some(span) = self.lead.span else {
            return false;
        };
        if self.lead.output.is_none() {
            return false;
        }
        if !self.header.lacks_way(name) {
            return false;
        }
        self.header.crowds(span)
    }

    /// The fault of a number.
    fn of_number(&self, place: Place, number: Number, at: usize) -> NetFault
        ensures { (p : Partial) → HoldsAt place self.now p
            → IsFaultAt (spelled p) (record { lexeme = NumberToken number.entry.digits.now; place = at }) result }
    {
        if self.has_no_bit(place, number) {
            return NetFault::Syntax(at);
        }
        NetFault::Unsupported(at)
    }

    /// Whether a vector is on a pin and has no bit with a number.
    fn has_no_bit(&self, place: Place, number: Number) -> bool
        ensures { (p : Partial) → HoldsAt place self.now p
            → Decides result (IsOutside (spelled p) number.entry.digits.now) }
    {
        match place {
            Place::Index => {
                let Some(span) = self.net_range() else {
                    return false;
                };
                is_outside(number, span)
            }
            _ => false,
        }
    }
}

/// The fault of a sign.
fn of_mark(place: Place, sign: Sign, at: usize) -> NetFault
    ensures { (p : Partial) → place_of p ≡ place
        → IsFaultAt (spelled p) (record { lexeme = MarkToken sign; place = at }) result }
{
    match sign {
        Sign::RParen => of_close(place, at),
        Sign::Other => NetFault::Unsupported(at),
        Sign::LBracket => NetFault::Unsupported(at),
        Sign::RBracket => NetFault::Unsupported(at),
        Sign::Colon => NetFault::Unsupported(at),
        _ => NetFault::Syntax(at),
    }
}

/// The fault of a `)`.
fn of_close(place: Place, at: usize) -> NetFault
    ensures { (p : Partial) → place_of p ≡ place
        → IsFaultAt (spelled p) (record { lexeme = MarkToken Sign.RParen; place = at }) result }
{
    match place {
        Place::AfterConnection => NetFault::BadPins(at),
        Place::Net => NetFault::Unsupported(at),
        Place::AfterNet => NetFault::Unsupported(at),
        Place::Index => NetFault::Unsupported(at),
        _ => NetFault::Syntax(at),
    }
}

/// The fault of a reserved word.
fn of_word(place: Place, word: Keyword, at: usize) -> NetFault
    ensures { (p : Partial) → place_of p ≡ place
        → IsFaultAt (spelled p) (record { lexeme = WordToken word; place = at }) result }
{
    match word {
        Keyword::EndModule => match place {
            Place::Item => NetFault::Syntax(at),
            _ => NetFault::Unsupported(at),
        },
        _ => NetFault::Unsupported(at),
    }
}
