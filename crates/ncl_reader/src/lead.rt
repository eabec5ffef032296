//! What a declaration begins with.
ghost use Rattle.std.specs.Prelude.{◌≡◌, ◌≢◌, ℕ, ◌<◌, List, MatchOption};
ghost use Rattle.ncl_reader.specs.Grammar.{Direction, Lead as LeadOf, Group, Head, Item};
ghost use Rattle.ncl_reader.specs.Lexemes.{Name, Number as NumberLexeme, Mark};
ghost use Rattle.ncl_reader.specs.Vectors.{IsTooLarge};
ghost use Rattle.ncl_reader.specs.Partial.{LeadPart, leading, heading, inside, declaring, lead_place, direction_place, word_place};
ghost use Rattle.ncl_reader.specs.Lead.{LeadTakes, IsLed, IsValue, direction_output, lead_output, takes_name};
ghost use Rattle.ncl_reader.specs.Meant.{meant};

use crate::keyword::Keyword;
use crate::lexeme::{Lexeme, Sign};
use crate::number::small;
use crate::place::LeadPlace;
use crate::span::Span;

/// The most bits of a vector.
const MOST_VECTOR_BITS: u32 = 1024;

/// What a declaration begins with, as far as it is read: whether it tells outputs, if it gives a direction; its
/// range, if it has one; and the first number of a range that isn't read whole.
#[derive(Clone, Copy)]
pub(crate) struct Lead {
    pub output: Option<bool>,
    pub span: Option<Span>,
    pub first: u16,
}

impl Lead {
    /// One token more that is no name, or `None` where it breaks.
    pub(crate) fn step(&mut self, at: LeadPlace, lexeme: &Lexeme) -> Option<LeadPlace>
        ensures output { self.new.output ≡ self.old.output }
        ensures header { (title : List ℕ) (groups : List (Group Direction)) (part : LeadPart Direction)
            → ((x : List ℕ) → meant lexeme.now ≢ Name x) → lead_place direction_place part ≡ at
            → IsLed direction_output part self.old
            → LeadTakes (λ p. heading title groups (leading p)) direction_output direction_place part (meant lexeme.now) result self.new }
        ensures item { (head : Head) (items : List Item) (part : LeadPart LeadOf)
            → ((x : List ℕ) → meant lexeme.now ≢ Name x) → lead_place word_place part ≡ at
            → IsLed lead_output part self.old
            → LeadTakes (λ p. inside head items (declaring (leading p))) lead_output word_place part (meant lexeme.now) result self.new }
    {
        match at {
            LeadPlace::Direction => {
                if lexeme.is_word(Keyword::Wire) {
                    return Some(LeadPlace::Wire);
                }
                behind(lexeme, Sign::LBracket, LeadPlace::First)
            }
            LeadPlace::Wire => behind(lexeme, Sign::LBracket, LeadPlace::First),
            LeadPlace::First => {
                let Some(first) = small_number(lexeme) else {
                    return None;
                };
                self.first = first;
                Some(LeadPlace::Colon)
            }
            LeadPlace::Colon => behind(lexeme, Sign::Colon, LeadPlace::Last),
            LeadPlace::Last => {
                let Some(last) = small_number(lexeme) else {
                    return None;
                };
                let first = self.first;
                let span = Span { first, last };
                if span.width() > MOST_VECTOR_BITS {
                    return None;
                }
                self.span = Some(span);
                Some(LeadPlace::Close)
            }
            LeadPlace::Close => behind(lexeme, Sign::RBracket, LeadPlace::Range),
            LeadPlace::Range => None,
        }
    }
}

/// The place behind a sign, where the token is the sign.
fn behind(lexeme: &Lexeme, sign: Sign, after: LeadPlace) -> Option<LeadPlace>
    ensures { MatchOption result (meant lexeme.now ≢ Mark sign) (λ at. (at ≡ after) × (meant lexeme.now ≡ Mark sign)) }
{
    if lexeme.is_mark(sign) {
        return Some(after);
    }
    None
}

/// Whether a name may come next.
pub(crate) fn takes_name(at: LeadPlace) -> bool
    ensures { result ≡ takes_name at }
{
    match at {
        LeadPlace::Direction | LeadPlace::Wire | LeadPlace::Range => true,
        _ => false,
    }
}

/// The value of a number of at most five digits and at most 65,535.
fn small_number(lexeme: &Lexeme) -> Option<u16>
    ensures { MatchOption result ((digits : List ℕ) → meant lexeme.now ≡ NumberLexeme digits → IsTooLarge digits)
        (λ n. (digits : List ℕ) × (meant lexeme.now ≡ NumberLexeme digits) × IsValue digits n × ¬ IsTooLarge digits) }
{
    let Some(number) = lexeme.number() else {
        return None;
    };
    small(number)
}
