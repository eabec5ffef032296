//! Words of bits.
ghost use Rattle.std.specs.Prelude.{◌≡◌, ◌<◌, ◌≤◌, ◌↔◌, ◌++◌, [], ◌∷◌, length, IsSome, IfSome};
ghost use Rattle.ncl_base.specs.Words.{IsWordText, text_of};

use arrayvec::ArrayVec;
use std::marker::Model;

/// The most bits of a word, and so of a bank.
pub const MOST_BITS: usize = 128;

/// A word of at most 128 bits, the first bit leftmost, which contracts see as the list of its bits.
///
/// No call on a word takes memory.
#[derive(Clone, Drop, Debug)]
pub struct Word {
    bits: ArrayVec<bool, MOST_BITS>,
}

impl Model for Word {
    ghost use Rattle.std.specs.Prelude.{List, Bool, ◌≤◌, length};
    ghost use Rattle.ncl_base.specs.declared.word.TheConstants.{MOST_BITS};

    ghost Value = { List Bool };

    ghost view = { λ a. a.bits.items };

    ghost invariant = { λ a. length a.bits.items ≤ MOST_BITS };
}

impl Word {
    /// The word of a text of 1 to 128 characters `0` and `1`, or `None` for any other text.
    ///
    /// Linear in the text, of which at most 128 bytes are looked at.
    pub fn parse(text: &[u8]) -> Option<Word>
        ensures exactly { IsSome result ↔ IsWordText text.now }
        ensures value { IfSome result (λ word. text_of word ≡ text.now) }
    {
        if text.is_empty() || text.len() > MOST_BITS {
            return None;
        }
        let mut word = Word::new();
        for byte in text {
            match *byte {
                b'0' => word.push(false),
                b'1' => word.push(true),
                _ => return None,
            }
        }
        Some(word)
    }

    /// The word without bits.
    pub fn new() -> Word
        ensures { result ≡ [] }
    {
        Word {
            bits: ArrayVec::new(),
        }
    }

    /// Appends a bit.
    pub fn push(&mut self, bit: bool)
        requires { length self.old < MOST_BITS }
        ensures { self.new ≡ self.old ++ bit ∷ [] }
    {
        self.bits.push(bit);
    }

    /// The bits in order, of which there are at most 128.
    pub fn bits(&self) -> &[bool]
        ensures bits { result.now ≡ self.now }
        ensures few { length self.now ≤ MOST_BITS }
    {
        self.bits.as_slice()
    }
}
