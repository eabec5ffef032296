//! Files of words.
ghost use Rattle.std.specs.Prelude.{◌≡◌, ◌≤◌, ◌⊎◌, None, Some, IfOk, IfErr, OnOk, MatchResult, map, length};
ghost use Rattle.std.specs.List.{list_all};
ghost use Rattle.ncl_base.specs.Words.{text_of};
ghost use Rattle.ncl_base.specs.TextLines.{NumberedText};
ghost use Rattle.ncl_delay.specs.declared.fault.WordsFault.TheVariants.{Memory as OutOfMemory};
ghost use Rattle.ncl_delay.specs.Lines.{told_lines};
ghost use Rattle.ncl_delay.specs.WordText.{is_bit, word_fault, words_fault};

use crate::fault::WordsFault;
use crate::lines::{tells, trimmed};
use ncl_base::{MOST_BITS, MOST_BYTES, Word};
use std::alloc::Global;

/// The most words of a file.
pub const MOST_WORDS: usize = 512;

/// The words of a text, all of this width, in order.
///
/// Each line is empty, a remark, or a word of `0` and `1`, the first bit leftmost.
///
/// It answers the first broken line: `Syntax` where it has another byte, else `Width` where its length
/// isn't the width, else `TooMany` where 512 words stand before it; and `Memory` where memory was
/// refused.
///
/// Linear in the text.
pub fn read_words(alloc: Global, bytes: &[u8], width: usize) -> Result<Vec<Word>, WordsFault>
    requires some { 1 ≤ width }
    requires few { width ≤ MOST_BITS }
    requires short { length bytes.now ≤ MOST_BYTES }
    ensures unbroken { OnOk result (words_fault width 0 (told_lines bytes.now) ≡ None) }
    ensures words { IfOk result (λ words.
        map text_of words.items ≡ map (λ line. line.text) (told_lines bytes.now)) }
    ensures broken { IfErr result (λ fault.
        (fault ≡ OutOfMemory) ⊎ (words_fault width 0 (told_lines bytes.now) ≡ Some fault)) }
{
    let mut words = Vec::new(alloc);
    for (place, part) in bytes.split(|byte| *byte == b'\n').enumerate() {
        let line = trimmed(part);
        if tells(line) {
            let word = read_word(place as u32 + 1, line, width, words.len())?;
            match words.push(word) {
                Ok(()) => {}
                Err(_) => return Err(WordsFault::Memory),
            }
        }
    }
    Ok(words)
}

/// The word of a line of this number, which so many words stand before, or what breaks the line.
///
/// Linear in the line.
fn read_word(number: u32, line: &[u8], width: usize, before: usize) -> Result<Word, WordsFault>
    requires some { 1 ≤ width }
    requires few { width ≤ MOST_BITS }
    ensures { let line : NumberedText = record { number = number; text = line.now } in MatchResult result
        (λ word. (word_fault width before line ≡ None) × (text_of word ≡ line.text))
        (λ fault. word_fault width before line ≡ Some fault) }
{
    if !are_bits(line) {
        return Err(WordsFault::Syntax(number));
    }
    if line.len() != width {
        return Err(WordsFault::Width(number));
    }
    if before >= MOST_WORDS {
        return Err(WordsFault::TooMany(number));
    }
    Ok(Word::parse(line).unwrap())
}

/// Whether all bytes are bits: `0` or `1`. Linear in the bytes.
fn are_bits(bytes: &[u8]) -> bool
    ensures { result ≡ list_all is_bit bytes.now }
{
    bytes.iter().all(|byte| *byte == b'0' || *byte == b'1')
}
