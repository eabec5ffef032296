//! Lines of a few pieces, and words in them.
ghost use Rattle.std.specs.Prelude.{◌≡◌, ◌++◌, IfOk, OnOk, codes, decimal};
ghost use Rattle.ncl_base.specs.Words.{character_of, text_of as word_text};
ghost use Rattle.ncl_lines.specs.Line.{line};

use itoa::Buffer;
use ncl_base::{Memory, Word};
use std::alloc::Global;

/// The line of two pieces, one after the other. Fails where memory is refused. Linear in the line.
pub fn line_of(alloc: Global, front: &[u8], back: &[u8]) -> Result<Vec<u8>, Memory>
    ensures { IfOk result (λ text. text.items ≡ line (front.now ++ back.now)) }
{
    let mut text = Vec::from_slice(alloc, front)?;
    text.extend_from_slice(back)?;
    text.extend_from_slice(b"\n")?;
    Ok(text)
}

/// The line of a piece and a number. Fails where memory is refused. Linear in the line.
pub fn numbered_line(alloc: Global, front: &[u8], number: usize) -> Result<Vec<u8>, Memory>
    ensures { IfOk result (λ text. text.items ≡ line (front.now ++ decimal number)) }
{
    let mut digits = Buffer::new();
    line_of(alloc, front, digits.format(number).as_bytes())
}

/// The line for something that has more nodes than the limit: a piece and a number tell of what. Fails where memory is
/// refused. Linear in the line.
pub fn limit_text(alloc: Global, front: &[u8], number: u32, limit: u32) -> Result<Vec<u8>, Memory>
    ensures { IfOk result (λ text. text.items
        ≡ line (front.now ++ decimal number ++ codes ": more than " ++ decimal limit ++ codes " nodes")) }
{
    let mut digits = Buffer::new();
    let mut text = Vec::from_slice(alloc, front)?;
    text.extend_from_slice(digits.format(number).as_bytes())?;
    text.extend_from_slice(b": more than ")?;
    text.extend_from_slice(digits.format(limit).as_bytes())?;
    text.extend_from_slice(b" nodes")?;
    text.extend_from_slice(b"\n")?;
    Ok(text)
}

/// Appends a number in decimal digits.
pub fn push_number(text: &mut Vec<u8>, number: u64) -> Result<(), Memory>
    ensures { OnOk result (text.new.items ≡ text.old.items ++ decimal number) }
{
    let mut digits = Buffer::new();
    text.extend_from_slice(digits.format(number).as_bytes())?;
    Ok(())
}

/// Appends a word, its first bit leftmost. Linear in its bits.
pub fn push_word(text: &mut Vec<u8>, word: &Word) -> Result<(), Memory>
    ensures { OnOk result (text.new.items ≡ text.old.items ++ word_text word.now) }
{
    for bit in word.bits() {
        text.push(character(*bit))?;
    }
    Ok(())
}

/// A bit as a character.
fn character(bit: bool) -> u8
    ensures { result ≡ character_of bit }
{
    if bit { b'1' } else { b'0' }
}
