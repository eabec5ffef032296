//! The words that are offered to the adder.
ghost use Rattle.std.specs.Prelude.{◌≡◌, ◌*◌, ◌<◌, ◌≤◌, length, vec_len, All, IfOk};
ghost use Rattle.ncl_demo.specs.Offered.{in_turn, demo_word, demo_words};

use ncl_base::{Memory, Word};
use std::alloc::Global;

/// So many bits of two numbers in turn, the least significant first. Takes no memory.
fn in_turn(bits: u32, a: u64, b: u64) -> Word
    requires { bits ≤ 32 }
    ensures bits { result ≡ in_turn bits a b }
    ensures wide { length result ≡ 2 * bits }
{
    let mut word = Word::new();
    for place in 0..bits {
        word.push((a >> place) % 2 == 1);
        word.push((b >> place) % 2 == 1);
    }
    word
}

/// The word that the demo offers to an adder of so many bits at a place, from 0. Takes no memory.
fn demo_word(bits: u32, place: u64) -> Word
    requires few { bits ≤ 32 }
    requires place { place < 8 }
    ensures word { result ≡ demo_word bits place }
    ensures wide { length result ≡ 2 * bits }
{
    let count = 1u64 << bits;
    in_turn(bits, (5 * place + 3) % count, (2 * place + 1) % count)
}

/// The eight words that the demo offers to an adder of so many bits, from 1 to 32.
///
/// For `i` from 0 to 7 a word has the bits of `5 i + 3` and of `2 i + 1` in turn, both modulo 2 to the number of
/// bits, the least significant first. Linear in the bits. The only error is want of memory.
pub fn demo_words(alloc: Global, bits: u32) -> Result<Vec<Word>, Memory>
    requires some { 0 < bits }
    requires few { bits ≤ 32 }
    ensures words { IfOk result (λ words. words.items ≡ demo_words bits) }
    ensures eight { IfOk result (λ words. vec_len words ≡ 8) }
    ensures wide { IfOk result (λ words. All (λ word. length word ≡ 2 * bits) words.items) }
{
    let mut words = Vec::new(alloc);
    for place in 0..8 {
        words.push(demo_word(bits, place))?;
    }
    Ok(words)
}
