//! The lesser of two words.
ghost use Rattle.std.specs.Prelude.{◌≡◌, length};
ghost use Rattle.std.specs.Option.{ForSome};
ghost use Rattle.ncl_reaching.specs.Asking.{is_first, lesser};

use ncl_base::Word;

/// Whether a word stands before another of its length as a binary number, or is it. Takes no memory. Linear in the bits.
fn is_first(word: &Word, other: &Word) -> bool
    requires { length word.now ≡ length other.now }
    ensures { result ≡ is_first word.now other.now }
{
    let others = other.bits();
    for (place, bit) in word.bits().iter().enumerate() {
        if *bit != others[place] {
            return others[place];
        }
    }
    true
}

/// The lesser of two words as binary numbers, of those that there are. Takes no memory. Linear in the bits.
pub(crate) fn lesser(word: Option<Word>, other: Option<Word>, bits: usize) -> Option<Word>
    requires word { ForSome word (λ word. length word ≡ bits) }
    requires other { ForSome other (λ other. length other ≡ bits) }
    ensures { result ≡ lesser word other }
{
    match (word, other) {
        (Some(word), Some(other)) => {
            if is_first(&word, &other) {
                Some(word)
            } else {
                Some(other)
            }
        }
        (Some(word), None) => Some(word),
        (None, other) => other,
    }
}
