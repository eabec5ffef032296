//! The lines of a text as they stand, before continued ones are joined.
ghost use Rattle.std.specs.Prelude.{◌≡◌, ℕ, ◌+◌, ◌<◌, ◌≤◌, ◌==◌, List, [], ◌∷◌, ◌++◌, length, if◌then◌else◌};
ghost use Rattle.std.specs.List.{position, position_or_len};
ghost use Rattle.std.specs.Str.Lines.{lines, strip_carriage_return};
ghost use Rattle.ncl_blif.specs.Lines.{uncommented, is_continued};

/// The line that a text begins with, without its comment, and the rest of the text after it.
///
/// Linear in the line.
pub(crate) fn first_piece(text: &[u8]) -> (&[u8], &[u8])
    requires { 0 < length text.now }
    ensures { (line : List ℕ) × (lines text.now ≡ line ∷ lines result.1.now) × (result.0.now ≡ uncommented line)
        × (length result.1.now < length text.now) }
{
    let (line, rest) = first_line(text);
    (before_comment(line), rest)
}

/// The line that a text begins with, and the rest of the text after it.
///
/// Linear in the line.
fn first_line(text: &[u8]) -> (&[u8], &[u8])
    requires { 0 < length text.now }
    ensures lines { lines text.now ≡ result.0.now ∷ lines result.1.now }
    ensures shorter { length result.1.now < length text.now }
{
    let end = place_of(text, b'\n');
    if end < text.len() {
        (without_return(&text[..end]), &text[end + 1..])
    } else {
        (text, &text[end..])
    }
}

/// A line without the carriage return at its end.
fn without_return(line: &[u8]) -> &[u8]
    ensures { result.now ≡ strip_carriage_return line.now }
{
    match line.split_last() {
        Some((b'\r', front)) => front,
        _ => line,
    }
}

/// A line without its comment, which goes from the first `#` to the end. Linear in the line.
fn before_comment(line: &[u8]) -> &[u8]
    ensures { result.now ≡ uncommented line.now }
{
    &line[..place_of(line, b'#')]
}

/// The place of the first of a byte in a text, or the text's length where it isn't there.
///
/// Linear in the text.
fn place_of(text: &[u8], byte: u8) -> usize
    ensures place { result ≡ position_or_len (λ here. here == byte) text.now }
    ensures within { result ≤ length text.now }
{
    match first_place(text, byte) {
        Some(place) => place,
        None => text.len(),
    }
}

/// The place of the first of a byte in a text, or `None` where it isn't there. Linear in the text.
fn first_place(text: &[u8], byte: u8) -> Option<usize>
    ensures { result ≡ position (λ here. here == byte) text.now }
{
    text.iter().position(|here| *here == byte)
}

/// A line without the `\` at its end, and whether it has one.
pub(crate) fn without_mark(line: &[u8]) -> (&[u8], bool)
    ensures mark { result.1 ≡ is_continued line.now }
    ensures front { line.now ≡ (if result.1 then result.0.now ++ 92 ∷ [] else result.0.now) }
{
    let Some((last, front)) = line.split_last() else {
        return (line, false);
    };
    if *last == b'\\' {
        (front, true)
    } else {
        (line, false)
    }
}
