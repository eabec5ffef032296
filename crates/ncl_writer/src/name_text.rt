//! Names as a text has them.
ghost use Rattle.std.specs.Prelude.{◌≡◌, ◌++◌, OnOk};
ghost use Rattle.std.specs.List.{list_all};
ghost use Rattle.ncl_token.specs.Bytes.{begins_word as word_begin_test, continues_word as word_test, is_graphic as graphic_test};
ghost use Rattle.ncl_writer.specs.Names.{is_plain, is_writable_name, spelled_name};

use ncl_base::Memory;
use ncl_reader::Keyword;

/// Appends a name as it is, or where it is no word or is reserved, escaped. Linear in the name.
pub(crate) fn push_name(text: &mut Vec<u8>, name: &[u8]) -> Result<(), Memory>
    ensures { OnOk result (text.new.items ≡ text.old.items ++ spelled_name name.now) }
{
    if is_plain(name) {
        text.extend_from_slice(name)?;
    } else {
        text.push(b'\\')?;
        text.extend_from_slice(name)?;
        text.push(b' ')?;
    }
    Ok(())
}

/// Whether a name is a word that isn't reserved. Linear in the name.
fn is_plain(name: &[u8]) -> bool
    ensures { result ≡ is_plain name.now }
{
    match name {
        [first, rest @ ..] => {
            begins_word(*first) && all_continue(rest) && Keyword::of(name).is_none()
        }
        [] => false,
    }
}

/// Whether a word may go on with all of these bytes. Linear in the bytes.
fn all_continue(bytes: &[u8]) -> bool
    ensures { result ≡ list_all word_test bytes.now }
{
    bytes.iter().all(|byte| continues_word(*byte))
}

/// Whether a name has a byte, and only bytes from 33 to 126. Linear in the name.
pub(crate) fn is_writable_name(name: &[u8]) -> bool
    ensures { result ≡ is_writable_name name.now }
{
    match name {
        [_, ..] => all_graphic(name),
        [] => false,
    }
}

/// Whether all bytes are from 33 to 126. Linear in the bytes.
fn all_graphic(bytes: &[u8]) -> bool
    ensures { result ≡ list_all graphic_test bytes.now }
{
    bytes.iter().all(|byte| is_graphic(*byte))
}

/// Whether a byte is a printing character other than the blank.
fn is_graphic(byte: u8) -> bool
    ensures { result ≡ graphic_test byte }
{
    byte.is_ascii_graphic()
}

/// Whether a word may begin with a byte: a letter or `_`.
fn begins_word(byte: u8) -> bool
    ensures { result ≡ word_begin_test byte }
{
    byte.is_ascii_alphabetic() || byte == b'_'
}

/// Whether a word may go on with a byte: a letter, a digit, `_` or `$`.
fn continues_word(byte: u8) -> bool
    ensures { result ≡ word_test byte }
{
    begins_word(byte) || byte.is_ascii_digit() || byte == b'$'
}
