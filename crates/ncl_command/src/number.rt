//! Numbers in arguments.
ghost use Rattle.std.specs.Prelude.{◌≡◌, ◌≤◌, IfSome};
ghost use Rattle.std.specs.List.{list_all};
ghost use Rattle.std.specs.Char.{is_ascii_digit};
ghost use Rattle.ncl_command.specs.Command.{counted, is_number, number_said};

/// Whether a text has decimal digits alone. Linear in the text.
fn are_digits(text: &str) -> bool
    ensures { result ≡ list_all is_ascii_digit text.now }
{
    text.as_bytes().iter().all(|byte| byte.is_ascii_digit())
}

/// Whether a text has decimal digits alone, one or more, and at most so many. Linear in the text.
fn is_number(text: &str, most_digits: usize) -> bool
    ensures { result ≡ is_number most_digits text.now }
{
    !text.is_empty() && text.len() <= most_digits && are_digits(text)
}

/// The number that a text of at most so many decimal digits says. Linear in the text.
fn number(text: &str, most_digits: usize) -> Option<u32>
    requires { most_digits ≤ 9 }
    ensures { result ≡ number_said most_digits text.now }
{
    if !is_number(text, most_digits) {
        return None;
    }
    text.parse::<u32>().ok()
}

/// A number from 1 to `most`, in at most so many decimal digits. Linear in the text.
pub(crate) fn counted(text: &str, most_digits: usize, most: u32) -> Option<u32>
    requires { most_digits ≤ 9 }
    ensures number { result ≡ counted most_digits most text.now }
    ensures within { IfSome result (λ n. (1 ≤ n) × (n ≤ most)) }
{
    number(text, most_digits).filter(|n| *n >= 1 && *n <= most)
}
