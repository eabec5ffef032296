//! Numbers as they are written.
ghost use Rattle.std.specs.Prelude.{◌≡◌, true, ◌+◌, ◌<◌, ◌≤◌, MatchOption, length, slice_index};
ghost use Rattle.std.specs.Bool.{Decides};
ghost use Rattle.std.specs.Char.{is_ascii_digit};
ghost use Rattle.std.specs.List.{list_all};
ghost use Rattle.std.specs.Str.Parse.{AllDigits, digits_value};
ghost use Rattle.ncl_reader.specs.Vectors.{Covers, IsTooLarge};

use crate::span::Span;

/// A number as it is written: decimal digits.
#[derive(Clone, Copy)]
pub(crate) struct Number<'a> {
    pub digits: &'a [u8],
    ghost are_digits: { list_all is_ascii_digit digits.now ≡ true },
}

/// The most digits of a number, and its most value.
const MOST_DIGITS: usize = 5;

const MOST_NUMBER: u32 = 65_535;

/// The value of a number, or `None` where it has more than five digits or is above 65,535.
///
/// Looks at five digits at most.
pub(crate) fn small(number: Number) -> Option<u16>
    ensures { MatchOption result (IsTooLarge number.entry.digits.now)
        (λ n. (n ≡ digits_value 10 number.entry.digits.now) × ¬ IsTooLarge number.entry.digits.now) }
{
    small_value(number.digits)
}

/// Whether no bit of a vector has the number, however many digits it has.
///
/// Linear in the digits.
pub(crate) fn is_outside(number: Number, span: Span) -> bool
    ensures { Decides result (Covers span (digits_value 10 number.entry.digits.now) → ⊥) }
{
    lies_outside(number.digits, span)
}

/// The value of digits, or `None` where they are more than five or the value is above 65,535.
///
/// Looks at five digits at most.
pub(crate) fn small_value(digits: &[u8]) -> Option<u16>
    requires { AllDigits 10 digits.now }
    ensures { MatchOption result (IsTooLarge digits.now)
        (λ n. (n ≡ digits_value 10 digits.now) × ¬ IsTooLarge digits.now) }
{
    if digits.len() > MOST_DIGITS {
        return None;
    }
    let value = value_of(digits);
    if value > MOST_NUMBER {
        return None;
    }
    Some(value as u16)
}

/// The value of at most five digits. Linear in them.
fn value_of(digits: &[u8]) -> u32
    requires digits { AllDigits 10 digits.now }
    requires few { length digits.now ≤ 5 }
    ensures { result ≡ digits_value 10 digits.now }
{
    let mut value: u32 = 0;
    for digit in digits {
        value = value * 10 + u32::from(*digit - b'0');
    }
    value
}

/// Whether no bit of a vector has the number of these digits. Linear in them.
fn lies_outside(digits: &[u8], span: Span) -> bool
    requires { AllDigits 10 digits.now }
    ensures { Decides result (Covers span (digits_value 10 digits.now) → ⊥) }
{
    match small_value(without_zeros(digits)) {
        Some(number) => !span.covers(number),
        None => true,
    }
}

/// The digits behind the zeros at the front. Linear in the zeros.
fn without_zeros(digits: &[u8]) -> &[u8]
    requires { AllDigits 10 digits.now }
    ensures value { digits_value 10 result.now ≡ digits_value 10 digits.now }
    ensures digits { AllDigits 10 result.now }
    ensures first { 0 < length result.now → 48 < slice_index result.now 0 }
{
    let mut zeros = 0;
    while zeros < digits.len() && digits[zeros] == b'0' {
        zeros += 1;
    }
    &digits[zeros..]
}
