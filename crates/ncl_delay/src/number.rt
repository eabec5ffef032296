//! Delays as they are written.
ghost use Rattle.std.specs.Prelude.{◌≡◌, IfSome};
ghost use Rattle.ncl_delay.specs.Delays.{IsDelay};
ghost use Rattle.ncl_delay.specs.DelayText.{delay_text};

use crate::delays::MOST_DELAY;

/// The most digits of a delay.
const MOST_DIGITS: usize = 7;

/// The delay of a field, or `None` where it is none: a number from 1 to `MOST_DELAY`, in at most `MOST_DIGITS` digits.
///
/// Looks at seven bytes at most.
pub(crate) fn read_delay(field: &[u8]) -> Option<u32>
    ensures value { result ≡ delay_text field.now }
    ensures range { IfSome result IsDelay }
{
    if field.len() > MOST_DIGITS {
        return None;
    }
    let mut value: u32 = 0;
    for byte in field {
        if !byte.is_ascii_digit() {
            return None;
        }
        value = value * 10 + u32::from(*byte - b'0');
    }
    if 1 <= value && value <= MOST_DELAY {
        Some(value)
    } else {
        None
    }
}
