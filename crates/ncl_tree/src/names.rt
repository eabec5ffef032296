//! Names of cells and nets that are made.
ghost use Rattle.std.specs.Prelude.{◌≡◌, ◌<◌, ◌∷◌, ◌++◌, IfOk};
ghost use Rattle.ncl_tree.specs.PartNames.{cell_name_of, net_name_of, digit_36, digits_36, most_parts};

use ncl_base::{Memory, Name};
use std::alloc::Global;

/// A digit in base 36.
fn digit(value: u32) -> u8
    requires { value < 36 }
    ensures { result ≡ digit_36 value }
{
    if value < 10 {
        b'0' + value as u8
    } else {
        b'a' + (value - 10) as u8
    }
}

/// The last six digits of a number in base 36.
fn digits(number: u32) -> [u8; 6]
    ensures { result ≡ digits_36 6 number }
{
    [
        digit(number / 60_466_176 % 36),
        digit(number / 1_679_616 % 36),
        digit(number / 46_656 % 36),
        digit(number / 1_296 % 36),
        digit(number / 36 % 36),
        digit(number % 36),
    ]
}

/// The prefix, a letter, and six digits in base 36.
fn part_name(alloc: Global, prefix: &[u8], letter: u8, number: u32) -> Result<Name, Memory>
    ensures { IfOk result (λ name. name ≡ prefix.now ++ letter ∷ digits_36 6 number) }
{
    let mut bytes = prefix.to_vec(alloc)?;
    bytes.push(letter)?;
    bytes.extend_from_slice(&digits(number))?;
    let name = Name::from_bytes(alloc, &bytes)?;
    Ok(name)
}

/// The name of the cell with this number: the prefix, `c`, and six digits in base 36, leading zeros kept. The only
/// error is want of memory.
pub fn cell_name(alloc: Global, prefix: &[u8], number: u32) -> Result<Name, Memory>
    requires { number < most_parts }
    ensures { IfOk result (λ name. name ≡ cell_name_of prefix.now number) }
{
    part_name(alloc, prefix, b'c', number)
}

/// The name of the net of the cell with this number, which has `n` in place of `c`. The only error is want of memory.
pub fn net_name(alloc: Global, prefix: &[u8], number: u32) -> Result<Name, Memory>
    requires { number < most_parts }
    ensures { IfOk result (λ name. name ≡ net_name_of prefix.now number) }
{
    part_name(alloc, prefix, b'n', number)
}
