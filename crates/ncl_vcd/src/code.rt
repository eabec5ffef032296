//! The identifier codes of nets.
ghost use Rattle.std.specs.Prelude.{◌≡◌, ◌++◌, OnOk};
ghost use Rattle.ncl_vcd.specs.Codes.{identifier_code};

use ncl_base::Memory;

/// Appends the code of the net with a number: at most five characters.
pub(crate) fn push_code(text: &mut Vec<u8>, number: u32) -> Result<(), Memory>
    ensures { OnOk result (text.new.items ≡ text.old.items ++ identifier_code number) }
{
    text.push(33 + (number % 94) as u8)?;
    let mut left = number / 94;
    while left > 0 {
        text.push(33 + (left % 94) as u8)?;
        left /= 94;
    }
    Ok(())
}
