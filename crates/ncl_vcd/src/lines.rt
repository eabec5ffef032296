//! The lines of a dump.
ghost use Rattle.std.specs.Prelude.{◌≡◌, ◌+◌, ◌++◌, OnOk, codes};
ghost use Rattle.ncl_vcd.specs.Dump.{line, variable_line, time_line, value_line};

use crate::code::push_code;
use itoa::Buffer;
use ncl_base::Memory;

/// Appends a text as a line.
pub(crate) fn push_line(text: &mut Vec<u8>, bytes: &[u8]) -> Result<(), Memory>
    ensures { OnOk result (text.new.items ≡ text.old.items ++ line bytes.now) }
{
    text.extend_from_slice(bytes)?;
    text.push(b'\n')?;
    Ok(())
}

/// Appends the line that names the module.
pub(crate) fn push_scope(text: &mut Vec<u8>, name: &[u8]) -> Result<(), Memory>
    ensures { OnOk result (text.new.items ≡ text.old.items ++ line (codes "$scope module " ++ name.now ++ codes " $end")) }
{
    text.extend_from_slice(b"$scope module ")?;
    text.extend_from_slice(name)?;
    text.extend_from_slice(b" $end\n")?;
    Ok(())
}

/// Appends the line that names a net.
pub(crate) fn push_variable(text: &mut Vec<u8>, net: u32, name: &[u8]) -> Result<(), Memory>
    ensures { OnOk result (text.new.items ≡ text.old.items ++ line (variable_line net name.now)) }
{
    text.extend_from_slice(b"$var wire 1 ")?;
    push_code(text, net)?;
    text.push(b' ')?;
    text.extend_from_slice(name)?;
    text.extend_from_slice(b" $end\n")?;
    Ok(())
}

/// Appends the line that tells a value.
pub(crate) fn push_value(text: &mut Vec<u8>, net: u32, value: bool) -> Result<(), Memory>
    ensures { OnOk result (text.new.items ≡ text.old.items ++ line (value_line net value)) }
{
    text.push(if value { b'1' } else { b'0' })?;
    push_code(text, net)?;
    text.push(b'\n')?;
    Ok(())
}

/// Appends the line that tells a time.
pub(crate) fn push_time(text: &mut Vec<u8>, time: u64) -> Result<(), Memory>
    ensures { OnOk result (text.new.items ≡ text.old.items ++ line (time_line time)) }
{
    let mut digits = Buffer::new();
    text.push(b'#')?;
    text.extend_from_slice(digits.format(time).as_bytes())?;
    text.push(b'\n')?;
    Ok(())
}
