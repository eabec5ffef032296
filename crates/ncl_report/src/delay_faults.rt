//! The lines that tell why the files of a simulation are not read.
ghost use Rattle.std.specs.Prelude.{◌≡◌, IfOk};
ghost use Rattle.ncl_report.specs.DelayText.{delay_line, words_line};

use ncl_base::Memory;
use ncl_delay::{DelayFault, WordsFault};
use ncl_lines::{line_of, numbered_line};
use std::alloc::Global;

/// The line that tells why a file of delays is not read: what breaks it, with the number of the line. Fails where memory
/// is refused.
pub fn delay_text(alloc: Global, fault: &DelayFault) -> Result<Vec<u8>, Memory>
    ensures { IfOk result (λ text. text.items ≡ delay_line fault.now) }
{
    match *fault {
        DelayFault::Syntax(line) => {
            numbered_line(alloc, b"delays: syntax in line ", line as usize)
        }
        DelayFault::UnknownCell(line) => {
            numbered_line(alloc, b"delays: unknown cell in line ", line as usize)
        }
        DelayFault::Memory => line_of(alloc, b"out of memory", b""),
    }
}

/// The line that tells why a file of words is not read: what breaks it, with the number of the line. Fails where memory
/// is refused.
pub fn words_text(alloc: Global, fault: &WordsFault) -> Result<Vec<u8>, Memory>
    ensures { IfOk result (λ text. text.items ≡ words_line fault.now) }
{
    match *fault {
        WordsFault::Syntax(line) => numbered_line(alloc, b"words: syntax in line ", line as usize),
        WordsFault::Width(line) => numbered_line(alloc, b"words: width in line ", line as usize),
        WordsFault::TooMany(line) => {
            numbered_line(alloc, b"words: too many in line ", line as usize)
        }
        WordsFault::Memory => line_of(alloc, b"out of memory", b""),
    }
}
