//! The line that tells why a text is no list of models.
ghost use Rattle.std.specs.Prelude.{◌≡◌, ◌++◌, IfOk, MatchOption, decimal};
ghost use Rattle.ncl_lines.specs.Line.{line, out_of_memory};
ghost use Rattle.ncl_report.specs.BlifText.{blif_line};

use ncl_base::Memory;
use ncl_blif::BlifFault;
use ncl_lines::{line_of, numbered_line};
use std::alloc::Global;

/// What stands before the number in the line that tells a fault, and the number; none for want of memory.
fn told(fault: &BlifFault) -> Option<(&'static [u8], u32)>
    ensures { MatchOption result (blif_line fault.now ≡ out_of_memory) (λ parts. blif_line fault.now ≡ line (parts.0.now ++ decimal parts.1)) }
{
    match *fault {
        BlifFault::Syntax(number) => Some((b"blif: syntax in line ", number)),
        BlifFault::Unsupported(number) => Some((b"blif: unsupported in line ", number)),
        BlifFault::BadRow(number) => Some((b"blif: bad row in line ", number)),
        BlifFault::MixedCover(number) => Some((b"blif: mixed cover in line ", number)),
        BlifFault::TwoDrivers(number) => Some((b"blif: two drivers in line ", number)),
        BlifFault::Undriven(number) => Some((b"blif: undriven in line ", number)),
        BlifFault::Cycle(number) => Some((b"blif: cycle in line ", number)),
        BlifFault::NoBits(number) => Some((b"blif: no bits in model ", number)),
        BlifFault::Width(number) => Some((b"blif: width of model ", number)),
        BlifFault::Memory => None,
    }
}

/// The line that tells why a text of BLIF is not read: what breaks it, with the number of the line or of the model.
/// Fails where memory is refused.
pub fn blif_text(alloc: Global, fault: &BlifFault) -> Result<Vec<u8>, Memory>
    ensures { IfOk result (λ text. text.items ≡ blif_line fault.now) }
{
    match told(fault) {
        Some((front, number)) => numbered_line(alloc, front, number as usize),
        None => line_of(alloc, b"out of memory", b""),
    }
}
