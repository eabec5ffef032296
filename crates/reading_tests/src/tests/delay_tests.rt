//! Files of delays that are long, for netlists that are large.

use super::long_texts::{Part, text_of};
use ncl_base::MOST_BYTES;
use ncl_delay::read_delays;
use ncl_reader::{NetFault, read_netlist};
use std::alloc::Global;
use std::process::Abort;
use std::test::*;

/// A netlist of 100,000 cells.
static MANY_CELLS: [Part; 3] = [
    Part::Text("module m(a);input a;"),
    Part::Cells(100_000),
    Part::Text("endmodule"),
];

/// Whether these lines are delays of the cells of a netlist's text.
fn are_delays(rt: &impl Abort, alloc: Global, text: &str, lines: &[u8]) -> Result<bool, NetFault> {
    assert!(rt; text.len() <= MOST_BYTES && lines.len() <= MOST_BYTES);
    let netlist = read_netlist(alloc, text.as_bytes())?;
    Ok(read_delays(alloc, lines, &netlist).is_ok())
}

/// A walk over the cells for each line would take minutes.
#[test]
fn many_lines_for_the_last_of_many_cells(rt: HostRuntime) -> Result<(), Fail> {
    let text = text_of(rt.alloc(), &MANY_CELLS)?;
    let lines = b"cell g99999 5 6\n".repeat(rt.alloc(), 300_000)?;
    assert!(rt; are_delays(&rt, rt.alloc(), &text, &lines)?);
    Ok(())
}
