//! Long lines of gates are followed, and a cycle of as many is found.
use super::netlist_texts::netlist;
use ncl_cell_rules::CellFault;
use ncl_netlist::{CellId, Netlist};
use ncl_shape::{ShapeFault, shape};
use std::alloc::Global;
use std::process::Abort;
use std::test::*;

/// How many gates stand in the line.
const LINE: usize = 100_000;

/// Two banks before a line of gates on rail 0, from the net n0 to the net n100000.
const LINE_ENDS: &str = "module m(x0,x1,ki,rst,z0,z1,ko);input x0,x1,ki,rst;output z0,z1,ko;\
    TH22N r(.A(x0),.B(c),.RST(rst),.Z(n0));TH22N s(.A(x1),.B(c),.RST(rst),.Z(p1));\
    TH12B k(.A(n0),.B(p1),.Z(ko));TH22N t(.A(n100000),.B(ki),.RST(rst),.Z(z0));\
    TH22N u(.A(p1),.B(ki),.RST(rst),.Z(z1));TH12B d(.A(z0),.B(z1),.Z(c));";

/// The line between its ends, in file order or against it. Where it is closed its first gate reads the output of the last.
fn line(alloc: Global, against: bool, closed: bool) -> Result<String, Fail> {
    let mut text = String::from_str(alloc, LINE_ENDS)?;
    for k in 0..LINE {
        let gate = if against { LINE - 1 - k } else { k };
        let other = if closed && gate == 0 { LINE } else { gate };
        let cell = format!(in alloc; "TH22 g{gate}(.A(n{gate}),.B(n{other}),.Z(n{}));", gate + 1)?;
        text.push_str(cell.as_str())?;
    }
    text.push_str("endmodule")?;
    Ok(text)
}

/// The first gate of a cycle in the line, if there is one.
fn cycle_in_line(
    rt: &impl Abort,
    alloc: Global,
    against: bool,
    closed: bool,
) -> Result<Option<CellId>, Fail> {
    let netlist = netlist(rt, alloc, &line(alloc, against, closed)?)?;
    first_of_cycle(alloc, &netlist)
}

/// The first gate of a cycle in a netlist, if there is one.
fn first_of_cycle(alloc: Global, netlist: &Netlist) -> Result<Option<CellId>, Fail> {
    match shape(alloc, netlist) {
        Ok(_) => Ok(None),
        Err(ShapeFault::CellRule(CellFault::Cycle(cell))) => Ok(Some(cell)),
        Err(_) => Err(Fail::new("another fault")),
    }
}

#[test]
fn long_lines_of_gates(rt: HostRuntime) -> Result<(), Fail> {
    let first = Some(CellId(6));
    for (against, closed, wanted) in [
        (false, false, None),
        (true, false, None),
        (false, true, first),
        (true, true, first),
    ] {
        let cycle = cycle_in_line(&rt, rt.alloc(), against, closed)?;
        assert_eq!(rt; cycle, wanted);
    }
    Ok(())
}
