//! Netlists of texts, and the text of gates between two banks.
use ncl_base::{MOST_BYTES, Memory};
use ncl_netlist::Netlist;
use ncl_reader::{NetFault, read_netlist};
use std::alloc::Global;
use std::process::Abort;
use std::test::*;

/// A bank of two bits, whose rails are p0, p1, q0 and q1.
const FIRST: &str =
    "module m(x0,x1,y0,y1,ki,rst,z0,z1,ko);input x0,x1,y0,y1,ki,rst;output z0,z1,ko;\
    TH22N r(.A(x0),.B(c),.RST(rst),.Z(p0));TH22N s(.A(x1),.B(c),.RST(rst),.Z(p1));\
    TH22N i(.A(y0),.B(c),.RST(rst),.Z(q0));TH22N j(.A(y1),.B(c),.RST(rst),.Z(q1));\
    TH12B k(.A(p0),.B(p1),.Z(e));TH12B l(.A(q0),.B(q1),.Z(f));TH22 m(.A(e),.B(f),.Z(ko));";

/// A bank behind the nets o and n.
const LAST: &str = "TH22N t(.A(o),.B(ki),.RST(rst),.Z(z0));TH22N u(.A(n),.B(ki),.RST(rst),.Z(z1));\
    TH12B d(.A(z0),.B(z1),.Z(c));endmodule";

/// The netlist of a text.
pub(crate) fn netlist(rt: &impl Abort, alloc: Global, text: &str) -> Result<Netlist, NetFault> {
    assert!(rt; text.len() <= MOST_BYTES);
    read_netlist(alloc, text.as_bytes())
}

/// The text of these gates between two banks.
pub(crate) fn between(alloc: Global, gates: &str) -> Result<String, Memory> {
    Ok(format!(in alloc; "{FIRST}{gates}{LAST}")?)
}
