//! Texts at which a walk that is much more than linear would not end.
use super::long_texts::Part::{self, Cells, Numbers, Text, Times};
use super::long_texts::text_of;
use ncl_base::MOST_BYTES;
use ncl_netlist::Netlist;
use ncl_reader::{NetFault, read_netlist};
use std::alloc::Global;
use std::process::Abort;
use std::test::*;

/// What comes of a text.
#[derive(Clone, Copy, PartialEq)]
enum Answer {
    /// It is read, and has so many nets.
    Nets(usize),
    /// A syntax error, at this place.
    Syntax(usize),
    /// Something that is not supported, at this place.
    Unsupported(usize),
    /// Parts that are no netlist.
    NoNetlist,
    /// Another fault.
    Other,
}

/// What a text is found to be.
fn answer_of(found: &Result<Netlist, NetFault>) -> Answer {
    match found {
        Ok(netlist) => Answer::Nets(netlist.nets().len()),
        Err(NetFault::Syntax(place)) => Answer::Syntax(*place),
        Err(NetFault::Unsupported(place)) => Answer::Unsupported(*place),
        Err(NetFault::Build(_)) => Answer::NoNetlist,
        Err(_) => Answer::Other,
    }
}

/// What comes of a text, which has to be short enough.
fn told(rt: &impl Abort, alloc: Global, text: &str) -> Answer {
    assert!(rt; text.len() <= MOST_BYTES);
    answer_of(&read_netlist(alloc, text.as_bytes()))
}

/// Stops unless of each text comes what stands beside it.
fn try_rows(rt: &impl Abort, alloc: Global, rows: &[(&[Part], Answer)]) -> Result<(), Fail> {
    for (parts, wanted) in rows {
        let text = text_of(alloc, parts)?;
        let found = told(rt, alloc, &text);
        assert!(rt; found == *wanted, "{}", text.len());
    }
    Ok(())
}

/// Texts as long as may be, of one piece.
static LONGEST: [(&[Part], Answer); 10] = [
    (&[Times(" ", 16_777_216)], Answer::Syntax(MOST_BYTES)),
    (
        &[Text("module "), Times("a", 16_777_199), Text(";endmodule")],
        Answer::Nets(0),
    ),
    (
        &[Text("module "), Times("a", 16_777_209)],
        Answer::Syntax(MOST_BYTES),
    ),
    (
        &[
            Text("module m;/*"),
            Times("*", 16_777_194),
            Text("*/endmodule"),
        ],
        Answer::Nets(0),
    ),
    (
        &[Text("module m;/*"), Times("*", 16_777_205)],
        Answer::Syntax(MOST_BYTES),
    ),
    (
        &[
            Text("module m;"),
            Times("(**)", 4_194_299),
            Text("endmodule"),
        ],
        Answer::Nets(0),
    ),
    (
        &[
            Text("module m;wire a"),
            Times(",a", 8_388_595),
            Text(";endmodule"),
        ],
        Answer::Nets(0),
    ),
    (
        &[
            Text("module m;"),
            Times("wire a;", 2_396_742),
            Text("endmodule"),
        ],
        Answer::Nets(0),
    ),
    (
        &[
            Text("module m(a);"),
            Times("input a;", 2_097_149),
            Text("endmodule"),
        ],
        Answer::Syntax(26),
    ),
    (
        &[
            Text("module m(a);input a;"),
            Times("TH12 g(.A(a),.B(a),.Z(a));", 645_276),
            Text("endmodule"),
        ],
        Answer::NoNetlist,
    ),
];

#[test]
fn longest_texts(rt: HostRuntime) -> Result<(), Fail> {
    try_rows(&rt, rt.alloc(), &LONGEST)
}

static LONG: [(&[Part], Answer); 7] = [
    // a long index
    (
        &[
            Text("module m(input [1:0] a);TH22 g(.A(a["),
            Times("0", 3_000_000),
            Text("1])"),
        ],
        Answer::Unsupported(36),
    ),
    // a long name of 1,024 bits
    (
        &[
            Text("module m(input [1023:0] "),
            Times("abcde", 20_000),
            Text(");endmodule"),
        ],
        Answer::Nets(1024),
    ),
    // as many cells as may be
    (
        &[
            Text("module m(a);input a;"),
            Cells(131_072),
            Text("endmodule"),
        ],
        Answer::Nets(131_073),
    ),
    // many vectors
    (
        &[
            Text("module m(input a);wire [1023:0] v"),
            Numbers(",v", "", 200_000),
            Text(";endmodule"),
        ],
        Answer::Nets(1),
    ),
    // a vector that is declared again, beside many names like those of its bits
    (
        &[
            Text("module m(input a);wire w"),
            Numbers(",\\v[1", "] ", 60_000),
            Times(";wire [0:0] v", 60_000),
            Text(";endmodule"),
        ],
        Answer::Nets(1),
    ),
    // many ports, and an output without a driver
    (
        &[
            Text("module m(a,b"),
            Numbers(",p", "", 1_000_000),
            Text(");output a;input b"),
            Numbers(",p", "", 1_000_000),
            Text(";endmodule"),
        ],
        Answer::NoNetlist,
    ),
    // many connections of cells of one name, and as many vectors, each of which is compared with the names before it
    (
        &[
            Text("module m(a);input a;"),
            Numbers("TH12 g(.A(a),.B(n", "),.Z(a));", 100_000),
            Numbers("wire [1:0] v", ";", 100_000),
            Text("endmodule"),
        ],
        Answer::NoNetlist,
    ),
];

#[test]
fn long_texts_of_many_parts(rt: HostRuntime) -> Result<(), Fail> {
    try_rows(&rt, rt.alloc(), &LONG)
}
