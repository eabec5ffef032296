//! Gates between two banks are folded until none can be: which stay, and what the others become.
use super::netlist_texts::{between, netlist};
use ncl_gates::CellKind;
use ncl_merge::{fold_pipeline, rebuild};
use ncl_netlist::Netlist;
use ncl_shape::{Pipeline, shape};
use std::alloc::Global;
use std::test::*;

/// Gates, and the kinds and names of all gates after folds, in the order of the file.
static ROWS: [(&str, &str); 10] = [
    // one minterm and two nets that two gates read
    (
        "TH22 g1(.A(p0),.B(q0),.Z(a));TH22 g2(.A(p0),.B(q1),.Z(b));TH22 g3(.A(p1),.B(q0),.Z(v));\
        TH13 g(.A(a),.B(b),.C(v),.Z(o));TH12 h(.A(b),.B(v),.Z(n));",
        "TH22 m TH22 g2 TH22 g3 TH24w22 g TH12 h",
    ),
    // two minterms and such a net
    (
        "TH22 g1(.A(p0),.B(q0),.Z(a));TH22 g2(.A(p0),.B(q1),.Z(b));TH22 g3(.A(p1),.B(q0),.Z(v));\
        TH13 g(.A(a),.B(b),.C(v),.Z(o));TH12 h(.A(v),.B(q1),.Z(n));",
        "TH22 m TH22 g3 TH34w32 g TH12 h",
    ),
    // three minterms and their OR are one gate
    (
        "TH22 g1(.A(p0),.B(q0),.Z(a));TH22 g2(.A(p0),.B(q1),.Z(b));TH22 g3(.A(p1),.B(q0),.Z(v));\
        TH13 g(.A(a),.B(b),.C(v),.Z(o));TH22 h(.A(p1),.B(q1),.Z(n));",
        "TH22 m THand0 g TH22 h",
    ),
    // a net on which the value does not depend is read no more
    (
        "TH22 g(.A(p0),.B(q0),.Z(a));TH13 w(.A(a),.B(p0),.C(q1),.Z(o));TH22 h(.A(p1),.B(q1),.Z(n));",
        "TH22 m TH12 w TH22 h",
    ),
    // the gate that goes stands behind its reader, which names its net first
    (
        "TH22 h(.A(p1),.B(a),.Z(n));TH12 g(.A(q1),.B(q0),.Z(a));TH22 v(.A(p0),.B(q0),.Z(o));",
        "TH22 m TH33w2 h TH22 v",
    ),
    // a chain goes in one round, and a net that two gates read goes once one is left
    (
        "TH22 q(.A(p0),.B(q0),.Z(a));TH12 g1(.A(p1),.B(a),.Z(b));TH12 g2(.A(b),.B(a),.Z(v));\
        TH12 g3(.A(v),.B(a),.Z(o));TH22 h(.A(p1),.B(q1),.Z(n));",
        "TH22 m TH23w2 g3 TH22 h",
    ),
    // no gate is a wire
    (
        "TH22 g(.A(p0),.B(q0),.Z(a));TH12 w(.A(a),.B(p0),.Z(o));TH22 h(.A(p1),.B(q1),.Z(n));",
        "TH22 m TH22 g TH12 w TH22 h",
    ),
    // the next bank reads the net too
    (
        "TH22 g(.A(p0),.B(q0),.Z(o));TH12 w(.A(o),.B(p1),.Z(n));",
        "TH22 m TH22 g TH12 w",
    ),
    // two pins of a gate have the net
    (
        "TH22 g(.A(p0),.B(q0),.Z(a));TH23 w(.A(a),.B(a),.C(q1),.Z(o));TH22 h(.A(p1),.B(q1),.Z(n));",
        "TH22 m TH22 g TH23 w TH22 h",
    ),
    // two gates read it
    (
        "TH22 g(.A(p0),.B(q0),.Z(a));TH12 w(.A(a),.B(q1),.Z(o));TH12 v(.A(a),.B(p1),.Z(n));",
        "TH22 m TH22 g TH12 w TH12 v",
    ),
];

/// The netlist after folds of one round, if two gates can be folded.
fn round(alloc: Global, netlist: &Netlist) -> Result<Option<Netlist>, Fail> {
    let pipeline = shape(alloc, netlist)?;
    folded(alloc, &pipeline)
}

/// The same, of a netlist whose pipeline is found.
fn folded(alloc: Global, pipeline: &Pipeline) -> Result<Option<Netlist>, Fail> {
    match fold_pipeline(alloc, pipeline)? {
        Some(lists) => Ok(Some(rebuild(alloc, pipeline, &lists)?)),
        None => Ok(None),
    }
}

/// The netlist after folds, more rounds of them than a row needs.
fn fold_all(alloc: Global, netlist: Netlist) -> Result<Netlist, Fail> {
    let mut folded = netlist;
    for _ in 0..5 {
        if let Some(next) = round(alloc, &folded)? {
            folded = next;
        }
    }
    Ok(folded)
}

/// Whether these are the gates of a netlist.
fn has_gates(netlist: &Netlist, gates: &str) -> bool {
    let mut words = gates.split_whitespace();
    for cell in netlist.cells() {
        if let CellKind::Gate(_) = cell.kind {
            let kind = words.next().unwrap_or("");
            let name = words.next().unwrap_or("");
            if kind.as_bytes() != cell.kind.name() || name.as_bytes() != cell.name.bytes() {
                return false;
            }
        }
    }
    words.next().is_none()
}

#[test]
fn gates_are_folded_or_stay(rt: HostRuntime) -> Result<(), Fail> {
    for &(gates, wanted) in &ROWS {
        let text = between(rt.alloc(), gates)?;
        let found = fold_all(rt.alloc(), netlist(&rt, rt.alloc(), &text)?)?;
        assert!(rt; has_gates(&found, wanted), "{gates}");
    }
    Ok(())
}
