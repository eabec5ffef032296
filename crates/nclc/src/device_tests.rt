//! Sources and sinks that fail.
use crate::asking::{WIRES, held};
use ncl_base::{MemSink, MemSource};
use ncl_top::run;
use std::alloc::Global;
use std::test::Fail;
use std::thread::Threads;

const ACCEPTED: &str = "accepted banks=2 stages=1 cells=6\n";

const READ_FAILED: &str = "read failed\n";

/// The read that fails, the room of the sink, the write that fails, the status and the text.
///
/// Reads of 64 bytes: one call to begin, six with bytes and one at the end. Writes of 8 bytes: five for the whole line.
static EDGES: [(u64, usize, u64, u8, &str); 18] = [
    (0, 100, 0, 0, ACCEPTED),
    (1, 100, 0, 4, READ_FAILED),
    (2, 100, 0, 4, READ_FAILED),
    (3, 100, 0, 4, READ_FAILED),
    (4, 100, 0, 4, READ_FAILED),
    (5, 100, 0, 4, READ_FAILED),
    (6, 100, 0, 4, READ_FAILED),
    (7, 100, 0, 4, READ_FAILED),
    (8, 100, 0, 4, READ_FAILED),
    (9, 100, 0, 0, ACCEPTED),
    (0, 100, 1, 5, ""),
    (0, 100, 2, 5, "accepted"),
    (0, 100, 3, 5, "accepted banks=2"),
    (0, 100, 4, 5, "accepted banks=2 stages="),
    (0, 100, 5, 5, "accepted banks=2 stages=1 cells="),
    (0, 100, 6, 0, ACCEPTED),
    (0, 10, 0, 5, "accepted b"),
    (3, 10, 2, 5, "read fai"),
];

/// The status of a check of the file `f`.
fn checked<R: Threads + Sync>(
    rt: &R,
    alloc: Global,
    source: &mut MemSource,
    sink: &mut MemSink,
) -> u8 {
    run(rt, alloc, &["check", "f"], source, sink)
}

#[test]
fn edges_that_fail_are_told(rt: HostRuntime) -> Result<(), Fail> {
    for &(read, room, write, status, text) in &EDGES {
        let files = held(rt.alloc(), WIRES.as_bytes().to_vec(rt.alloc())?)?;
        let mut source = MemSource::new(files, 64, vec![in rt.alloc(); read]?);
        let mut sink = MemSink::new(rt.alloc(), room, 8, vec![in rt.alloc(); write]?)?;
        let got = checked(&rt, rt.alloc(), &mut source, &mut sink);
        assert_eq!(rt; got, status, "at {read} and {write}");
        assert_eq!(rt; sink.bytes(), text.as_bytes(), "at {read} and {write}");
    }
    Ok(())
}

#[test]
fn a_file_has_at_most_16777216_bytes(rt: HostRuntime) -> Result<(), Fail> {
    for (length, text) in [
        (16_777_216, "netlist: syntax at 16777216\n"),
        (16_777_217, "netlist: too long\n"),
    ] {
        let files = held(rt.alloc(), vec![in rt.alloc(); b' '; length]?)?;
        let mut source = MemSource::new(files, 4096, Vec::new(rt.alloc()));
        let mut sink = MemSink::new(rt.alloc(), 100, 100, Vec::new(rt.alloc()))?;
        let got = checked(&rt, rt.alloc(), &mut source, &mut sink);
        assert_eq!(rt; got, 3, "{length} spaces");
        assert_eq!(rt; sink.bytes(), text.as_bytes(), "{length} spaces");
    }
    Ok(())
}
