//! The gates of a netlist file, merged by the library.
ghost use Rattle.std.specs.Prelude.{All, IfOk, IsTrue};
ghost use Rattle.ncl_faults.specs.Faults.{IsSound};
ghost use Rattle.ncl_merge.specs.Merged.{IsSoundNetlist};

use ncl_base::MOST_BYTES;
use ncl_merge::merge;
use ncl_netlist::Netlist;
use ncl_reader::read_netlist;
use ncl_shape::{Pipeline, shape};
use ncl_verdict::{Verdict, judge};
use ncl_writer::{is_writable, write_netlist};
use std::alloc::Global;
use std::io::Print;

/// The most nodes of a stage.
const NODES: u32 = 100_000;

/// Reads a netlist whose stages are sound, merges its gates, and prints the text of what comes of it. It fails where the text
/// is no netlist or has no shape, where a stage isn't sound or passes the limit, and where nothing can be printed.
pub(crate) fn print_merged<R: AllocGlobal + Print>(rt: &R, text: &[u8]) -> anyhow::Result<()> {
    let netlist = netlist_of(rt.alloc(), text)?;
    anyhow::ensure!(
        is_accepted(rt.alloc(), &netlist)?,
        "a stage that is refused"
    );
    let merged = merge(rt.alloc(), netlist)?;
    print_netlist(rt, &merged)
}

/// Prints the text of a netlist.
fn print_netlist<R: AllocGlobal + Print>(rt: &R, netlist: &Netlist) -> anyhow::Result<()> {
    anyhow::ensure!(is_writable(netlist), "a name that can't be written");
    rt.write_all(&write_netlist(rt.alloc(), netlist)?)?;
    Ok(())
}

/// The netlist of a text.
fn netlist_of(alloc: Global, text: &[u8]) -> anyhow::Result<Netlist> {
    anyhow::ensure!(text.len() <= MOST_BYTES, "a netlist that is too long");
    Ok(read_netlist(alloc, text)?)
}

/// Whether a netlist has sound stages within the limit of nodes.
fn is_accepted(alloc: Global, netlist: &Netlist) -> anyhow::Result<bool>
    ensures { IfOk result (λ accepted. IsTrue accepted → IsSoundNetlist netlist.now) }
{
    let pipeline = shape(alloc, netlist)?;
    are_accepted(alloc, &pipeline)
}

/// Whether the stages of a pipeline are sound, within the limit of nodes.
fn are_accepted(alloc: Global, pipeline: &Pipeline) -> anyhow::Result<bool>
    ensures { IfOk result (λ accepted. IsTrue accepted → All IsSound pipeline.now.stages) }
{
    match judge(alloc, pipeline, NODES)? {
        Verdict::Accepted => Ok(true),
        _ => Ok(false),
    }
}
