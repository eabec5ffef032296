//! What `sim` and `match` make of the files that they name.
ghost use Rattle.std.specs.Prelude.{◌≤◌, IfErr, IfOk, IsErrOf, IsTrue};
ghost use Rattle.ncl_base.specs.Files.{Rose};
ghost use Rattle.ncl_reader.specs.GraphicNames.{HasGraphicNames};
ghost use Rattle.ncl_check.specs.Text.{IsNetlistText, IsRefusedText};
ghost use Rattle.ncl_reply.specs.Devices.{IsServed};
ghost use Rattle.ncl_reply.specs.Given.{ComesFrom};
ghost use Rattle.ncl_reply.specs.Replies.{Refuses, Replies};
ghost use Rattle.ncl_sim_match.specs.Matching.{IsMatchReply, IsModelsMatched};
ghost use Rattle.ncl_sim_match.specs.ModelsText.{AreModelsText, AreRefusedModels};
ghost use Rattle.ncl_sim_match.specs.Simulating.{IsDelaysReply, IsSimReply, IsWordsReply};

use crate::matching::match_models;
use crate::reading::{delays_in, models_in, words_in};
use crate::simulating::run_reply;
use ncl_base::Source;
use ncl_blif::Model;
use ncl_check::{netlist_in, pipeline_in};
use ncl_delay::Delays;
use ncl_netlist::Netlist;
use ncl_reply::{Fault, Reply, load_file};
use ncl_shape::Pipeline;
use std::alloc::Global;
use std::thread::Threads;

/// The run of a pipeline that is asked for: the file of its delays, that of its words, and whether it is told by a value
/// change dump.
#[derive(Clone, Copy)]
pub struct Running<'a> {
    pub delays: &'a str,
    pub words: &'a str,
    pub vcd: bool,
}

/// What a pipeline is compared with: the models of this file, where an output may have so many nodes.
#[derive(Clone, Copy)]
pub struct Other<'a> {
    pub blif: &'a str,
    pub limit: u32,
}

/// Loads a netlist, delays and words, and replies to `sim` of them, with a value change dump of the run if asked to.
/// They are read in this order, and the first that is refused is told; a later file is not opened then.
///
/// Costs a pass over the bytes of each file, what reading them costs, and the run.
pub fn sim_files<S: Source>(
    alloc: Global,
    source: &mut S,
    netlist: &str,
    run: &Running<'_>,
) -> Result<Reply, Fault>
    requires netlist { IsTrue (S.allowed source.old netlist.now) }
    requires delays { IsTrue (S.allowed source.old run.now.delays.now) }
    requires words { IsTrue (S.allowed source.old run.now.words.now) }
    ensures replies { Replies (IsSimReply (S.files source.old) netlist.now run.now.delays.now run.now.words.now run.now.vcd) result }
    ensures read { IsErrOf result Fault.Read → Rose (S.faults source.old) (S.faults source.new) }
    ensures source { IsServed S.files S.allowed S.faults S.opens S.given source.old source.new 3 }
{
    let netlist = netlist_of(alloc, source, netlist)?;
    let pipeline = pipeline_in(alloc, &netlist)?;
    delays_reply(alloc, source, &pipeline, run)
}

/// Loads a netlist and models, and replies to `match` of them. They are read in this order, and the first that is refused is
/// told; the models are not opened then.
///
/// Costs a pass over the bytes of each file, what reading them costs, and the comparison.
pub fn match_files<R: Threads + Sync, S: Source>(
    rt: &R,
    alloc: Global,
    source: &mut S,
    netlist: &str,
    other: &Other<'_>,
) -> Result<Reply, Fault>
    requires netlist { IsTrue (S.allowed source.old netlist.now) }
    requires blif { IsTrue (S.allowed source.old other.now.blif.now) }
    requires limit { 1 ≤ other.now.limit }
    ensures replies { Replies (IsMatchReply (S.files source.old) netlist.now other.now.blif.now other.now.limit) result }
    ensures read { IsErrOf result Fault.Read → Rose (S.faults source.old) (S.faults source.new) }
    ensures source { IsServed S.files S.allowed S.faults S.opens S.given source.old source.new 2 }
{
    let netlist = netlist_of(alloc, source, netlist)?;
    let pipeline = pipeline_in(alloc, &netlist)?;
    models_reply(rt, alloc, source, &pipeline, other)
}

/// Loads a netlist. Costs a pass over the bytes, and what reading them costs.
fn netlist_of<S: Source>(alloc: Global, source: &mut S, file: &str) -> Result<Netlist, Fault>
    requires { IsTrue (S.allowed source.old file.now) }
    ensures netlist { IfOk result (ComesFrom (S.files source.old) file.now IsNetlistText) }
    ensures refused { IfErr result (Refuses (ComesFrom (S.files source.old) file.now IsRefusedText)) }
    ensures read { IsErrOf result Fault.Read → Rose (S.faults source.old) (S.faults source.new) }
    ensures source { IsServed S.files S.allowed S.faults S.opens S.given source.old source.new 1 }
{
    let bytes = load_file(alloc, source, file, b"netlist: too long\n")?;
    Ok(netlist_in(alloc, &bytes)?)
}

/// Loads models. Costs a pass over the bytes, and what reading them costs.
pub fn models_of<S: Source>(alloc: Global, source: &mut S, file: &str) -> Result<Vec<Model>, Fault>
    requires { IsTrue (S.allowed source.old file.now) }
    ensures models { IfOk result (λ models. ComesFrom (S.files source.old) file.now AreModelsText models.items) }
    ensures refused { IfErr result (Refuses (ComesFrom (S.files source.old) file.now AreRefusedModels)) }
    ensures read { IsErrOf result Fault.Read → Rose (S.faults source.old) (S.faults source.new) }
    ensures source { IsServed S.files S.allowed S.faults S.opens S.given source.old source.new 1 }
{
    let bytes = load_file(alloc, source, file, b"blif: too long\n")?;
    Ok(models_in(alloc, &bytes)?)
}

/// Loads delays and words, and replies to `sim` of a pipeline at them.
fn delays_reply<S: Source>(
    alloc: Global,
    source: &mut S,
    pipeline: &Pipeline,
    run: &Running<'_>,
) -> Result<Reply, Fault>
    requires delays { IsTrue (S.allowed source.old run.now.delays.now) }
    requires words { IsTrue (S.allowed source.old run.now.words.now) }
    requires names { HasGraphicNames pipeline.now.netlist }
    ensures replies { Replies (IsDelaysReply (S.files source.old) pipeline.now run.now.delays.now run.now.words.now run.now.vcd) result }
    ensures read { IsErrOf result Fault.Read → Rose (S.faults source.old) (S.faults source.new) }
    ensures source { IsServed S.files S.allowed S.faults S.opens S.given source.old source.new 2 }
{
    let bytes = load_file(alloc, source, run.delays, b"delays: too long\n")?;
    let delays = delays_in(alloc, &bytes, pipeline.netlist())?;
    words_reply(alloc, source, pipeline, &delays, run)
}

/// Loads words, and replies to `sim` of a pipeline at some delays over them.
fn words_reply<S: Source>(
    alloc: Global,
    source: &mut S,
    pipeline: &Pipeline,
    delays: &Delays,
    run: &Running<'_>,
) -> Result<Reply, Fault>
    requires words { IsTrue (S.allowed source.old run.now.words.now) }
    requires names { HasGraphicNames pipeline.now.netlist }
    ensures replies { Replies (IsWordsReply (S.files source.old) pipeline.now delays.now run.now.words.now run.now.vcd) result }
    ensures read { IsErrOf result Fault.Read → Rose (S.faults source.old) (S.faults source.new) }
    ensures source { IsServed S.files S.allowed S.faults S.opens S.given source.old source.new 1 }
{
    let bytes = load_file(alloc, source, run.words, b"words: too long\n")?;
    let words = words_in(alloc, &bytes, pipeline)?;
    Ok(run_reply(alloc, pipeline, delays, &words, run.vcd)?)
}

/// Loads models, and replies to `match` of a pipeline and them.
fn models_reply<R: Threads + Sync, S: Source>(
    rt: &R,
    alloc: Global,
    source: &mut S,
    pipeline: &Pipeline,
    other: &Other<'_>,
) -> Result<Reply, Fault>
    requires blif { IsTrue (S.allowed source.old other.now.blif.now) }
    requires limit { 1 ≤ other.now.limit }
    ensures replies { Replies (IsModelsMatched (S.files source.old) pipeline.now other.now.blif.now other.now.limit) result }
    ensures read { IsErrOf result Fault.Read → Rose (S.faults source.old) (S.faults source.new) }
    ensures source { IsServed S.files S.allowed S.faults S.opens S.given source.old source.new 1 }
{
    let models = models_of(alloc, source, other.blif)?;
    Ok(match_models(rt, alloc, pipeline, &models, other.limit)?)
}
