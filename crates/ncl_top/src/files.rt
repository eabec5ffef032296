//! What `check` and `compile` make of the file that they name.
ghost use Rattle.std.specs.Prelude.{◌≤◌, IsErrOf, IsTrue};
ghost use Rattle.ncl_base.specs.Files.{Rose};
ghost use Rattle.ncl_reply.specs.Devices.{IsServed};
ghost use Rattle.ncl_reply.specs.Replies.{Replies};
ghost use Rattle.ncl_top.specs.Answer.{IsFileReply};
ghost use Rattle.ncl_top.specs.Compiling.{IsCompiledFile};

use crate::compiling::compile_models;
use ncl_base::Source;
use ncl_check::{Judging, check};
use ncl_reply::{Fault, Reply, load_file, status_of};
use ncl_sim_match::models_of;
use ncl_verdict::Judge;
use std::alloc::Global;
use std::thread::Threads;

/// Loads a file and replies to `check` of it.
///
/// Costs a pass over the bytes, and the check.
pub(crate) fn check_file<R: Threads + Sync, S: Source, J: Judge + Sync>(
    judging: &Judging<'_, R, J>,
    source: &mut S,
    file: &str,
    limit: u32,
    why: bool,
) -> Result<Reply, Fault>
    requires allowed { IsTrue (S.allowed source.old file.now) }
    requires limit { 1 ≤ limit }
    ensures replies { Replies (IsFileReply (S.files source.old) file.now limit why) result }
    ensures read { IsErrOf result Fault.Read → Rose (S.faults source.old) (S.faults source.new) }
    ensures source { IsServed S.files S.allowed S.faults S.opens S.given source.old source.new 1 }
{
    let bytes = load_file(judging.alloc, source, file, b"netlist: too long\n")?;
    let reply = check(judging, &bytes, limit, why)?;
    Ok(Reply::Made(status_of(reply.outcome), reply.text))
}

/// Loads a file and replies to `compile` of it.
///
/// Costs a pass over the bytes, and what reading, compiling, merging if it is asked for, and writing cost.
pub(crate) fn compile_file<S: Source>(
    alloc: Global,
    source: &mut S,
    file: &str,
    merge: bool,
) -> Result<Reply, Fault>
    requires { IsTrue (S.allowed source.old file.now) }
    ensures replies { Replies (IsCompiledFile (S.files source.old) file.now merge) result }
    ensures read { IsErrOf result Fault.Read → Rose (S.faults source.old) (S.faults source.new) }
    ensures source { IsServed S.files S.allowed S.faults S.opens S.given source.old source.new 1 }
{
    let models = models_of(alloc, source, file)?;
    Ok(compile_models(alloc, &models, merge)?)
}
