//! The top call: from arguments to a status, between a source of files and a sink of bytes.
ghost use Rattle.std.specs.Prelude.{◌≡◌, ◌+◌, ◌≤◌, ℕ, List, Some, false, IfNone, IfOk, IfSome, IsErrOf, IsTrue, map, option_map};
ghost use Rattle.ncl_base.specs.Files.{Rose};
ghost use Rattle.ncl_base.specs.declared.source.TheConstants.{MOST_BYTES};
ghost use Rattle.ncl_command.specs.Command.{AllowsNamed, HasLimit, check};
ghost use Rattle.ncl_command.specs.Meaning.{command_meant};
ghost use Rattle.ncl_reply.specs.Devices.{IsServed};
ghost use Rattle.ncl_reply.specs.Replies.{Gives, Replies};
ghost use Rattle.ncl_reach_top.specs.Answered.{IsReachAnswered, IsReachedFile, SaysReached, as_check};

use crate::replying::reply;
use ncl_base::{Memory, Sink, Source};
use ncl_command::Command;
use ncl_reply::{Fault, Reply, load_file, status_of, tell};
use std::alloc::Global;

/// Answers the arguments that follow the program's name, `FILE [--limit N]`, and gives the status to end with.
///
/// Reads the file from the source, and writes one line to the sink. The status is 0 where no input brings a fault to a stage, so
/// that the netlist works at every gate delay: `headline` of `IsReachAnswered`. It is 1 where one does, and the line tells it:
/// `refusal`. It is 2 where the arguments are of no form, 3 where the file is refused, 4 where the source failed, 5 where the sink
/// failed, 6 where a question is too large or words that banks hold decide, and 7 where memory was refused. The file is begun
/// once.
pub fn run_reach<S: Source, K: Sink>(
    alloc: Global,
    arguments: &[&str],
    source: &mut S,
    sink: &mut K,
) -> u8
    requires { AllowsNamed (S.allowed source.old) (as_check (map (λ argument. argument.now) arguments.now)) }
    ensures answered { IsReachAnswered (map (λ argument. argument.now) arguments.now)
        (record { files = S.files source.old; faults = S.faults source.old })
        (record { files = S.files source.new; faults = S.faults source.new })
        (record { written = K.written sink.old; faults = K.faults sink.old })
        (record { written = K.written sink.new; faults = K.faults sink.new })
        result }
    ensures allowed { S.allowed source.new ≡ S.allowed source.old }
    ensures opens { S.opens source.new ≤ S.opens source.old + 1 }
    ensures given { S.given source.new ≤ S.given source.old + (MOST_BYTES + 1) }
{
    match answer(alloc, arguments, source) {
        Reply::Made(status, text) => tell(sink, status, &text),
        Reply::Fixed(status, text) => tell(sink, status, text),
    }
}

/// What the arguments are answered.
fn answer<S: Source>(alloc: Global, arguments: &[&str], source: &mut S) -> Reply
    requires { AllowsNamed (S.allowed source.old) (as_check (map (λ argument. argument.now) arguments.now)) }
    ensures says { Gives (SaysReached (map (λ argument. argument.now) arguments.now)
        (record { files = S.files source.old; faults = S.faults source.old })
        (record { files = S.files source.new; faults = S.faults source.new })) result }
    ensures source { IsServed S.files S.allowed S.faults S.opens S.given source.old source.new 1 }
{
    let Ok(words) = behind_check(alloc, arguments) else {
        return Reply::Fixed(7, b"out of memory\n");
    };
    let command = match Command::parse(alloc, words.as_slice()) {
        Ok(command) => command,
        Err(_) => return Reply::Fixed(7, b"out of memory\n"),
    };
    let Some((file, limit)) = asked(command) else {
        return Reply::Fixed(2, b"words not understood\n");
    };
    match file_reply(alloc, source, file, limit) {
        Ok(reply) => reply,
        Err(Fault::Refused(line)) => Reply::Made(3, line),
        Err(Fault::Read) => Reply::Fixed(4, b"read failed\n"),
        Err(Fault::Memory) => Reply::Fixed(7, b"out of memory\n"),
    }
}

/// The file and the limit of a check that isn't asked why.
fn asked(command: Option<Command<'_>>) -> Option<(&str, u32)>
    ensures some { IfSome result (λ asked. option_map command_meant command.entry ≡ Some (check asked.0.now asked.1 false)) }
    ensures none { IfNone result ((file : List ℕ) (limit : ℕ) → option_map command_meant command.entry ≡ Some (check file limit false) → ⊥) }
    ensures limit { IfSome command.entry (λ c. HasLimit (command_meant c)) → IfSome result (λ asked. 1 ≤ asked.1) }
{
    match command {
        Some(Command::Check { file, limit, why }) => {
            if why { None } else { Some((file, limit)) }
        }
        Some(Command::Compile { .. } | Command::Sim { .. }) => None,
        Some(Command::Match { .. } | Command::Demo { .. }) => None,
        None => None,
    }
}

/// The arguments behind the name of the command that has the same. Linear in them.
fn behind_check<'a>(alloc: Global, arguments: &[&'a str]) -> Result<Vec<&'a str>, Memory>
    ensures { IfOk result (λ words. map (λ word. word.now) words.items ≡ as_check (map (λ argument. argument.now) arguments.now)) }
{
    let mut words = Vec::from_slice(alloc, arguments)?;
    words.insert(0, "check")?;
    Ok(words)
}

/// Loads a file and replies to it. Costs a pass over the bytes, and `reply`.
fn file_reply<S: Source>(
    alloc: Global,
    source: &mut S,
    file: &str,
    limit: u32,
) -> Result<Reply, Fault>
    requires allowed { IsTrue (S.allowed source.old file.now) }
    requires limit { 1 ≤ limit }
    ensures replies { Replies (IsReachedFile (S.files source.old) file.now limit) result }
    ensures read { IsErrOf result Fault.Read → Rose (S.faults source.old) (S.faults source.new) }
    ensures source { IsServed S.files S.allowed S.faults S.opens S.given source.old source.new 1 }
{
    let bytes = load_file(alloc, source, file, b"netlist: too long\n")?;
    let reply = reply(alloc, &bytes, limit)?;
    Ok(Reply::Made(status_of(reply.outcome), reply.text))
}
