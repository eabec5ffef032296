//! The top call: all that the program does, between a source of files and a sink of bytes.
ghost use Rattle.std.specs.Prelude.{◌≡◌, ◌+◌, ◌*◌, ◌≤◌, map};
ghost use Rattle.ncl_base.specs.declared.source.TheConstants.{MOST_BYTES};
ghost use Rattle.ncl_command.specs.Command.{AllowsNamed, command_of, count_named};
ghost use Rattle.ncl_top.specs.Answer.{Says, AcceptsWhatWorks};
ghost use Rattle.ncl_top.specs.Answered.{IsAnswered};
ghost use Rattle.ncl_reply.specs.Devices.{IsServed};
ghost use Rattle.ncl_reply.specs.Replies.{Gives};

use crate::carrying::carry_out;
use ncl_base::{Sink, Source};
use ncl_check::Judging;
use ncl_command::Command;
use ncl_reply::{Fault, Reply, tell};
use ncl_verdict::{Judge, Stages};
use std::alloc::Global;
use std::thread::Threads;

/// Answers the arguments that follow the program's name, and gives the status to end with.
///
/// Reads the files that the arguments name from the source, makes the whole text, and writes it to the
/// sink. The status is 0 where a netlist is accepted, models are compiled, a run delivers every word that is due and
/// comes to rest, or a netlist and models have one function; 1 where a stage has a fault, a run loses an item or stalls,
/// or a netlist and models differ in their function or in the numbers of bits of their words; 2 where the arguments are
/// of no form; 3 where a file is refused; 4 where the source failed; 5 where the sink failed; 6 where a stage is too
/// large to be judged or an output to be compared; 7 where memory was refused; and 8 where a run has as many steps as it
/// may and could go on.
///
/// A netlist that is accepted works at every gate delay: clause `headline`. `IsAnswered` says all that a call keeps, of
/// which that is a part. One that is refused isn't delay-insensitive where an input brings the told word to the told
/// stage, as one always does to the first: `refusal`. What is compiled works too, and `check` accepts it: `compiles`. A
/// run of a netlist of sound stages ends with status 0 at whatever delays: `simulates`. Models that match a netlist give
/// what it gives at each word: `matches`. A file is begun at most as many times as the arguments name files: `opens`; and
/// in all no more bytes are read than so many of the longest files have, and one more for each: `given`. Costs what the
/// command costs, and a pass over the text. Stages are judged, and outputs compared, by up to four threads.
pub fn run<R: Threads + Sync, S: Source, K: Sink>(
    rt: &R,
    alloc: Global,
    arguments: &[&str],
    source: &mut S,
    sink: &mut K,
) -> u8
    requires { AllowsNamed (S.allowed source.old) (map (λ argument. argument.now) arguments.now) }
    ensures answered { IsAnswered (map (λ argument. argument.now) arguments.now)
        (record { files = S.files source.old; faults = S.faults source.old })
        (record { files = S.files source.new; faults = S.faults source.new })
        (record { written = K.written sink.old; faults = K.faults sink.old })
        (record { written = K.written sink.new; faults = K.faults sink.new })
        result }
    ensures headline { AcceptsWhatWorks (map (λ argument. argument.now) arguments.now)
        (record { files = S.files source.old; faults = S.faults source.old })
        result }
    ensures allowed { S.allowed source.new ≡ S.allowed source.old }
    ensures opens { S.opens source.new
        ≤ S.opens source.old + count_named (command_of (map (λ argument. argument.now) arguments.now)) }
    ensures given { S.given source.new ≤ S.given source.old
        + count_named (command_of (map (λ argument. argument.now) arguments.now)) * (MOST_BYTES + 1) }
{
    run_by(rt, alloc, arguments, source, sink, &Stages)
}

/// Answers as `run` does, and has each stage judged by a judge of the caller's.
pub fn run_by<R: Threads + Sync, S: Source, K: Sink, J: Judge + Sync>(
    rt: &R,
    alloc: Global,
    arguments: &[&str],
    source: &mut S,
    sink: &mut K,
    judge: &J,
) -> u8
    requires { AllowsNamed (S.allowed source.old) (map (λ argument. argument.now) arguments.now) }
    ensures answered { IsAnswered (map (λ argument. argument.now) arguments.now)
        (record { files = S.files source.old; faults = S.faults source.old })
        (record { files = S.files source.new; faults = S.faults source.new })
        (record { written = K.written sink.old; faults = K.faults sink.old })
        (record { written = K.written sink.new; faults = K.faults sink.new })
        result }
    ensures allowed { S.allowed source.new ≡ S.allowed source.old }
    ensures opens { S.opens source.new
        ≤ S.opens source.old + count_named (command_of (map (λ argument. argument.now) arguments.now)) }
    ensures given { S.given source.new ≤ S.given source.old
        + count_named (command_of (map (λ argument. argument.now) arguments.now)) * (MOST_BYTES + 1) }
{
    let judging = Judging { rt, alloc, judge };
    match answer(&judging, arguments, source) {
        Reply::Made(status, text) => tell(sink, status, &text),
        Reply::Fixed(status, text) => tell(sink, status, text),
    }
}

/// What the arguments are answered.
fn answer<R: Threads + Sync, S: Source, J: Judge + Sync>(
    judging: &Judging<'_, R, J>,
    arguments: &[&str],
    source: &mut S,
) -> Reply
    requires { AllowsNamed (S.allowed source.old) (map (λ argument. argument.now) arguments.now) }
    ensures says { Gives (Says (map (λ argument. argument.now) arguments.now)
        (record { files = S.files source.old; faults = S.faults source.old })
        (record { files = S.files source.new; faults = S.faults source.new })) result }
    ensures source { IsServed S.files S.allowed S.faults S.opens S.given source.old source.new
        (count_named (command_of (map (λ argument. argument.now) arguments.now))) }
{
    let command = match Command::parse(judging.alloc, arguments) {
        Ok(Some(command)) => command,
        Ok(None) => return Reply::Fixed(2, b"words not understood\n"),
        Err(_) => return Reply::Fixed(7, b"out of memory\n"),
    };
    match carry_out(judging, source, command) {
        Ok(reply) => reply,
        Err(Fault::Refused(line)) => Reply::Made(3, line),
        Err(Fault::Read) => Reply::Fixed(4, b"read failed\n"),
        Err(Fault::Memory) => Reply::Fixed(7, b"out of memory\n"),
    }
}
