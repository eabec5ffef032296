//! What the process does, from its arguments to its status.
ghost use Rattle.std.specs.Prelude.{◌≡◌, ◌≢◌, [], map, drop, string_bytes, Err, IfOk, IfErr, OnErr, MatchResult};
ghost use Rattle.ncl_command.specs.Command.{AllowsNamed};
ghost use Rattle.std.specs.Vec.Iter.{into_iter_items};
ghost use Rattle.std.specs.IoError.{error_kind};
ghost use Rattle.std.specs.Process.{exit_status};
ghost use Rattle.nclc.specs.Ended.{Ended};
ghost use Rattle.ncl_top.specs.Answered.{IsAnswered};

use ncl_base::{Sink, Source};
use ncl_system::{FileSource, StdoutSink, arguments_given, views};
use ncl_top::run;
use std::env::{Args, Env};
use std::io::{ErrorKind, Print};
use std::process::ExitCode;
use std::rt::Files;
use std::thread::Threads;
use std::{env, io};

/// Answers the arguments of the command line, from the system's files to standard output, and ends with the answer's
/// status.
pub(crate) fn process<R>(rt: &R) -> ExitCode
where
    R: Threads + Sync + Env + Files + Print + AllocGlobal,
{
    answer(
        rt,
        env::args(rt),
        &mut FileSource::new(rt),
        &mut StdoutSink::new(rt),
    )
}

/// Answers these arguments of a command line, the program's name first, from a source of which the files that they name
/// may be begun.
///
/// The code to end with is the status of the top call's answer to the arguments after the program's name. Where one of
/// them is no text, none of them is asked for. Where there was no memory for the arguments it is 7, and nothing is begun
/// or written.
pub(crate) fn answer<R, S, K>(
    rt: &R,
    args: io::Result<Args>,
    source: &mut S,
    sink: &mut K,
) -> ExitCode
where
    R: Threads + Sync + AllocGlobal,
    S: Source,
    K: Sink,
    requires { IfOk args (λ given. AllowsNamed (S.allowed source.old) (map (λ argument. string_bytes argument) (drop 1 (into_iter_items given)))) }
    ensures answered { IfOk args (λ given. Ended (map (λ argument. string_bytes argument) (drop 1 (into_iter_items given)))
        (record { files = S.files source.old; faults = S.faults source.old })
        (record { files = S.files source.new; faults = S.faults source.new })
        (record { written = K.written sink.old; faults = K.faults sink.old })
        (record { written = K.written sink.new; faults = K.faults sink.new })
        ((source.new ≡ source.old) × (sink.new ≡ sink.old)) (exit_status result)) }
    ensures no_text { IfErr args (λ error. error_kind error ≡ ErrorKind.InvalidData → Ended []
        (record { files = S.files source.old; faults = S.faults source.old })
        (record { files = S.files source.new; faults = S.faults source.new })
        (record { written = K.written sink.old; faults = K.faults sink.old })
        (record { written = K.written sink.new; faults = K.faults sink.new })
        ((source.new ≡ source.old) × (sink.new ≡ sink.old)) (exit_status result)) }
    ensures no_arguments { IfErr args (λ error. error_kind error ≢ ErrorKind.InvalidData
        → (exit_status result ≡ 7) × ((source.new ≡ source.old) × (sink.new ≡ sink.old))) }
{
    code_of(status_for(rt, args, source, sink))
}

/// The code of this status, whether there was memory for the arguments or not.
fn code_of(answered: Result<u8, u8>) -> ExitCode
    ensures { MatchResult answered (λ status. exit_status result ≡ status) (λ status. exit_status result ≡ status) }
{
    match answered {
        Ok(status) | Err(status) => ExitCode::from(status),
    }
}

/// The status of the answer to these arguments, or 7 where there was no memory for them.
fn status_for<R, S, K>(
    rt: &R,
    args: io::Result<Args>,
    source: &mut S,
    sink: &mut K,
) -> Result<u8, u8>
where
    R: Threads + Sync + AllocGlobal,
    S: Source,
    K: Sink,
    requires { IfOk args (λ given. AllowsNamed (S.allowed source.old) (map (λ argument. string_bytes argument) (drop 1 (into_iter_items given)))) }
    ensures answered { IfOk args (λ given. IfOk result (IsAnswered (map (λ argument. string_bytes argument) (drop 1 (into_iter_items given)))
        (record { files = S.files source.old; faults = S.faults source.old })
        (record { files = S.files source.new; faults = S.faults source.new })
        (record { written = K.written sink.old; faults = K.faults sink.old })
        (record { written = K.written sink.new; faults = K.faults sink.new }))) }
    ensures no_text { IfErr args (λ error. error_kind error ≡ ErrorKind.InvalidData → IfOk result (IsAnswered []
        (record { files = S.files source.old; faults = S.faults source.old })
        (record { files = S.files source.new; faults = S.faults source.new })
        (record { written = K.written sink.old; faults = K.faults sink.old })
        (record { written = K.written sink.new; faults = K.faults sink.new }))) }
    ensures no_memory { IfErr result (λ status. status ≡ 7) }
    ensures no_arguments { IfErr args (λ error. error_kind error ≢ ErrorKind.InvalidData → result ≡ Err 7) }
    ensures untouched { OnErr result ((source.new ≡ source.old) × (sink.new ≡ sink.old)) }
{
    let arguments = arguments_given(rt.alloc(), args)?;
    let arguments = views(rt.alloc(), &arguments)?;
    Ok(run(rt, rt.alloc(), &arguments, source, sink))
}
