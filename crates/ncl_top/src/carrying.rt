//! How a command is carried out.
ghost use Rattle.std.specs.Prelude.{◌≢◌, [], length, IsErrOf};
ghost use Rattle.ncl_base.specs.Files.{Rose};
ghost use Rattle.ncl_command.specs.Command.{AllowsFiles, HasBits, HasLimit, files_named};
ghost use Rattle.ncl_command.specs.Meaning.{command_meant};
ghost use Rattle.ncl_top.specs.Answer.{IsReply};
ghost use Rattle.ncl_reply.specs.Devices.{IsServed};
ghost use Rattle.ncl_reply.specs.Replies.{Replies};

use crate::demonstrating::demonstrate;
use crate::files::{check_file, compile_file};
use ncl_base::Source;
use ncl_check::Judging;
use ncl_command::Command;
use ncl_reply::{Fault, Reply};
use ncl_sim_match::{Other, Running, match_files, sim_files};
use ncl_verdict::Judge;
use std::thread::Threads;

/// Carries out a command and gives its reply.
///
/// Reads each file that the command names from the source.
pub(crate) fn carry_out<R: Threads + Sync, S: Source, J: Judge + Sync>(
    judging: &Judging<'_, R, J>,
    source: &mut S,
    command: Command<'_>,
) -> Result<Reply, Fault>
    requires allowed { AllowsFiles (S.allowed source.old) (command_meant command) }
    requires limit { HasLimit (command_meant command) }
    requires bits { HasBits (command_meant command) }
    ensures replies { Replies (IsReply (command_meant command.entry) (S.files source.old)) result }
    ensures read { IsErrOf result Fault.Read → Rose (S.faults source.old) (S.faults source.new) }
    ensures read_named { IsErrOf result Fault.Read → files_named (command_meant command.entry) ≢ [] }
    ensures source { IsServed S.files S.allowed S.faults S.opens S.given source.old source.new
        (length (files_named (command_meant command.entry))) }
{
    match command {
        Command::Check { file, limit, why } => check_file(judging, source, file, limit, why),
        Command::Compile { file, merge } => compile_file(judging.alloc, source, file, merge),
        Command::Sim {
            netlist,
            delays,
            words,
            vcd,
        } => {
            let run = Running { delays, words, vcd };
            sim_files(judging.alloc, source, netlist, &run)
        }
        Command::Match {
            netlist,
            blif,
            limit,
        } => {
            let other = Other { blif, limit };
            match_files(judging.rt, judging.alloc, source, netlist, &other)
        }
        Command::Demo { bits } => Ok(demonstrate(judging, bits)?),
    }
}
