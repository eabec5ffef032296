//! Commands, and how they are read from arguments.
ghost use Rattle.std.specs.Prelude.{◌≡◌, ◌≤◌, map, option_map, option_and_then, IfOk, IfSome};
ghost use Rattle.ncl_command.specs.Command.{command_of, check_of, compile_of, sim_of, match_of, demo_of, form_of};
ghost use Rattle.ncl_command.specs.Command.{is_set, limit_of, HasLimit, HasBits};
ghost use Rattle.ncl_command.specs.Reading.{Arguments, values_of};
ghost use Rattle.ncl_command.specs.Meaning.{command_by, command_meant, command_said, form_read, values_found};

use crate::form::{FormOption, form_values};
use crate::number::counted;
use clap::ArgMatches;
use ncl_base::Memory;
use std::alloc::Global;

/// The most nodes that a stage may have in a check, or an output in a comparison, where the arguments give no limit.
pub const MOST_NODES: u32 = 100_000;

/// The largest limit of nodes that the arguments may give.
pub const LARGEST_LIMIT: u32 = 1_000_000;

/// The most bits that the adder of a demo may have.
pub const MOST_DEMO_BITS: u32 = 32;

/// What the arguments after the program's name ask for.
#[derive(Clone, Copy, Debug)]
pub enum Command<'a> {
    /// Judge the netlist in this file, where a stage may have so many nodes, and tell why a cell is an orphan if asked
    /// to.
    Check {
        file: &'a str,
        limit: u32,
        why: bool,
    },
    /// Compile the models in this file, and merge gates of the netlist if asked to.
    Compile {
        file: &'a str,
        merge: bool,
    },
    /// Simulate the netlist in the first file, under the delays in the second, on the words in the third, and write a
    /// value change dump of the run if asked to.
    Sim {
        netlist: &'a str,
        delays: &'a str,
        words: &'a str,
        vcd: bool,
    },
    /// Compare the netlist in the first file with the models in the second, where an output may have so many nodes.
    Match {
        netlist: &'a str,
        blif: &'a str,
        limit: u32,
    },
    /// Make, judge and simulate the adder of so many bits.
    Demo {
        bits: u32,
    },
}

/// The limit of nodes that a text says, or the usual one where there is no text.
fn limit(text: Option<&str>) -> Option<u32>
    ensures limit { result ≡ limit_of (option_map (λ given. given.now) text.entry) }
    ensures some { IfSome result (λ limit. 1 ≤ limit) }
{
    match text {
        Some(text) => counted(text, 7, LARGEST_LIMIT),
        None => Some(MOST_NODES),
    }
}

/// Whether a flag was given.
fn is_set(values: &ArgMatches<'_>, flag: &str) -> bool
    ensures { result ≡ is_set (values_found values.now flag.now) }
{
    values.get_str(flag).is_some_and(|said| said == "true")
}

/// The check that the values say.
fn check<'a>(values: &ArgMatches<'a>) -> Option<Command<'a>>
    ensures { option_map command_meant result ≡ check_of (values_found values.now) }
{
    let file = values.get_str("file")?;
    let limit = limit(values.get_str("limit"))?;
    let why = is_set(values, "why");
    Some(Command::Check { file, limit, why })
}

/// The compilation that the values say.
fn compile<'a>(values: &ArgMatches<'a>) -> Option<Command<'a>>
    ensures { option_map command_meant result ≡ compile_of (values_found values.now) }
{
    let file = values.get_str("file")?;
    let merge = is_set(values, "merge");
    Some(Command::Compile { file, merge })
}

/// The simulation that the values say.
fn sim<'a>(values: &ArgMatches<'a>) -> Option<Command<'a>>
    ensures { option_map command_meant result ≡ sim_of (values_found values.now) }
{
    let netlist = values.get_str("netlist")?;
    let delays = values.get_str("delays")?;
    let words = values.get_str("words")?;
    let vcd = is_set(values, "vcd");
    Some(Command::Sim {
        netlist,
        delays,
        words,
        vcd,
    })
}

/// The comparison that the values say.
fn matching<'a>(values: &ArgMatches<'a>) -> Option<Command<'a>>
    ensures { option_map command_meant result ≡ match_of (values_found values.now) }
{
    let netlist = values.get_str("netlist")?;
    let blif = values.get_str("blif")?;
    let limit = limit(values.get_str("limit"))?;
    Some(Command::Match {
        netlist,
        blif,
        limit,
    })
}

/// The demo that the values say.
fn demo<'a>(values: &ArgMatches<'a>) -> Option<Command<'a>>
    ensures { option_map command_meant result ≡ demo_of (values_found values.now) }
{
    let bits = counted(values.get_str("bits")?, 2, MOST_DEMO_BITS)?;
    Some(Command::Demo { bits })
}

/// The form of the arguments that follow a command's name.
#[derive(Clone, Copy)]
enum Form {
    /// `check FILE [--limit N] [--why]`.
    Check,
    /// `compile FILE [--merge]`.
    Compile,
    /// `sim FILE --delays FILE --words FILE [--vcd]`.
    Sim,
    /// `match FILE FILE [--limit N]`.
    Match,
    /// `demo N`.
    Demo,
}

impl Form {
    /// The form of the command of this name, if there is one.
    fn named(name: &str) -> Option<Form>
        ensures { (arguments : Arguments) → form_of name.now arguments ≡ option_and_then (λ form. command_by form arguments) result }
    {
        match name {
            "check" => Some(Form::Check),
            "compile" => Some(Form::Compile),
            "sim" => Some(Form::Sim),
            "match" => Some(Form::Match),
            "demo" => Some(Form::Demo),
            _ => None,
        }
    }

    /// The values of the form's names in the arguments, or `None` where they aren't of the form.
    fn values<'a>(
        self,
        alloc: Global,
        arguments: &'a [&'a str],
    ) -> Result<Option<ArgMatches<'a>>, Memory>
        ensures { IfOk result (λ found. option_map values_found found ≡ values_of (form_read self) (map (λ argument. argument.now) arguments.now)) }
    {
        match self {
            Form::Check => {
                let options = [FormOption::Optional("limit"), FormOption::Flag("why")];
                form_values(alloc, &["file"], &options, arguments)
            }
            Form::Compile => {
                form_values(alloc, &["file"], &[FormOption::Flag("merge")], arguments)
            }
            Form::Sim => {
                let options = [
                    FormOption::Needed("delays"),
                    FormOption::Needed("words"),
                    FormOption::Flag("vcd"),
                ];
                form_values(alloc, &["netlist"], &options, arguments)
            }
            Form::Match => {
                let options = [FormOption::Optional("limit")];
                form_values(alloc, &["netlist", "blif"], &options, arguments)
            }
            Form::Demo => form_values(alloc, &["bits"], &[], arguments),
        }
    }

    /// The command that the values of the form's names say.
    fn command<'a>(self, values: &ArgMatches<'a>) -> Option<Command<'a>>
        ensures { option_map command_meant result ≡ command_said self (values_found values.now) }
    {
        match self {
            Form::Check => check(values),
            Form::Compile => compile(values),
            Form::Sim => sim(values),
            Form::Match => matching(values),
            Form::Demo => demo(values),
        }
    }
}

impl<'a> Command<'a> {
    /// The command of the arguments, or `None` where they are of no form. Linear in them. The only error is want of memory.
    pub fn parse(alloc: Global, arguments: &'a [&'a str]) -> Result<Option<Command<'a>>, Memory>
        ensures command { IfOk result (λ command. option_map command_meant command ≡ command_of (map (λ argument. argument.now) arguments.now)) }
        ensures limit { IfOk result (λ command. IfSome command (λ c. HasLimit (command_meant c))) }
        ensures bits { IfOk result (λ command. IfSome command (λ c. HasBits (command_meant c))) }
    {
        let [name, rest @ ..] = arguments else {
            return Ok(None);
        };
        let Some(form) = Form::named(name) else {
            return Ok(None);
        };
        match form.values(alloc, rest)? {
            Some(values) => Ok(form.command(&values)),
            None => Ok(None),
        }
    }
}
