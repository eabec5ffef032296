//! The arguments after a command's name, read by `clap`.
ghost use Rattle.std.specs.Prelude.{◌≡◌, ◌≤◌, map, length, true, false, IfOk, option_map};
ghost use Rattle.std.specs.List.{list_any};
ghost use Rattle.clap.specs.Simple.{app_of};
ghost use Rattle.clap.specs.Walk.{rule_of};
ghost use Rattle.ncl_command.specs.Reading.{is_apart, is_refused, is_refused_kind, option_kind, values_of};
ghost use Rattle.ncl_command.specs.Rules.{app_for, option_rule, place_rule};
ghost use Rattle.ncl_command.specs.Meaning.{form_meant, option_meant, values_found};

use clap::error::ErrorKind;
use clap::{Arg, ArgAction, ArgMatches, Command};
use ncl_base::Memory;
use std::alloc::{AllocError, Global};

/// An option of a form, by its name.
#[derive(Clone, Copy)]
pub(crate) enum FormOption<'a> {
    /// It may be given, with a value.
    Optional(&'a str),
    /// It must be given, with a value.
    Needed(&'a str),
    /// It takes no value, and says only whether it was given.
    Flag(&'a str),
}

/// Whether no form has an argument that has this after two dashes.
fn is_refused_option(text: &str) -> bool
    ensures { result ≡ is_refused_kind (option_kind text.now) }
{
    match text.split_once('=') {
        Some((_, value)) => value.is_empty(),
        None => text.is_empty(),
    }
}

/// Whether no form has this argument: it is empty, or `--`, or has a dash before something else, or is `--NAME=`.
/// Linear in its bytes.
fn is_refused(argument: &str) -> bool
    ensures { result ≡ is_refused argument.now }
{
    let Some(dashed) = argument.strip_prefix('-') else {
        return argument.is_empty();
    };
    match dashed.strip_prefix('-') {
        Some(option) => is_refused_option(option),
        None => true,
    }
}

/// Whether no form has one of these arguments. Linear in their bytes.
fn any_is_refused(arguments: &[&str]) -> bool
    ensures { result ≡ list_any (λ argument. is_refused argument.now) arguments.now }
{
    arguments.iter().any(|argument| is_refused(argument))
}

/// What `clap` is told of an option.
fn option_arg(alloc: Global, option: FormOption<'_>) -> Arg<'_>
    ensures rule { rule_of result ≡ option_rule (option_meant option.entry) }
    ensures local { result.global ≡ false }
{
    match option {
        FormOption::Optional(name) => Arg::new(alloc, name).long(name),
        FormOption::Needed(name) => Arg::new(alloc, name).long(name).required(true),
        FormOption::Flag(name) => Arg::new(alloc, name).long(name).action(ArgAction::SetTrue),
    }
}

/// What `clap` is told of an argument that is no option.
fn place_arg(alloc: Global, place: &str) -> Arg<'_>
    ensures rule { rule_of result ≡ place_rule place.now }
    ensures local { result.global ≡ false }
{
    Arg::new(alloc, place).required(true)
}

/// The command of `clap` for a form: arguments that are no options, in this order, and these options. One call of `clap`
/// for each.
fn form_command<'a>(
    alloc: Global,
    places: &[&'a str],
    options: &[FormOption<'a>],
) -> Result<Command<'a>, AllocError>
    ensures { IfOk result (λ command. app_of command ≡ app_for (form_meant places.now options.now)) }
{
    let mut command = Command::new(alloc, "form")
        .no_binary_name(true)
        .disable_help_flag(true);
    for place in places {
        command = command.arg(place_arg(alloc, place))?;
    }
    for option in options {
        command = command.arg(option_arg(alloc, *option))?;
    }
    Ok(command)
}

/// The values of the form's names in the arguments, or `None` where they aren't of the form. The only error is want of
/// memory.
pub(crate) fn form_values<'a>(
    alloc: Global,
    places: &[&'a str],
    options: &[FormOption<'a>],
    arguments: &'a [&'a str],
) -> Result<Option<ArgMatches<'a>>, Memory>
    requires apart { is_apart (form_meant places.now options.now) ≡ true }
    requires few { length places.now ≤ 65535 }
    ensures { IfOk result (λ found. option_map values_found found
        ≡ values_of (form_meant places.now options.now) (map (λ argument. argument.now) arguments.now)) }
{
    if any_is_refused(arguments) {
        return Ok(None);
    }
    let command = form_command(alloc, places, options)?;
    match command.try_get_matches_from(arguments) {
        Ok(matches) => Ok(Some(matches)),
        Err(error) => match error.kind() {
            ErrorKind::OutOfMemory => Err(Memory),
            _ => Ok(None),
        },
    }
}
