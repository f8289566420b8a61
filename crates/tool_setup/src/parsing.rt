//! Reads the words of one simple command with `clap`.
ghost use Rattle.std.specs.Prelude.{◌≡◌, IfErr, IfOk, map, option_map, string_bytes, true, ⊤};
ghost use Rattle.clap.specs.Words.{app_of, first_of, found_of, is_simple_and_free, rows_of};
ghost use Rattle.tool_setup.specs.declared.command.WordsFault.{WordsFault};
ghost use Rattle.tool_setup.specs.Taken.{Takes, bare, flagged, optioned, one_more, given, is_set};

use crate::command::WordsFault;
use clap::error::ErrorKind;
use clap::{Arg, ArgAction, ArgMatches, Command};
use std::alloc::Global;

// The matches of a command, where it takes the words.
fn parse<'a>(command: Command<'a>, words: &'a [String]) -> Result<ArgMatches<'a>, WordsFault>
    requires { is_simple_and_free (app_of command) ≡ true }
    ensures { Takes (app_of command.entry) (map string_bytes words.now)
        (λ rows found. rows ≡ rows_of (found_of found)) result }
{
    match command.try_get_matches_from(words) {
        Ok(matches) => Ok(matches),
        Err(error) => Err(if error.kind() == ErrorKind::OutOfMemory {
            WordsFault::Memory
        } else {
            WordsFault::BadWords
        }),
    }
}

// The value of a required argument.
fn value_of<'a>(matches: &ArgMatches<'a>, id: &str) -> &'a str
    ensures { result.now ≡ given id.now (rows_of (found_of matches.now)) }
{
    match matches.get_str(id) {
        Some(text) => text,
        None => "",
    }
}

// Whether a flag is set.
fn has_flag(matches: &ArgMatches<'_>, id: &str) -> bool
    ensures { result ≡ is_set id.now (rows_of (found_of matches.now)) }
{
    match matches.get_str(id) {
        Some(text) => text == "true",
        None => false,
    }
}

// A command without arguments, and without a help flag.
fn bare_command<'a>(alloc: Global, name: &'a str) -> Command<'a>
    ensures { app_of result ≡ bare name.now }
{
    Command::new(alloc, name).disable_help_flag(true)
}

// The command with one more argument, which is required.
fn with_one_more<'a>(
    alloc: Global,
    command: Command<'a>,
    id: &'a str,
) -> Result<Command<'a>, WordsFault>
    ensures made { IfOk result (λ made. app_of made ≡ one_more (app_of command.entry) id.now) }
    ensures memory { IfErr result (λ fault. fault ≡ WordsFault.Memory) }
{
    let argument = Arg::new(alloc, id).required(true).action(ArgAction::Set);
    Ok(command.arg(argument)?)
}

/// Reads the words of a command without arguments.
pub fn parse_bare<'a>(alloc: Global, name: &'a str, words: &'a [String]) -> Result<(), WordsFault>
    ensures { Takes (bare name.now) (map string_bytes words.now) (λ rows found. ⊤) result }
{
    let command = bare_command(alloc, name);
    let _matches = parse(command, words)?;
    Ok(())
}

/// Whether the words of a command with one flag set it.
pub fn parse_flag<'a>(
    alloc: Global,
    name: &'a str,
    flag: &'a str,
    words: &'a [String],
) -> Result<bool, WordsFault>
    ensures { Takes (flagged name.now flag.now) (map string_bytes words.now)
        (λ rows found. found ≡ is_set flag.now rows) result }
{
    let argument = Arg::new(alloc, flag).long(flag).action(ArgAction::SetTrue);
    let command = bare_command(alloc, name).arg(argument)?;
    let matches = parse(command, words)?;
    Ok(has_flag(&matches, flag))
}

/// The value of a command's one option, where the words give it.
pub fn parse_option<'a>(
    alloc: Global,
    name: &'a str,
    option: &'a str,
    words: &'a [String],
) -> Result<Option<&'a str>, WordsFault>
    ensures { Takes (optioned name.now option.now) (map string_bytes words.now)
        (λ rows found. option_map (λ text. text.now) found ≡ first_of option.now rows) result }
{
    let argument = Arg::new(alloc, option).long(option).action(ArgAction::Set);
    let command = bare_command(alloc, name).arg(argument)?;
    let matches = parse(command, words)?;
    Ok(matches.get_str(option))
}

/// The value of a command's one argument.
pub fn parse_one<'a>(
    alloc: Global,
    name: &'a str,
    first: &'a str,
    words: &'a [String],
) -> Result<&'a str, WordsFault>
    ensures { Takes (one_more (bare name.now) first.now) (map string_bytes words.now)
        (λ rows found. found.now ≡ given first.now rows) result }
{
    let command = with_one_more(alloc, bare_command(alloc, name), first)?;
    let matches = parse(command, words)?;
    Ok(value_of(&matches, first))
}

/// The values of a command's two arguments, in order.
pub fn parse_two<'a>(
    alloc: Global,
    name: &'a str,
    first: &'a str,
    second: &'a str,
    words: &'a [String],
) -> Result<(&'a str, &'a str), WordsFault>
    ensures { Takes (one_more (one_more (bare name.now) first.now) second.now) (map string_bytes words.now)
        (λ rows found. (found.0.now ≡ given first.now rows) × (found.1.now ≡ given second.now rows)) result }
{
    let command = with_one_more(alloc, bare_command(alloc, name), first)?;
    let command = with_one_more(alloc, command, second)?;
    let matches = parse(command, words)?;
    Ok((value_of(&matches, first), value_of(&matches, second)))
}
