//! Reads the words of a command line.
ghost use Rattle.std.specs.Prelude.{map, string_bytes, IfOk};
ghost use Rattle.tool_setup.specs.declared.command.WordsFault.TheVariants.{Memory};
ghost use Rattle.tool_setup.specs.Gives.{Gives};
ghost use Rattle.tool_setup.specs.Words.{HasRanges, command_as, command_of};

use crate::arguments::{one_number, one_uuid, optional_number, two_numbers};
use crate::command::{Arg, Command, WordsFault};
use crate::parsing::{parse_bare, parse_flag};
use crate::verb::{Verb, read_verb};
use sector_extent::ListOf;
use std::alloc::Global;

/// The words behind the name of the program.
pub type WordList = ListOf<String>;

/// How many connections a lane takes where no word says it.
const MOST_CONNECTIONS: u64 = 1_000_000;

/// The command that the words are. Only want of memory has no cause.
#[tactic(auto, unfolding(crate::specs::Words::command_of))]
pub fn read_words(alloc: Global, words: &WordList) -> Result<Command, WordsFault>
    ensures gives { Gives Memory (command_of (map string_bytes words.now)) result }
    ensures ranges { IfOk result HasRanges }
{
    let words = words.as_slice();
    match words {
        [] => Err(WordsFault::NoCommand),
        [name, ..] => match read_verb(name.as_str()) {
            Some(verb) => read_as(alloc, verb, name.as_str(), words),
            None => Err(WordsFault::UnknownCommand),
        },
    }
}

// The command of that verb that the words are.
#[tactic(auto, using(crate::proofs::Exits::gives_exit, crate::proofs::Exits::gives_ok))]
fn read_as<'a>(
    alloc: Global,
    verb: Verb,
    name: &'a str,
    words: &'a [String],
) -> Result<Command, WordsFault>
    ensures gives { Gives Memory (command_as verb name.now (map string_bytes words.now)) result }
    ensures ranges { IfOk result HasRanges }
{
    match verb {
        Verb::Flatten => {
            let stdin = parse_flag(alloc, name, "stdin", words)?;
            Ok(Command::Flatten { stdin })
        }
        Verb::Info => Ok(Command::Info(one_number(alloc, name, Arg::Layer, words)?)),
        Verb::Stack => {
            parse_bare(alloc, name, words)?;
            Ok(Command::Stack)
        }
        Verb::Create => {
            let sectors = optional_number(alloc, name, Arg::Sectors, words)?;
            Ok(Command::Create(sectors))
        }
        Verb::Grow => Ok(Command::Grow(one_number(alloc, name, Arg::Sectors, words)?)),
        Verb::Read => {
            let (at, count) = two_numbers(alloc, name, Arg::At, Arg::Count, words)?;
            Ok(Command::Read { at, count })
        }
        Verb::Write => {
            let at = one_number(alloc, name, Arg::At, words)?;
            Ok(Command::Write { at })
        }
        Verb::Zero => {
            let (at, count) = two_numbers(alloc, name, Arg::At, Arg::Count, words)?;
            Ok(Command::Zero { at, count })
        }
        Verb::Commit => Ok(Command::Commit(one_uuid(alloc, name, words)?)),
        Verb::Sweep => {
            parse_bare(alloc, name, words)?;
            Ok(Command::Sweep)
        }
        Verb::Make => {
            let (seed, acts) = two_numbers(alloc, name, Arg::Seed, Arg::Acts, words)?;
            Ok(Command::Make { seed, acts })
        }
        Verb::Export => {
            let given = optional_number(alloc, name, Arg::Connections, words)?;
            let connections = given.unwrap_or(MOST_CONNECTIONS);
            Ok(Command::Export { connections })
        }
    }
}
