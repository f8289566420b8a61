//! The arguments of commands: one number, two numbers, an optional one, or a uuid.
ghost use Rattle.std.specs.Prelude.{◌≡◌, map, string_bytes, false, IfOk, IfSome};
ghost use Rattle.uuid.specs.Parts.{is_nil_bytes};
ghost use Rattle.tool_setup.specs.declared.command.WordsFault.TheVariants.{Memory};
ghost use Rattle.tool_setup.specs.Gives.{Gives};
ghost use Rattle.tool_setup.specs.Values.{InRange};
ghost use Rattle.tool_setup.specs.Words.{one_number, two_numbers, optional_number, one_uuid};

use crate::command::{Arg, WordsFault};
use crate::parsing::{parse_one, parse_option, parse_two};
use crate::values::{both_given, id_of, number_given, number_if_given, uuid_given};
use std::alloc::Global;

/// The number of a command's one argument.
pub fn one_number<'a>(
    alloc: Global,
    name: &'a str,
    arg: Arg,
    words: &'a [String],
) -> Result<u64, WordsFault>
    ensures gives { Gives Memory (one_number name.now arg (map string_bytes words.now)) result }
    ensures range { IfOk result (InRange arg) }
{
    let text = parse_one(alloc, name, id_of(arg), words)?;
    number_given(arg, text)
}

/// The numbers of a command's two arguments.
pub fn two_numbers<'a>(
    alloc: Global,
    name: &'a str,
    first: Arg,
    second: Arg,
    words: &'a [String],
) -> Result<(u64, u64), WordsFault>
    ensures gives { Gives Memory (two_numbers name.now first second (map string_bytes words.now)) result }
    ensures range { IfOk result (λ numbers. InRange first numbers.0 × InRange second numbers.1) }
{
    let (one, other) = parse_two(alloc, name, id_of(first), id_of(second), words)?;
    both_given(first, one, second, other)
}

/// The number of a command's one option, where the words give it.
pub fn optional_number<'a>(
    alloc: Global,
    name: &'a str,
    arg: Arg,
    words: &'a [String],
) -> Result<Option<u64>, WordsFault>
    ensures gives { Gives Memory (optional_number name.now arg (map string_bytes words.now)) result }
    ensures range { IfOk result (λ number. IfSome number (InRange arg)) }
{
    let text = parse_option(alloc, name, id_of(arg), words)?;
    number_if_given(arg, text)
}

/// The uuid of a command's one argument.
pub fn one_uuid<'a>(
    alloc: Global,
    name: &'a str,
    words: &'a [String],
) -> Result<[u8; 16], WordsFault>
    ensures gives { Gives Memory (one_uuid name.now (map string_bytes words.now)) result }
    ensures named { IfOk result (λ uuid. is_nil_bytes uuid ≡ false) }
{
    let text = parse_one(alloc, name, id_of(Arg::Uuid), words)?;
    uuid_given(text)
}
