//! The values of arguments: numbers in their ranges and uuids.
ghost use Rattle.std.specs.Prelude.{◌≡◌, false, option_map, IfOk, IfSome};
ghost use Rattle.uuid.specs.Parts.{is_nil_bytes};
ghost use Rattle.tool_setup.specs.Values.{InRange, id_of, least_of, most_of, digits_in, both_given, number_given, number_if_given, uuid_given};

use crate::command::{Arg, WordsFault};
use uuid::Uuid;

/// The name of an argument in its command.
pub fn id_of(arg: Arg) -> &'static str
    ensures { result.now ≡ id_of arg }
{
    match arg {
        Arg::Layer => "layer",
        Arg::Sectors => "sectors",
        Arg::At => "at",
        Arg::Count => "count",
        Arg::Uuid => "uuid",
        Arg::Seed => "seed",
        Arg::Acts => "acts",
        Arg::Connections => "connections",
    }
}

/// The least number that an argument may be.
fn least_of(arg: Arg) -> u64
    ensures { result ≡ least_of arg }
{
    match arg {
        Arg::Sectors | Arg::Connections => 1,
        _ => 0,
    }
}

/// The greatest number that an argument may be.
fn most_of(arg: Arg) -> u64
    ensures { result ≡ most_of arg }
{
    match arg {
        Arg::Seed => (1 << 31) - 1,
        Arg::Acts => 100_000,
        Arg::Connections => 1_000_000,
        _ => 1 << 31,
    }
}

/// The number of an argument, where a text is one of its range.
#[tactic(auto, unfolding(crate::specs::Values::number_given))]
pub fn number_given(arg: Arg, text: &str) -> Result<u64, WordsFault>
    ensures gives { result ≡ number_given arg text.now }
    ensures range { IfOk result (InRange arg) }
{
    match read_number(text.as_bytes()) {
        Some(number) => {
            if number < least_of(arg) as u128 || number > most_of(arg) as u128 {
                return Err(WordsFault::BadValue(arg));
            }
            Ok(number as u64)
        }
        None => Err(WordsFault::BadValue(arg)),
    }
}

/// The numbers of two arguments.
pub fn both_given(first: Arg, one: &str, second: Arg, other: &str) -> Result<(u64, u64), WordsFault>
    ensures gives { result ≡ both_given first one.now second other.now }
    ensures range { IfOk result (λ numbers. InRange first numbers.0 × InRange second numbers.1) }
{
    let number = number_given(first, one)?;
    Ok((number, number_given(second, other)?))
}

/// The number of an argument that may be left out.
pub fn number_if_given(arg: Arg, text: Option<&str>) -> Result<Option<u64>, WordsFault>
    ensures gives { result ≡ number_if_given arg (option_map (λ text. text.now) text.entry) }
    ensures range { IfOk result (λ number. IfSome number (InRange arg)) }
{
    match text {
        Some(text) => Ok(Some(number_given(arg, text)?)),
        None => Ok(None),
    }
}

/// The number that 1 to 20 decimal digits spell.
fn read_number(word: &[u8]) -> Option<u128>
    ensures { result ≡ digits_in word.now }
{
    if word.is_empty() || word.len() > 20 {
        return None;
    }
    let mut number = 0u128;
    for digit in word {
        if !digit.is_ascii_digit() {
            return None;
        }
        number = number * 10 + (*digit - b'0') as u128;
    }
    Some(number)
}

/// The uuid that a text is in any of its forms, where it is not the nil one.
#[tactic(auto, unfolding(crate::specs::Values::uuid_given))]
pub fn uuid_given(text: &str) -> Result<[u8; 16], WordsFault>
    ensures gives { result ≡ uuid_given text.now }
    ensures named { IfOk result (λ uuid. is_nil_bytes uuid ≡ false) }
{
    match Uuid::parse_str(text) {
        Ok(uuid) => {
            if uuid.is_nil() {
                return Err(WordsFault::BadValue(Arg::Uuid));
            }
            Ok(uuid.into_bytes())
        }
        Err(_) => Err(WordsFault::BadValue(Arg::Uuid)),
    }
}
