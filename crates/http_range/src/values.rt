//! The values of fields: numbers and ranges.
ghost use Rattle.std.specs.Prelude.{◌≡◌, ◌≢◌, ℕ, ◌+◌, ◌*◌, ◌^◌, ◌<◌, ◌≤◌, ◌⊎◌, ◌==◌, Bool, true, false, Option, Some, None, List, length, take, drop, codes, option_map, option_and_then, MatchOption};
ghost use Rattle.std.specs.Char.{is_ascii_digit, digit_value};
ghost use Rattle.http_range.specs.Replies.{number, cut, behind, range_from, range_of};

/// A range of bytes, both ends included, and the total that it is of.
#[derive(Clone, Copy, Debug, PartialEq, Eq)]
pub struct ContentRange {
    pub first: u64,
    pub last: u64,
    pub total: u64,
}

/// A decimal number below 2^63.
pub fn number_of(digits: &[u8]) -> Option<u64>
    ensures { result ≡ number digits.now }
{
    if digits.is_empty() {
        return None;
    }
    let mut value: u64 = 0;
    for digit in digits {
        match next_value(value, *digit) {
            Some(next) => value = next,
            None => return None,
        }
    }
    Some(value)
}

// The number with one digit more, where it stays below 2^63.
fn next_value(value: u64, digit: u8) -> Option<u64>
    requires { value < 2 ^ 63 }
    ensures { MatchOption result ((is_ascii_digit digit ≡ false) ⊎ (2 ^ 63 ≤ value * 10 + digit_value digit))
        (λ next. (is_ascii_digit digit ≡ true) × (next < 2 ^ 63) × (next ≡ value * 10 + digit_value digit)) }
{
    if digit < b'0' || b'9' < digit || value > ((1 << 63) - 1) / 10 {
        return None;
    }
    let next = value * 10 + (digit - b'0') as u64;
    if next < 1 << 63 { Some(next) } else { None }
}

/// What stands before the first such byte, and behind it.
pub fn cut_at(bytes: &[u8], byte: u8) -> Option<(&[u8], &[u8])>
    ensures { option_map (λ p. (p.0.now, p.1.now)) result ≡ cut byte bytes.now }
{
    for at in 0..bytes.len() {
        if bytes[at] == byte {
            return Some((&bytes[..at], &bytes[at + 1..]));
        }
    }
    None
}

fn range_numbers(first: &[u8], last: &[u8], total: &[u8]) -> Option<ContentRange>
    ensures { result ≡ range_from (number first.now) (number last.now) (number total.now) }
{
    let first = number_of(first)?;
    let last = number_of(last)?;
    let total = number_of(total)?;
    Some(ContentRange { first, last, total })
}

/// The range in the value of a field Content-Range.
pub fn range_in(value: &[u8]) -> Option<ContentRange>
    ensures { result ≡ range_of value.now }
{
    let numbers = value.strip_prefix(b"bytes ".as_slice())?;
    let (first, rest) = cut_at(numbers, b'-')?;
    let (last, total) = cut_at(rest, b'/')?;
    range_numbers(first, last, total)
}
