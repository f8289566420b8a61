//! What a control line says.
ghost use Rattle.std.specs.Prelude.{◌≡◌, ◌^◌, ◌<◌, Option};
ghost use Rattle.uuid.specs.Text.{parsed};
ghost use Rattle.control_session.specs.Lines.{commit_line, warm_line, layer_number, line_said, IsCall};

use uuid::Uuid;

/// What is asked of a control port.
#[derive(Clone, Copy, Debug, PartialEq, Eq)]
pub enum Call {
    Commit([u8; 16]),
    Warm(u32),
    Status,
}

/// What a control line says.
#[derive(Clone, Copy, Debug, PartialEq, Eq)]
pub enum Line {
    Asks(Call),
    /// The number of a layer to warm that no layer can have.
    NoLayer,
    Quit,
    /// None of these.
    Other,
}

/// The most digits of a layer's number.
const MOST_DIGITS: usize = 10;

/// What the line says, which stands here without its LF.
pub(crate) fn line_said(line: &[u8]) -> Line
    ensures said { result ≡ line_said line.now }
    ensures call { IsCall result }
{
    if line == b"status".as_slice() {
        return Line::Asks(Call::Status);
    }
    if line == b"quit".as_slice() {
        return Line::Quit;
    }
    if let Some(text) = line.strip_prefix(b"commit ".as_slice()) {
        return commit_line(text);
    }
    if let Some(digits) = line.strip_prefix(b"warm ".as_slice()) {
        return warm_line(digits);
    }
    Line::Other
}

// A commit with the uuid of that text, in any of its forms, but not the nil one.
fn commit_line(text: &[u8]) -> Line
    ensures said { result ≡ commit_line (parsed text.now) }
    ensures call { IsCall result }
{
    match Uuid::try_parse_ascii(text) {
        Ok(uuid) => {
            if uuid.is_nil() {
                return Line::Other;
            }
            Line::Asks(Call::Commit(uuid.into_bytes()))
        }
        Err(_) => Line::Other,
    }
}

// The warming of the layer with that number.
fn warm_line(digits: &[u8]) -> Line
    ensures said { result ≡ warm_line (layer_number digits.now) }
    ensures call { IsCall result }
{
    match layer_number(digits) {
        Some(number) => {
            if number < 1 << 32 {
                return Line::Asks(Call::Warm(number as u32));
            }
            Line::NoLayer
        }
        None => Line::Other,
    }
}

// The number that 1 to 10 decimal digits write.
fn layer_number(digits: &[u8]) -> Option<u64>
    ensures { result ≡ layer_number digits.now }
{
    if digits.is_empty() || digits.len() > MOST_DIGITS {
        return None;
    }
    let mut value: u64 = 0;
    for digit in digits {
        if !digit.is_ascii_digit() {
            return None;
        }
        value = value * 10 + (*digit - b'0') as u64;
    }
    Some(value)
}
