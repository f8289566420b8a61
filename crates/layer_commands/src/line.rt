//! A line of text in a buffer of a fixed size, so that it needs no memory.
ghost use Rattle.std.specs.Prelude.{◌≡◌, ◌+◌, ◌≤◌, ◌++◌, decimal, length};
ghost use Rattle.arrayvec.specs.ArrayString.{array_string_len};
ghost use Rattle.layer_commands.specs.Texts.{uuid_text};

use arrayvec::ArrayString;
use itoa::Buffer;
use uuid::Uuid;

/// A line of at most 128 bytes.
pub type Line = ArrayString<128>;

/// Puts the decimal digits of a number behind the line's bytes.
pub fn push_number(line: &mut Line, number: u64)
    requires { array_string_len line.old + 20 ≤ 128 }
    ensures text { line.new.bytes ≡ line.old.bytes ++ decimal number }
    ensures room { array_string_len line.new ≤ array_string_len line.old + 20 }
{
    let mut digits = Buffer::new();
    line.push_str(digits.format(number));
}

/// Puts a text and a number behind the line's bytes.
pub fn push_numbered(line: &mut Line, text: &str, number: u64)
    requires { array_string_len line.old + length text.now + 20 ≤ 128 }
    ensures text { line.new.bytes ≡ line.old.bytes ++ (text.now ++ decimal number) }
    ensures room { array_string_len line.new ≤ array_string_len line.old + (length text.now + 20) }
{
    line.push_str(text);
    push_number(line, number);
}

/// Puts a text, a number and a text behind the line's bytes.
pub fn push_parted(line: &mut Line, text: &str, number: u64, end: &str)
    requires { array_string_len line.old + length text.now + length end.now + 20 ≤ 128 }
    ensures text { line.new.bytes ≡ line.old.bytes ++ (text.now ++ (decimal number ++ end.now)) }
    ensures room { array_string_len line.new ≤ array_string_len line.old + (length text.now + length end.now + 20) }
{
    line.push_str(text);
    push_number(line, number);
    line.push_str(end);
}

/// Puts a text, a number, a text and a number behind the line's bytes.
pub fn push_pair(line: &mut Line, text: &str, first: u64, between: &str, second: u64)
    requires { array_string_len line.old + length text.now + length between.now + 40 ≤ 128 }
    ensures text { line.new.bytes
        ≡ line.old.bytes ++ (text.now ++ (decimal first ++ (between.now ++ decimal second))) }
    ensures room { array_string_len line.new
        ≤ array_string_len line.old + (length text.now + length between.now + 40) }
{
    push_numbered(line, text, first);
    push_numbered(line, between, second);
}

/// Puts a text and a uuid, in lower case with hyphens, behind the line's bytes.
pub fn push_named(line: &mut Line, text: &str, uuid: [u8; 16])
    requires { array_string_len line.old + length text.now + 36 ≤ 128 }
    ensures text { line.new.bytes ≡ line.old.bytes ++ (text.now ++ uuid_text uuid) }
    ensures room { array_string_len line.new ≤ array_string_len line.old + (length text.now + 36) }
{
    let mut buffer = Uuid::encode_buffer();
    line.push_str(text);
    line.push_str(
        Uuid::from_bytes(uuid)
            .hyphenated()
            .encode_lower(&mut buffer),
    );
}
