//! The lines that are sent.
ghost use Rattle.std.specs.Prelude.{◌≡◌, ◌+◌, ◌≤◌, ◌++◌, codes, decimal, length};
ghost use Rattle.arrayvec.specs.ArrayString.{array_string_len};
ghost use Rattle.control_session.specs.Replies.{uuid_text, pending_text, commit_reply, warm_reply, status_reply};

use crate::answer::{CommitAnswer, StatusAnswer, WarmAnswer};
use arrayvec::ArrayString;
use itoa::Buffer;
use uuid::Uuid;

/// A line to be sent, with its LF.
pub type Text = ArrayString<256>;

/// A line that is always the same.
pub(crate) fn fixed(words: &str) -> Text
    requires { length words.now ≤ 256 }
    ensures { result.bytes ≡ words.now }
{
    let mut text = Text::new();
    text.push_str(words);
    text
}

// Puts words and the digits of a number behind the text.
fn push_number(text: &mut Text, words: &str, number: u64)
    requires { array_string_len text.old + length words.now + 20 ≤ 256 }
    ensures bytes { text.new.bytes ≡ text.old.bytes ++ (words.now ++ decimal number) }
    ensures room { array_string_len text.new ≤ array_string_len text.old + (length words.now + 20) }
{
    let mut digits = Buffer::new();
    text.push_str(words);
    text.push_str(digits.format(number));
}

// Puts words and a uuid behind the text, in lower case with hyphens.
fn push_uuid(text: &mut Text, words: &str, uuid: [u8; 16])
    requires { array_string_len text.old + length words.now + 36 ≤ 256 }
    ensures bytes { text.new.bytes ≡ text.old.bytes ++ (words.now ++ uuid_text uuid) }
    ensures room { array_string_len text.new ≤ array_string_len text.old + (length words.now + 36) }
{
    let mut buffer = Uuid::encode_buffer();
    text.push_str(words);
    text.push_str(
        Uuid::from_bytes(uuid)
            .hyphenated()
            .encode_lower(&mut buffer),
    );
}

// A line of words and a uuid.
fn named(words: &str, uuid: [u8; 16]) -> Text
    requires { length words.now ≤ 64 }
    ensures { result.bytes ≡ words.now ++ (uuid_text uuid ++ codes "\n") }
{
    let mut text = Text::new();
    push_uuid(&mut text, words, uuid);
    text.push_str("\n");
    text
}

/// The line on a commit.
pub fn commit_text(uuid: [u8; 16], answer: CommitAnswer) -> Text
    ensures { result.bytes ≡ commit_reply uuid answer }
{
    match answer {
        CommitAnswer::Done => named("committed ", uuid),
        CommitAnswer::Busy(other) => named("refused busy ", other),
        CommitAnswer::TooMany => fixed("refused too many layers\n"),
        CommitAnswer::UuidTwice => fixed("refused uuid twice\n"),
        CommitAnswer::Failed => fixed("refused disk fault\n"),
        CommitAnswer::Worn => fixed("refused worn\n"),
        CommitAnswer::Memory => fixed("refused memory\n"),
    }
}

// The line on a layer that was warmed.
fn warmed(layer: u32, blocks: u64) -> Text
    ensures { result.bytes ≡ warm_reply layer (WarmAnswer.Done blocks) }
{
    let mut text = Text::new();
    push_number(&mut text, "warmed ", layer as u64);
    push_number(&mut text, " ", blocks);
    text.push_str("\n");
    text
}

/// The line on the warming of a layer.
pub fn warm_text(layer: u32, answer: WarmAnswer) -> Text
    ensures { result.bytes ≡ warm_reply layer answer }
{
    match answer {
        WarmAnswer::Done(blocks) => warmed(layer, blocks),
        WarmAnswer::NoLayer => fixed("refused no layer\n"),
        WarmAnswer::Failed => fixed("refused shelf fault\n"),
    }
}

// Puts what is pending behind the text.
fn push_pending(text: &mut Text, pending: Option<[u8; 16]>)
    requires { array_string_len text.old ≤ 128 }
    ensures bytes { text.new.bytes ≡ text.old.bytes ++ pending_text pending }
    ensures room { array_string_len text.new ≤ array_string_len text.old + 64 }
{
    match pending {
        Some(uuid) => push_uuid(text, " pending ", uuid),
        None => text.push_str(" pending none"),
    }
}

/// The line on how the image stands.
pub fn status_text(answer: StatusAnswer) -> Text
    ensures { result.bytes ≡ status_reply answer }
{
    match answer {
        StatusAnswer::Now {
            sectors,
            layers,
            entries,
            pending,
        } => {
            let mut text = Text::new();
            push_number(&mut text, "status sectors ", sectors);
            push_number(&mut text, " layers ", layers as u64);
            push_number(&mut text, " entries ", entries);
            push_pending(&mut text, pending);
            text.push_str("\n");
            text
        }
        StatusAnswer::Worn => fixed("refused worn\n"),
    }
}
