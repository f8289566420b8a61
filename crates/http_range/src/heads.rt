//! The head of a reply, judged for the range that was asked for.
ghost use Rattle.std.specs.Prelude.{◌≡◌, ℕ, ◌+◌, ◌-◌, ◌^◌, ◌<◌, ◌≤◌, length, map, All, option_and_then, Option};
ghost use Rattle.httparse.specs.Spans.{header_bytes, IsHeaderWithin};
ghost use Rattle.http_range.specs.Heads.{HeadIs};
ghost use Rattle.http_range.specs.Replies.{judged, ranged, lengthed, range_of, number, only, values_of};

use crate::fields::{has_field, only_value};
use crate::reason::ReplyReason;
use crate::values::{ContentRange, number_of, range_in};
use httparse::spans::{EMPTY_HEADER_SPAN, HeaderSpan, parse_response};
use httparse::{Error, Status};

/// The longest head in bytes.
pub const HEAD: usize = 16_384;

/// The most fields of a head.
const FIELDS: usize = 64;

/// What is found at the front of received bytes.
#[derive(Clone, Copy, Debug, PartialEq, Eq)]
pub enum Head {
    /// The beginning of a head.
    More,
    /// Bytes that begin no head.
    Bad,
    /// A head that is refused.
    Refused {
        status: u16,
        reason: ReplyReason,
    },
    /// A good head, whose body begins at that place.
    Good {
        status: u16,
        total: u64,
        body: usize,
    },
}

/// Looks for a head at the front of `bytes`, which answers a request for the bytes `first` to `last`.
pub fn find_head(bytes: &[u8], first: u64, last: u64) -> Head
    requires short { length bytes.now ≤ 16384 }
    requires ordered { first ≤ last }
    requires small { last < 2 ^ 63 }
    ensures { HeadIs bytes.now first last result }
{
    let mut headers = [EMPTY_HEADER_SPAN; FIELDS];
    match parse_response(bytes, &mut headers) {
        Ok(Status::Complete(head)) => {
            match judge_fields(bytes, &headers[..head.headers], head.code, first, last) {
                Ok(total) => Head::Good {
                    status: head.code,
                    total,
                    body: head.len,
                },
                Err(reason) => Head::Refused {
                    status: head.code,
                    reason,
                },
            }
        }
        Ok(Status::Partial) => Head::More,
        Err(Error::TooManyHeaders) => Head::Bad,
        Err(_) => Head::Bad,
    }
}

// The total that a head of that status and these fields names, or the first reason against it.
fn judge_fields(
    bytes: &[u8],
    headers: &[HeaderSpan],
    status: u16,
    first: u64,
    last: u64,
) -> Result<u64, ReplyReason>
    requires within { All (IsHeaderWithin (length bytes.now)) headers.now }
    requires ordered { first ≤ last }
    requires small { last < 2 ^ 63 }
    ensures { result ≡ judged status (map (header_bytes bytes.now) headers.now) first last }
{
    if status != 206 {
        return Err(ReplyReason::NotPartial);
    }
    if has_field(bytes, headers, b"transfer-encoding") {
        return Err(ReplyReason::Chunked);
    }
    let range = only_value(bytes, headers, b"content-range").and_then(range_in);
    let length = only_value(bytes, headers, b"content-length").and_then(number_of);
    judge_range(range, length, first, last)
}

fn judge_range(
    range: Option<ContentRange>,
    length: Option<u64>,
    first: u64,
    last: u64,
) -> Result<u64, ReplyReason>
    requires ordered { first ≤ last }
    requires small { last < 2 ^ 63 }
    ensures { result ≡ ranged range length first last }
{
    match range {
        None => Err(ReplyReason::NoRange),
        Some(range) => {
            if range.first == first && range.last == last && last < range.total {
                judge_length(length, last + 1 - first, range.total)
            } else {
                Err(ReplyReason::OtherRange)
            }
        }
    }
}

fn judge_length(length: Option<u64>, size: u64, total: u64) -> Result<u64, ReplyReason>
    ensures { result ≡ lengthed length size total }
{
    match length {
        None => Err(ReplyReason::NoLength),
        Some(length) if length == size => Ok(total),
        Some(_) => Err(ReplyReason::OtherLength),
    }
}
