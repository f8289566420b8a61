//! Replies to a request for 65,536 bytes from 65,536 on, of a file of 200,000 bytes.
ghost use Rattle.std.specs.Prelude.{IfOk};
ghost use Rattle.http_range.specs.Fetching.{IsFresh};
ghost use Rattle.http_range.specs.InMemory.{mem_state};

use crate::expecting::{holds, holds_at};
use crate::noted_link::{Log, NotedLink, target};
use http_range::*;
use sector_extent::{Bytes, CallList, FileTexts};
use std::alloc::{AllocError, Global};
use std::process::Abort;
use std::test::Fail;

const HEAD: &[u8; 97] =
    b"HTTP/1.1 206 Partial Content\r\nContent-Range: bytes 65536-131071/200000\r\nContent-Length: 65536\r\n\r\n";

const REQUEST: &[u8; 70] =
    b"GET /l/0 HTTP/1.1\r\nHost: 127.0.0.1:8080\r\nRange: bytes=65536-131071\r\n\r\n";

const SIZE: usize = 65_536;

type Fetched = Result<u64, FetchFault>;

// The head and so many bytes of the body.
fn reply_of(alloc: Global, head: &[u8], body: usize) -> Result<Vec<u8>, AllocError> {
    let mut text = Vec::from_slice(alloc, head)?;
    let end = text.len().saturating_add(body);
    text.resize(end, 7)?;
    Ok(text)
}

// A link of one dial, which receives these bytes.
fn link_of(alloc: Global, text: Vec<u8>) -> Result<MemLink, AllocError>
    ensures { IfOk result (λ link. IsFresh (mem_state link)) }
{
    let mut texts = Vec::new(alloc);
    texts.push(Bytes::from_vec(text))?;
    let failing = CallList::from_vec(Vec::new(alloc));
    Ok(MemLink::new(alloc, FileTexts::from_vec(texts), failing))
}

// The answer to the fetch over a link that receives these bytes. Where it is one of success, the body is
// there.
fn fetched(alloc: Global, text: Vec<u8>) -> Result<Fetched, Fail> {
    let link = link_of(alloc, text)?;
    let target = target(alloc)?;
    let mut out = vec![in alloc; 0; SIZE]?;
    let answer = match Fetcher::new(alloc, link) {
        Ok(mut fetcher) => fetcher.fetch(&target, 65_536, out.as_mut_slice()),
        Err(_) => return Err(Fail::from("memory")),
    };
    if answer.is_ok() && !out.as_slice().iter().all(|byte| *byte == 7) {
        return Err(Fail::from("another body"));
    }
    Ok(answer)
}

#[test]
fn a_request_has_its_text(rt: HostRuntime) -> Result<(), Fail> {
    let text = ask_bytes(rt.alloc(), &target(rt.alloc())?, 65_536, 131_071)?;
    holds(&rt, text.as_slice() == REQUEST.as_slice(), "the request");
    Ok(())
}

const GOOD: Fetched = Ok(200_000);

const BAD_HEAD: Fetched = Err(FetchFault::BadReply {
    status: 0,
    reason: ReplyReason::BadHead,
});

const NOT_PARTIAL: Fetched = Err(FetchFault::BadReply {
    status: 200,
    reason: ReplyReason::NotPartial,
});

const CHUNKED: Fetched = Err(FetchFault::BadReply {
    status: 206,
    reason: ReplyReason::Chunked,
});

const NO_RANGE: Fetched = Err(FetchFault::BadReply {
    status: 206,
    reason: ReplyReason::NoRange,
});

const OTHER_RANGE: Fetched = Err(FetchFault::BadReply {
    status: 206,
    reason: ReplyReason::OtherRange,
});

const NO_LENGTH: Fetched = Err(FetchFault::BadReply {
    status: 206,
    reason: ReplyReason::NoLength,
});

const OTHER_LENGTH: Fetched = Err(FetchFault::BadReply {
    status: 206,
    reason: ReplyReason::OtherLength,
});

const SHORT_BODY: Fetched = Err(FetchFault::BadReply {
    status: 206,
    reason: ReplyReason::ShortBody,
});

// A head, how many bytes of the body come behind it, and the answer.
const REPLIES: [(&[u8], usize, Fetched); 26] = [
    (HEAD, SIZE, GOOD),
    (
        b"HTTP/1.1 206 P\r\nContent-Range: bytes 65536-131071/200000\r\nContent-Length: 65536\r\n\r\n",
        SIZE,
        GOOD,
    ),
    (
        b"HTTP/1.0 206 P\r\nContent-Range: bytes 65536-131071/200000\r\nContent-Length: 65536\r\n\r\n",
        SIZE,
        GOOD,
    ),
    // Ends of lines with no CR.
    (
        b"HTTP/1.1 206 P\nContent-Range: bytes 65536-131071/200000\nContent-Length: 65536\n\n",
        SIZE,
        GOOD,
    ),
    (
        b"HTTP/1.1 206 P\nContent-Range: bytes 65536-131071/200000\r\nContent-Length: 65536\n\r\n",
        SIZE,
        GOOD,
    ),
    (
        b"HTTP/1.1 206\r\ncontent-LENGTH:65536 \t\r\nCONTENT-range:\tbytes 065536-0131071/200000\r\n\r\n",
        SIZE,
        GOOD,
    ),
    (
        b"\r\nHTTP/1.1 206 P\r\nContent-Range: bytes 65536-131071/200000\r\nContent-Length: 65536\r\n\r\n",
        SIZE,
        GOOD,
    ),
    // More than the body.
    (
        b"HTTP/1.1 206 P\r\nContent-Range: bytes 65536-131071/200000\r\nContent-Length: 65536\r\n\r\n",
        SIZE + 1,
        GOOD,
    ),
    (
        b"HTTP/2.0 206 P\r\nContent-Range: bytes 65536-131071/200000\r\nContent-Length: 65536\r\n\r\n",
        SIZE,
        BAD_HEAD,
    ),
    (
        b"HTTP/1.1 200 P\r\nContent-Range: bytes 65536-131071/200000\r\nContent-Length: 65536\r\n\r\n",
        SIZE,
        NOT_PARTIAL,
    ),
    (
        b"HTTP/1.1 206 P\r\nTransfer-Encoding: chunked\r\n\
          Content-Range: bytes 65536-131071/200000\r\n\r\n",
        SIZE,
        CHUNKED,
    ),
    (
        b"HTTP/1.1 206 P\r\nTransfer-Encoding: chunked\r\n\
          Content-Range: bytes 65536-131071/200000\r\nContent-Length: 65536\r\n\r\n",
        SIZE,
        CHUNKED,
    ),
    // Two fields, none, and one of another form.
    (
        b"HTTP/1.1 206 P\r\nContent-Range: bytes 65536-131071/200000\r\n\
          Content-Range: bytes 65536-131071/200000\r\nContent-Length: 65536\r\n\r\n",
        SIZE,
        NO_RANGE,
    ),
    (
        b"HTTP/1.1 206 P\r\nContent-Range: bytes 65536-131071/200000\r\nContent-Range: x\r\n\r\n",
        SIZE,
        NO_RANGE,
    ),
    (
        b"HTTP/1.1 206 P\r\nContent-Length: 65536\r\n\r\n",
        SIZE,
        NO_RANGE,
    ),
    (
        b"HTTP/1.1 206 P\r\nContent-Range: bytes 65536-131071/*\r\nContent-Length: 65536\r\n\r\n",
        SIZE,
        NO_RANGE,
    ),
    (
        b"HTTP/1.1 206 P\r\nContent-Range: bytes 0-65535/200000\r\nContent-Length: 65536\r\n\r\n",
        SIZE,
        OTHER_RANGE,
    ),
    (
        b"HTTP/1.1 206 P\r\nContent-Range: bytes 65536-131071/131071\r\nContent-Length: 65536\r\n\r\n",
        SIZE,
        OTHER_RANGE,
    ),
    (
        b"HTTP/1.1 206 P\r\nContent-Range: bytes 65536-131071/200000\r\n\r\n",
        SIZE,
        NO_LENGTH,
    ),
    (
        b"HTTP/1.1 206 P\r\nContent-Range: bytes 65536-131071/200000\r\n\
          Content-Length: 65536\r\nContent-Length: 65536\r\n\r\n",
        SIZE,
        NO_LENGTH,
    ),
    (
        b"HTTP/1.1 206 P\r\nContent-Range: bytes 65536-131071/200000\r\nContent-Length: 65537\r\n\r\n",
        SIZE,
        OTHER_LENGTH,
    ),
    (
        b"HTTP/1.1 206 P\r\nContent-Range: bytes 65536-131071/200000\r\nContent-Length: 65535\r\n\r\n",
        SIZE,
        OTHER_LENGTH,
    ),
    // A body that ends early.
    (HEAD, 0, SHORT_BODY),
    (HEAD, 1, SHORT_BODY),
    (HEAD, 100, SHORT_BODY),
    (HEAD, SIZE - 1, SHORT_BODY),
];

#[test]
fn replies_good_and_bad(rt: HostRuntime) -> Result<(), Fail> {
    let alloc = rt.alloc();
    for (number, (head, body, answer)) in REPLIES.iter().enumerate() {
        let found = fetched(alloc, reply_of(alloc, head, *body)?)?;
        holds_at(&rt, found == *answer, "reply", number);
    }
    Ok(())
}

// The bytes from the front, with none behind them.
fn fetched_of_cut(alloc: Global, cut: usize) -> Result<Fetched, Fail> {
    let mut head = Vec::from_slice(alloc, HEAD)?;
    head.truncate(cut);
    fetched(alloc, head)
}

#[test]
fn a_head_that_is_cut_after_each_byte(rt: HostRuntime) -> Result<(), Fail> {
    for cut in 0..HEAD.len() {
        let found = fetched_of_cut(rt.alloc(), cut)?;
        holds_at(&rt, found == BAD_HEAD, "cut after", cut);
    }
    Ok(())
}

// So many fields more, behind the two.
fn fetched_with_fields(alloc: Global, more: usize) -> Result<Fetched, Fail> {
    let mut head = Vec::from_slice(alloc, HEAD)?;
    head.truncate(95);
    for _ in 0..more {
        head.extend_from_slice(b"X-Field: x\r\n")?;
    }
    head.extend_from_slice(b"\r\n")?;
    fetched(alloc, reply_of(alloc, head.as_slice(), SIZE)?)
}

#[test]
fn a_head_has_at_most_64_fields(rt: HostRuntime) -> Result<(), Fail> {
    for (more, answer) in [(0, GOOD), (62, GOOD), (63, BAD_HEAD)] {
        let found = fetched_with_fields(rt.alloc(), more)?;
        holds_at(&rt, found == answer, "fields more", more);
    }
    Ok(())
}

// The answers to two fetches over a link that receives one good reply on each dial.
fn fetched_twice(alloc: Global, log: &Log) -> Result<[Fetched; 2], Fail> {
    let link = NotedLink::new(log, reply_of(alloc, HEAD, SIZE)?);
    let target = target(alloc)?;
    let mut out = vec![in alloc; 0; SIZE]?;
    match Fetcher::new(alloc, link) {
        Ok(mut fetcher) => {
            let first = fetcher.fetch(&target, 65_536, out.as_mut_slice());
            let second = fetcher.fetch(&target, 65_536, out.as_mut_slice());
            Ok([first, second])
        }
        Err(_) => Err(Fail::from("memory")),
    }
}

// The second fetch finds the end of the first dial, and asks once more on another.
#[test]
fn an_idle_dial_is_dialed_again(rt: HostRuntime) -> Result<(), Fail> {
    let log = Log::new(REQUEST);
    let answers = fetched_twice(rt.alloc(), &log)?;
    holds(&rt, answers == [GOOD, GOOD], "both answers");
    holds(&rt, log.noted() == (210, 3, 1), "what was sent");
    Ok(())
}
