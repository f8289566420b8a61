use crate::expecting::{holds, holds_at};
use crate::refusing_ports::{FullPort, WornPort};
use byte_ports::{MemSink, MemSource};
use flat_image::{ImagePort, PlainPort};
use nbd_session::*;
use sector_extent::{Bytes, CallList};
use std::alloc::{AllocError, Global};
use std::process::Abort;
use std::test::Fail;

// The client's word, GO with an empty name, READ of 512 bytes at 0, and DISC.
const ONE_READ: [u8; 82] = [
    0, 0, 0, 3, 0x49, 0x48, 0x41, 0x56, 0x45, 0x4F, 0x50, 0x54, 0, 0, 0, 7, 0, 0, 0, 6, 0, 0, 0, 0,
    0, 0, 0x25, 0x60, 0x95, 0x13, 0, 0, 0, 0, 0, 0, 0, 0, 0, 0, 0, 1, 0, 0, 0, 0, 0, 0, 0, 0, 0, 0,
    2, 0, 0x25, 0x60, 0x95, 0x13, 0, 0, 0, 2, 0, 0, 0, 0, 0, 0, 0, 2, 0, 0, 0, 0, 0, 0, 0, 0, 0, 0,
    0, 0,
];

// What is sent to it, but for the 512 zeros at the end.
const ONE_READ_REPLIES: [u8; 120] = [
    0x4E, 0x42, 0x44, 0x4D, 0x41, 0x47, 0x49, 0x43, 0x49, 0x48, 0x41, 0x56, 0x45, 0x4F, 0x50, 0x54,
    0, 3, 0, 3, 0xE8, 0x89, 4, 0x55, 0x65, 0xA9, 0, 0, 0, 7, 0, 0, 0, 3, 0, 0, 0, 0x0C, 0, 0, 0, 0,
    0, 0, 0, 0, 8, 0, 1, 0x6D, 0, 3, 0xE8, 0x89, 4, 0x55, 0x65, 0xA9, 0, 0, 0, 7, 0, 0, 0, 3, 0, 0,
    0, 0x0E, 0, 3, 0, 0, 2, 0, 0, 0, 0x10, 0, 2, 0, 0, 0, 0, 3, 0xE8, 0x89, 4, 0x55, 0x65, 0xA9, 0,
    0, 0, 7, 0, 0, 0, 1, 0, 0, 0, 0, 0x67, 0x44, 0x66, 0x98, 0, 0, 0, 0, 0, 0, 0, 0, 0, 0, 0, 1,
];

// How many bytes are sent before the first reply to a request.
const GREETED: usize = 104;

fn calls(alloc: Global, failing: &[u64]) -> Result<CallList, AllocError> {
    Ok(CallList::from_vec(Vec::from_slice(alloc, failing)?))
}

// How a connection ended, and what was sent.
#[derive(Drop)]
struct Ran {
    end: Served,
    out: Bytes,
}

// Serves one connection over that port, where these calls of source and sink fail.
fn run_over<P: ImagePort>(
    alloc: Global,
    read_only: bool,
    input: Vec<u8>,
    reads: &[u64],
    writes: &[u64],
    port: &mut P,
) -> Result<Ran, Fail> {
    let mut source = MemSource::new(Bytes::from_vec(input), calls(alloc, reads)?);
    let mut sink = MemSink::new(alloc, calls(alloc, writes)?);
    let Some(name) = NameBytes::from_vec(Vec::from_slice(alloc, b"img")?) else {
        return Err(Fail::new("the name is too long"));
    };
    let export = Export { name, read_only };
    let end = serve_connection(alloc, &export, &mut source, &mut sink, port);
    let out = sink.into_bytes();
    Ok(Ran { end, out })
}

// Serves one connection over four sectors of zeros, where these calls of source, sink and port fail.
fn run(
    alloc: Global,
    read_only: bool,
    input: &[u8],
    reads: &[u64],
    writes: &[u64],
    asked: &[u64],
) -> Result<Ran, Fail> {
    let input = Vec::from_slice(alloc, input)?;
    let mut port = PlainPort::new(alloc, 4, calls(alloc, asked)?)?;
    run_over(alloc, read_only, input, reads, writes, &mut port)
}

// The same over an image that may be written, where nothing fails.
fn served(alloc: Global, input: &[u8]) -> Result<Ran, Fail> {
    run(alloc, false, input, &[], &[], &[])
}

#[test]
fn one_sector_is_read(rt: HostRuntime) -> Result<(), Fail> {
    let mut sent = Vec::from_slice(rt.alloc(), &ONE_READ_REPLIES)?;
    sent.extend_from_slice(&[0; 512])?;
    let ran = served(rt.alloc(), &ONE_READ)?;
    holds(&rt, ran.end == Served::Done, "its end");
    holds(&rt, ran.out.as_slice() == sent.as_slice(), "its replies");
    Ok(())
}

// How a connection ends that is cut there.
fn end_of_cut(alloc: Global, count: usize) -> Result<Option<Served>, Fail> {
    match ONE_READ.get(..count) {
        Some(input) => Ok(Some(served(alloc, input)?.end)),
        None => Ok(None),
    }
}

#[test]
fn one_connection_is_cut_after_each_byte(rt: HostRuntime) -> Result<(), Fail> {
    for count in 0..=ONE_READ.len() {
        let end = match count {
            26 | 54 | 82 => Served::Done,
            _ => Served::Truncated,
        };
        let found = end_of_cut(rt.alloc(), count)?;
        holds_at(&rt, found == Some(end), "cut after", count);
    }
    Ok(())
}

// A request: its flags, its command, its offset and its length.
type Asked = (u8, u8, u16, u32);

fn request(asked: Asked) -> [u8; 28] {
    let (flags, command, offset, length) = asked;
    let [high, low] = offset.to_be_bytes();
    let [a, b, c, d] = length.to_be_bytes();
    [
        0x25, 0x60, 0x95, 0x13, 0, flags, 0, command, 0, 0, 0, 0, 0, 0, 0, 9, 0, 0, 0, 0, 0, 0,
        high, low, a, b, c, d,
    ]
}

// A greeted connection with this request, so many bytes of data, and DISC.
fn with_request(alloc: Global, asked: Asked, data: u16) -> Result<Vec<u8>, AllocError> {
    let mut input = Vec::from_slice(alloc, &ONE_READ[..26])?;
    input.extend_from_slice(&request(asked))?;
    input.resize(54 + usize::from(data), 0)?;
    input.extend_from_slice(&ONE_READ[54..])?;
    Ok(input)
}

// A request, its bytes of data, whether the image may only be read, and the error that is replied.
const ERRORS: [(Asked, u16, bool, u8); 12] = [
    ((0, 0, 0, 256), 0, false, 22),
    ((0, 0, 2048, 512), 0, false, 22),
    ((0, 1, 2048, 512), 512, false, 28),
    ((0, 0, 2048, 0), 0, false, 0),
    ((0, 9, 0, 512), 0, false, 22),
    ((2, 0, 0, 512), 0, false, 22),
    ((0, 1, 0, 512), 512, true, 1),
    ((1, 1, 512, 1024), 1024, false, 0),
    ((3, 6, 512, 1024), 0, false, 0),
    ((0, 4, 0, 4096), 0, false, 22),
    ((0, 3, 7, 7), 0, false, 0),
    ((0, 1, 0, 16_384), 16_384, false, 28),
];

// Whether the one reply is of that error, and nothing stands behind it.
fn is_replied(ran: &Ran, error: u8) -> bool {
    let reply = [
        0x67, 0x44, 0x66, 0x98, 0, 0, 0, error, 0, 0, 0, 0, 0, 0, 0, 9,
    ];
    match ran.out.as_slice().get(GREETED..) {
        Some(replies) => ran.end == Served::Done && replies == reply.as_slice(),
        None => false,
    }
}

#[test]
fn each_request_gets_the_error_of_its_first_check(rt: HostRuntime) -> Result<(), Fail> {
    for (number, (asked, data, read_only, error)) in ERRORS.iter().enumerate() {
        let input = with_request(rt.alloc(), *asked, *data)?;
        let ran = run(rt.alloc(), *read_only, input.as_slice(), &[], &[], &[])?;
        holds_at(&rt, is_replied(&ran, *error), "request", number);
    }
    Ok(())
}

fn option(number: u8, length: u16) -> [u8; 16] {
    let [high, low] = length.to_be_bytes();
    [
        0x49, 0x48, 0x41, 0x56, 0x45, 0x4F, 0x50, 0x54, 0, 0, 0, number, 0, 0, high, low,
    ]
}

// The client's word, with these flags, and then options: their numbers and how many bytes of data they
// say, which are given as zeros, but for the first ones.
fn with_options(
    alloc: Global,
    flags: u8,
    options: &[(u8, u16, &[u8])],
) -> Result<Vec<u8>, AllocError> {
    let mut input = Vec::from_slice(alloc, &[0, 0, 0, flags])?;
    for (number, length, data) in options {
        input.extend_from_slice(&option(*number, *length))?;
        let end = input.len().saturating_add(usize::from(*length));
        input.extend_from_slice(data)?;
        input.resize(end, 0)?;
    }
    Ok(input)
}

const NOTHING: &[u8] = b"";

// Whether a connection ends so, with so many bytes sent.
fn ends(ran: &Ran, end: Served, sent: usize) -> bool {
    ran.end == end && ran.out.as_slice().len() == sent
}

fn is_oversized(alloc: Global) -> Result<bool, Fail> {
    let input = with_request(alloc, (0, 1, 0, 33_554_433), 0)?;
    let ran = served(alloc, &input)?;
    Ok(ends(&ran, Served::Oversized(33_554_433), GREETED))
}

fn has_too_many_options(alloc: Global) -> Result<bool, Fail> {
    let input = with_options(alloc, 3, &[(3, 0, NOTHING); 65])?;
    let ran = served(alloc, &input)?;
    Ok(ends(&ran, Served::TooManyOptions, 18 + 64 * (20 + 4 + 3 + 20)))
}

fn names_another_export(alloc: Global) -> Result<bool, Fail> {
    let input = with_options(alloc, 3, &[(1, 1, b"x")])?;
    let ran = served(alloc, &input)?;
    Ok(ends(&ran, Served::UnknownExport, 18))
}

// The type of the first option reply, if one was sent.
fn has_type(ran: &Ran, kind: [u8; 4]) -> bool {
    match ran.out.as_slice().get(30..34) {
        Some(found) => found == kind.as_slice(),
        None => false,
    }
}

fn aborts_behind_an_unknown_option(alloc: Global) -> Result<bool, Fail> {
    let input = with_options(alloc, 3, &[(8, 0, b""), (2, 0, b"")])?;
    let ran = served(alloc, &input)?;
    Ok(ran.end == Served::Aborted && has_type(&ran, [0x80, 0, 0, 1]))
}

#[test]
fn connections_end_by_words_and_limits(rt: HostRuntime) -> Result<(), Fail> {
    let alloc = rt.alloc();
    holds(&rt, is_oversized(alloc)?, "a write that is too long");
    holds(&rt, has_too_many_options(alloc)?, "65 options");
    holds(&rt, names_another_export(alloc)?, "another export");
    holds(
        &rt,
        aborts_behind_an_unknown_option(alloc)?,
        "an unknown option",
    );
    Ok(())
}

const SENT: [(u64, usize); 3] = [(0, 0), (1, 18), (2, GREETED)];

// Whether a connection whose sink fails at that call ends so, with so many bytes sent.
fn ends_by_sink(alloc: Global, call: u64, sent: usize) -> Result<bool, Fail> {
    let ran = run(alloc, false, &ONE_READ, &[], &[call], &[])?;
    Ok(ends(&ran, Served::SinkFault, sent))
}

fn ends_by_source(alloc: Global, call: u64) -> Result<bool, Fail> {
    let ran = run(alloc, false, &ONE_READ, &[call], &[], &[])?;
    Ok(ran.end == Served::SourceFault)
}

// Whether the first reply to a request is of that error, and the connection was served to its end.
fn is_refused(ran: &Ran, error: u8) -> bool {
    match ran.out.as_slice().get(GREETED + 4..GREETED + 8) {
        Some(found) => ran.end == Served::Done && found == [0, 0, 0, error].as_slice(),
        None => false,
    }
}

#[test]
fn faults_are_told_apart(rt: HostRuntime) -> Result<(), Fail> {
    let alloc = rt.alloc();
    for call in 0..5 {
        holds_at(
            &rt,
            ends_by_source(alloc, call)?,
            "the source",
            call as usize,
        );
    }
    for (call, sent) in SENT {
        holds_at(&rt, ends_by_sink(alloc, call, sent)?, "the sink", sent);
    }
    let ran = run(alloc, false, &ONE_READ, &[], &[], &[0])?;
    holds(&rt, is_refused(&ran, 5), "the port");
    Ok(())
}

// READ, WRITE, TRIM and FLUSH, with their bytes of data.
const REQUESTS: [(Asked, u16); 4] = [
    ((0, 0, 0, 512), 0),
    ((0, 1, 0, 512), 512),
    ((0, 4, 512, 1024), 0),
    ((0, 3, 0, 0), 0),
];

// Whether a port that refuses is answered with these errors.
fn are_refused<P: ImagePort>(alloc: Global, port: &mut P, errors: [u8; 4]) -> Result<bool, Fail> {
    for ((asked, data), error) in REQUESTS.iter().zip(&errors) {
        let input = with_request(alloc, *asked, *data)?;
        let ran = run_over(alloc, false, input, &[], &[], port)?;
        if !is_refused(&ran, *error) {
            return Ok(false);
        }
    }
    Ok(true)
}

#[test]
fn what_the_port_refuses_is_refused(rt: HostRuntime) -> Result<(), Fail> {
    let full = are_refused(rt.alloc(), &mut FullPort, [12, 28, 28, 12])?;
    holds(&rt, full, "a full image");
    let worn = are_refused(rt.alloc(), &mut WornPort, [108; 4])?;
    holds(&rt, worn, "a worn history");
    Ok(())
}

// The client's flags, an option with its length and the front of its data, how the connection ends, how
// many bytes are sent behind the greeting, and the type of the first option reply, if there is one.
type Answered = (u8, u8, u16, &'static [u8], Served, usize, Option<[u8; 4]>);

const OPTIONS: [Answered; 8] = [
    (3, 6, 6, b"", Served::Truncated, 86, Some([0, 0, 0, 3])),
    (
        3,
        6,
        9,
        b"\0\0\0\x03img",
        Served::Truncated,
        86,
        Some([0, 0, 0, 3]),
    ),
    (
        3,
        6,
        7,
        b"\0\0\0\x01x",
        Served::Truncated,
        20,
        Some([0x80, 0, 0, 6]),
    ),
    (
        3,
        6,
        8193,
        b"",
        Served::Truncated,
        20,
        Some([0x80, 0, 0, 9]),
    ),
    (3, 3, 1, b"", Served::Truncated, 20, Some([0x80, 0, 0, 3])),
    (3, 1, 8193, b"", Served::UnknownExport, 0, None),
    (3, 1, 3, b"img", Served::Done, 10, None),
    (1, 1, 3, b"img", Served::Done, 134, None),
];

fn is_answered(alloc: Global, case: &Answered) -> Result<bool, Fail> {
    let (flags, number, length, data, end, sent, kind) = *case;
    let input = with_options(alloc, flags, &[(number, length, data)])?;
    let ran = served(alloc, &input)?;
    let is_right = match kind {
        Some(kind) => has_type(&ran, kind),
        None => true,
    };
    Ok(is_right && sent <= 134 && ends(&ran, end, 18 + sent))
}

#[test]
fn options_are_answered(rt: HostRuntime) -> Result<(), Fail> {
    for (number, case) in OPTIONS.iter().enumerate() {
        holds_at(&rt, is_answered(rt.alloc(), case)?, "option", number);
    }
    Ok(())
}

// So many bytes, which are not zero and differ from sector to sector.
fn pattern(alloc: Global, count: u32) -> Result<Vec<u8>, AllocError> {
    let mut bytes = Vec::with_capacity(alloc, count as usize)?;
    for place in 0..count {
        bytes.push((place % 251) as u8 + 1)?;
    }
    Ok(bytes)
}

// A write of these bytes, and a read of as many.
fn write_and_read(alloc: Global, data: &[u8]) -> Result<Vec<u8>, AllocError> {
    let mut input = Vec::from_slice(alloc, &ONE_READ[..26])?;
    input.extend_from_slice(&request((0, 1, 0, 33_554_432)))?;
    input.extend_from_slice(data)?;
    input.extend_from_slice(&request((0, 0, 0, 33_554_432)))?;
    input.extend_from_slice(&ONE_READ[54..])?;
    Ok(input)
}

#[test]
fn the_longest_write_is_read_back(rt: HostRuntime) -> Result<(), Fail> {
    let alloc = rt.alloc();
    let data = pattern(alloc, 33_554_432)?;
    let input = write_and_read(alloc, &data)?;
    let mut port = PlainPort::new(alloc, 65_536, calls(alloc, &[])?)?;
    // The greeting, the answer to GO and one call for each reply.
    let ran = run_over(alloc, false, input, &[], &[4], &mut port)?;
    let sent = GREETED + 16 + 16 + 33_554_432;
    holds(&rt, ends(&ran, Served::Done, sent), "its end");
    let found = ran.out.as_slice().get(GREETED + 32..);
    holds(&rt, found == Some(data.as_slice()), "its data");
    Ok(())
}
