//! READs of layers that are fetched by ranges, once they are wanted.
use crate::clients::{Ask, requests};
use crate::expecting::holds;
use crate::harbours::{answered, export_one};
use crate::images::{FIRST, image_over, layer_file, no_calls};
use http_range::{MemLink, Target};
use range_shelf::{RangeShelf, TargetList};
use sector_extent::{Bytes, FileTexts};
use std::alloc::{AllocError, Global};
use std::process::Abort;
use std::sync::Wait;
use std::test::Fail;
use std::thread::Threads;

// The reply to a request for these bytes of a file, both included.
fn push_reply(
    alloc: Global,
    text: &mut Vec<u8>,
    file: &[u8],
    first: usize,
    last: usize,
) -> Result<(), AllocError> {
    let (front, _) = file.split_at(file.len().min(last.saturating_add(1)));
    let (_, body) = front.split_at(front.len().min(first));
    let head = format!(in alloc;
        "HTTP/1.1 206 Partial Content\r\nContent-Range: bytes {first}-{last}/{}\r\nContent-Length: {}\r\n\r\n",
        file.len(),
        body.len()
    )?;
    text.extend_from_slice(head.as_bytes())?;
    text.extend_from_slice(body)
}

// The replies to requests for these ranges, one after another.
fn range_replies(
    alloc: Global,
    file: &[u8],
    ranges: &[(usize, usize)],
) -> Result<Vec<u8>, AllocError> {
    let mut text = Vec::new(alloc);
    for (first, last) in ranges {
        push_reply(alloc, &mut text, file, *first, *last)?;
    }
    Ok(text)
}

// A shelf of one file over a link with these dials.
fn fetching(alloc: Global, dials: Vec<Bytes>) -> Result<RangeShelf<MemLink>, Fail> {
    let host = Bytes::from_vec(Vec::from_slice(alloc, b"127.0.0.1:8080")?);
    let path = Bytes::from_vec(Vec::from_slice(alloc, b"/l/0")?);
    let mut targets = Vec::new(alloc);
    match Target::new(host, path) {
        Some(target) => targets.push(target)?,
        None => return Err(Fail::new("a target")),
    }
    let link = MemLink::new(alloc, FileTexts::from_vec(dials), no_calls(alloc));
    match RangeShelf::new(alloc, link, TargetList::from_vec(targets)) {
        Ok(shelf) => Ok(shelf),
        Err(_) => Err(Fail::new("memory")),
    }
}

// The shelf of the control, from which L1 is read as a layer: its length, its header, its trailer and its
// row.
fn control_shelf(alloc: Global, file: &[u8]) -> Result<RangeShelf<MemLink>, Fail> {
    let ranges = [(0, 0), (0, 4095), (8192, 12287), (5120, 5135)];
    let mut dials = Vec::new(alloc);
    dials.push(Bytes::from_vec(range_replies(alloc, file, &ranges)?))?;
    fetching(alloc, dials)
}

// The shelf of the lane: its first dial tells the length and then gives this reply, and the second one gives
// the whole of L1.
fn lane_shelf(alloc: Global, file: &[u8], reply: &[u8]) -> Result<RangeShelf<MemLink>, Fail> {
    let mut refused = range_replies(alloc, file, &[(0, 0)])?;
    refused.extend_from_slice(reply)?;
    let whole = range_replies(alloc, file, &[(0, 12287)])?;
    let mut dials = Vec::new(alloc);
    dials.push(Bytes::from_vec(refused))?;
    dials.push(Bytes::from_vec(whole))?;
    fetching(alloc, dials)
}

const REFUSED: [Ask; 2] = [Ask::Refused(512, 512, 5), Ask::Read(512, 512, 0x61)];

const ANSWERED: [Ask; 2] = [Ask::Read(512, 512, 0x61), Ask::Read(512, 512, 0x61)];

// What comes in place of the whole of L1, and how two READs of its sector 1 are answered: other bytes, another
// status, a body that ends early, and a connection that the server closed before.
type Case = (&'static [u8], [Ask; 2]);

const CASES: [Case; 4] = [
    (
        b"HTTP/1.1 206 Partial Content\r\nContent-Range: bytes 0-4095/12288\r\nContent-Length: 4096\r\n\r\n",
        REFUSED,
    ),
    (
        b"HTTP/1.1 200 OK\r\nContent-Range: bytes 0-12287/12288\r\nContent-Length: 12288\r\n\r\n",
        REFUSED,
    ),
    (
        b"HTTP/1.1 206 Partial Content\r\nContent-Range: bytes 0-12287/12288\r\nContent-Length: 12288\r\n\r\nOBDL",
        REFUSED,
    ),
    (b"", ANSWERED),
];

// Whether a client over this shelf is answered so.
fn is_answered<R: Threads + Wait + Sync>(
    rt: &R,
    alloc: Global,
    file: &[u8],
    reply: &[u8],
    asks: &[Ask],
) -> Result<bool, Fail> {
    let mut connections = Vec::new(alloc);
    connections.push(requests(alloc, asks)?)?;
    let (status, taken) = export_one(
        rt,
        alloc,
        "export",
        image_over(alloc, &[FIRST])?,
        lane_shelf(alloc, file, reply)?,
        control_shelf(alloc, file)?,
        FileTexts::from_vec(connections),
        no_calls(alloc),
    )?;
    Ok(status == 0 && answered(alloc, taken, asks)? == Some(1))
}

fn are_answered<R: Threads + Wait + Sync + Abort>(
    rt: &R,
    alloc: Global,
    file: &[u8],
    cases: &[Case],
) -> Result<(), Fail> {
    for (reply, asks) in cases {
        holds(rt, is_answered(rt, alloc, file, reply, asks)?, "two READs");
    }
    Ok(())
}

// Once the length of L1 is known, a READ of one sector fetches all of it. A reply that is refused makes the
// READ fail, and the next one begins anew.
#[test]
fn a_read_fetches_its_block(rt: HostRuntime) -> Result<(), Fail> {
    let file = layer_file(rt.alloc(), &FIRST)?;
    are_answered(&rt, rt.alloc(), &file, &CASES)
}
