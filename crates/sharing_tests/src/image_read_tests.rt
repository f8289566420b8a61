//! Connections and callers over seats of one image.
ghost use Rattle.std.specs.Prelude.{◌≡◌, ◌+◌, ◌*◌, ◌^◌, ◌<◌, ◌≤◌, [], length, All, IfSome};
ghost use Rattle.flat_image.specs.History.{History};
ghost use Rattle.shared_image.specs.Turns.{IsIdleSeat, IsSameSeat};
ghost use Rattle.nbd_session.specs.Sessions.{ends};
ghost use Rattle.image_read.specs.Headline.{Headline};

use crate::images::{holds, no_files, started};
use block_disk::{Disk, MemDisk};
use byte_ports::{MemSink, MemSource, Sink, Source};
use flat_image::ImagePort;
use image_core::CopyState;
use image_read::{Reader, headline_law};
use layer_shelf::{MemShelf, Shelf};
use nbd_session::{Export, NameBytes, Served, serve_connection};
use sector_extent::{Bytes, CallList, Extent};
use shared_image::{ImageSeat, SharedImage};
use std::alloc::{AllocError, Global};
use std::sync::Wait;
use std::test::Fail;
use std::thread;
use std::thread::Threads;

// A reader of an image without layers, with a seat that has seen nothing.
fn reader_of<'a, D: Disk, R: Wait>(
    rt: &'a R,
    alloc: Global,
    shared: &'a SharedImage<D>,
    seat: ImageSeat<D>,
) -> Reader<'a, D, MemShelf, R>
    requires seat { IsIdleSeat shared.now seat }
    requires lowers { shared.now.base.lowers ≡ [] }
    requires first { shared.now.first + length seat.seen ≤ 2 ^ 62 }
{
    Reader::new(rt, alloc, shared, seat, no_files(alloc))
}

// Serves one connection, whatever the port: with that, the headline is said of it.
fn serve<'a, A: Source, B: Sink, D: Disk, S: Shelf, R: Wait>(
    alloc: Global,
    export: &Export,
    source: &mut A,
    sink: &mut B,
    reader: &mut Reader<'a, D, S, R>,
) -> Served
    ensures { (history : History) → Headline export.now
        (ends (A.left source.old) (A.faults source.old) (B.written sink.old) (B.faults sink.old)
        (⟦<Reader<'a, D, S, R> as ImagePort>⟧.state reader.old))
        (ends (A.left source.new) (A.faults source.new) (B.written sink.new) (B.faults sink.new)
        (⟦<Reader<'a, D, S, R> as ImagePort>⟧.state reader.new)) result history }
{
    let end = serve_connection(alloc, export, source, sink, reader);
    headline_law();
    end
}

// The bytes with which a client chooses the export, and those with which it goes.
const HELLO: [u8; 26] = [
    0, 0, 0, 3, 0x49, 0x48, 0x41, 0x56, 0x45, 0x4F, 0x50, 0x54, 0, 0, 0, 7, 0, 0, 0, 6, 0, 0, 0, 0,
    0, 0,
];

const BYE: [u8; 28] = [
    0x25, 0x60, 0x95, 0x13, 0, 0, 0, 2, 0, 0, 0, 0, 0, 0, 0, 2, 0, 0, 0, 0, 0, 0, 0, 0, 0, 0, 0, 0,
];

// How many bytes are sent before the first reply to a request.
const GREETED: usize = 104;

// A request without data at the first sector.
fn request(command: u8, length: u32) -> [u8; 28] {
    let [a, b, c, d] = length.to_be_bytes();
    [
        0x25, 0x60, 0x95, 0x13, 0, 0, 0, command, 0, 0, 0, 0, 0, 0, 0, 9, 0, 0, 0, 0, 0, 0, 0, 0,
        a, b, c, d,
    ]
}

// The error of the reply that begins at that byte.
fn error_at(sent: &[u8], at: usize) -> Option<u8> {
    match sent.get(at..) {
        Some([0x67, 0x44, 0x66, 0x98, 0, 0, 0, error, ..]) => Some(*error),
        _ => None,
    }
}

// The bytes that are sent to a client with these requests.
fn sent_to<'a, D: Disk, S: Shelf, R: Wait>(
    alloc: Global,
    requests: Vec<u8>,
    reader: &mut Reader<'a, D, S, R>,
) -> Result<Bytes, Fail> {
    let calls = CallList::from_vec(Vec::new(alloc));
    let mut source = MemSource::new(Bytes::from_vec(requests), calls);
    let mut sink = MemSink::new(alloc, CallList::from_vec(Vec::new(alloc)));
    let Some(name) = NameBytes::from_vec(Vec::from_slice(alloc, b"img")?) else {
        return Err(Fail::new("the name is too long"));
    };
    let export = Export {
        name,
        read_only: false,
    };
    if serve(alloc, &export, &mut source, &mut sink, reader) != Served::Done {
        return Err(Fail::new("it ended otherwise"));
    }
    Ok(sink.into_bytes())
}

// The errors of two flushes over a seat.
fn two_flushes<D: Disk, R: Wait>(
    rt: &R,
    alloc: Global,
    shared: &SharedImage<D>,
    seat: ImageSeat<D>,
) -> Result<[Option<u8>; 2], Fail>
    requires seat { IsIdleSeat shared.now seat }
    requires lowers { shared.now.base.lowers ≡ [] }
    requires first { shared.now.first + length seat.seen ≤ 2 ^ 62 }
{
    let mut reader = reader_of(rt, alloc, shared, seat);
    let mut requests = Vec::from_slice(alloc, &HELLO)?;
    requests.extend_from_slice(&request(3, 0))?;
    requests.extend_from_slice(&request(3, 0))?;
    requests.extend_from_slice(&BYE)?;
    let sent = sent_to(alloc, requests, &mut reader)?;
    let sent = sent.as_slice();
    Ok([error_at(sent, GREETED), error_at(sent, GREETED + 16)])
}

#[test]
fn a_worn_image_shuts_down(rt: HostRuntime) -> Result<(), Fail> {
    let alloc = rt.alloc();
    let first = 4_611_686_018_427_387_903;
    let (shared, list) = started(alloc, MemDisk::new(alloc), 4, 1, first)?;
    let Some(seat) = list.into_vec().pop() else {
        return Err("a seat")?;
    };
    let errors = two_flushes(&rt, alloc, &shared, seat)?;
    holds(&rt, errors == [Some(0), Some(108)], "the second flush");
    Ok(())
}

// The last of four sectors, by any port.
fn last_sector<P: ImagePort>(port: &mut P) -> Result<[u8; 512], Fail> {
    if port.sectors() != 4 {
        return Err(Fail::new("it has other sectors"));
    }
    let mut out = [0; 512];
    port.read(3, &mut out)?;
    Ok(out)
}

// A sector that one seat wrote, as a reader with another reads it that met it.
fn read_behind<D: Disk, R: Wait>(
    rt: &R,
    alloc: Global,
    shared: &SharedImage<D>,
    mut from: ImageSeat<D>,
    mut to: ImageSeat<D>,
) -> Result<[u8; 512], Fail>
    requires sectors { shared.now.base.sectors ≡ 4 }
    requires lowers { shared.now.base.lowers ≡ [] }
    requires from { IsIdleSeat shared.now from }
    requires to { IsIdleSeat shared.now to }
{
    shared.write(rt, &mut from, Extent { at: 3, count: 1 }, &[0x61; 512])?;
    shared.meet(&mut from, &mut to)?;
    let mut reader = reader_of(rt, alloc, shared, to);
    last_sector(&mut reader)
}

#[test]
fn a_reader_sees_what_its_seat_met(rt: HostRuntime) -> Result<(), Fail> {
    let alloc = rt.alloc();
    let (shared, list) = started(alloc, MemDisk::new(alloc), 4, 2, 7)?;
    let mut list = list.into_vec();
    let Some(to) = list.pop() else {
        return Err("a seat")?;
    };
    let Some(from) = list.pop() else {
        return Err("a seat")?;
    };
    let sector = read_behind(&rt, alloc, &shared, from, to)?;
    holds(&rt, sector == [0x61; 512], "the sector");
    Ok(())
}

// Trims of an image of 131,072 sectors, which use all rows of its top but four, then a write of half of
// it, and a read.
fn filling_requests(alloc: Global) -> Result<Vec<u8>, AllocError> {
    let mut requests = Vec::from_slice(alloc, &HELLO)?;
    for _ in 0..466_033 {
        requests.extend_from_slice(&request(4, 67_108_864))?;
    }
    for _ in 0..3 {
        requests.extend_from_slice(&request(4, 512))?;
    }
    requests.extend_from_slice(&request(1, 33_554_432))?;
    requests.resize(requests.len().saturating_add(33_554_432), 0x61)?;
    requests.extend_from_slice(&request(0, 512))?;
    requests.extend_from_slice(&BYE)?;
    Ok(requests)
}

// The first of these replies that has an error, and its number.
fn first_error(replies: &[u8]) -> Option<(usize, u8)> {
    for (number, reply) in replies.chunks(16).enumerate() {
        match error_at(reply, 0) {
            Some(0) => {}
            Some(error) => return Some((number, error)),
            None => return None,
        }
    }
    None
}

// The replies to these requests.
fn filled<D: Disk, R: Wait>(
    rt: &R,
    alloc: Global,
    shared: &SharedImage<D>,
    seat: ImageSeat<D>,
) -> Result<Bytes, Fail>
    requires seat { IsIdleSeat shared.now seat }
    requires lowers { shared.now.base.lowers ≡ [] }
    requires first { shared.now.first + length seat.seen ≤ 2 ^ 62 }
{
    let mut reader = reader_of(rt, alloc, shared, seat);
    sent_to(alloc, filling_requests(alloc)?, &mut reader)
}

// Whether the last of these replies is to a read of a sector, which is of zeros.
fn ends_with_zeros(replies: &[u8]) -> bool {
    let read = replies.get(16 * 466_037..).unwrap_or(&[]);
    read.len() == 528 && error_at(read, 0) == Some(0) && read.iter().skip(16).all(|byte| *byte == 0)
}

#[test]
fn a_full_top_is_told(rt: HostRuntime) -> Result<(), Fail> {
    let alloc = rt.alloc();
    let (shared, list) = started(alloc, MemDisk::new(alloc), 131_072, 1, 0)?;
    let Some(seat) = list.into_vec().pop() else {
        return Err("a seat")?;
    };
    let sent = filled(&rt, alloc, &shared, seat)?;
    let replies = sent.as_slice().get(GREETED..).unwrap_or(&[]);
    holds(
        &rt,
        first_error(replies) == Some((466_036, 28)),
        "the first error",
    );
    holds(&rt, ends_with_zeros(replies), "zeros");
    Ok(())
}

// One of several callers: it has a seat, and writes and commits, or a reader, and reads what is written.
#[derive(Drop)]
struct Worker<'a, D: Disk, R> {
    writer: Option<ImageSeat<D>>,
    reader: Option<Reader<'a, D, MemShelf, R>>,
    done: bool,
}

// The byte of which four sectors are that were written at once; none where a read fails, or reads a
// write in part.
fn one_byte<P: ImagePort>(port: &mut P) -> Option<u8> {
    let mut out = [0; 2048];
    if port.sectors() != 4 || port.read(0, &mut out).is_err() {
        return None;
    }
    let first = out[0];
    if out.iter().any(|byte| *byte != first) {
        return None;
    }
    Some(first)
}

// Reads so often, and finds no byte that is lower than the one before it.
fn read_on<P: ImagePort>(port: &mut P, times: u32) -> bool {
    let mut last = 0;
    for _ in 0..times {
        match one_byte(port) {
            Some(byte) if byte >= last => last = byte,
            _ => return false,
        }
    }
    true
}

// Writes a byte into four sectors, and commits that under a uuid with that byte, as a file of one piece.
fn write_and_commit<D: Disk, R: Wait>(
    rt: &R,
    alloc: Global,
    shared: &SharedImage<D>,
    seat: &mut ImageSeat<D>,
    byte: u8,
) -> bool
    requires sectors { shared.now.base.sectors ≡ 4 }
    requires seat { IsIdleSeat shared.now seat.old }
    ensures same { IsSameSeat seat.old seat.new }
{
    let all = Extent { at: 0, count: 4 };
    let uuid = [1, byte, 0, 0, 0, 0, 0, 0, 0, 0, 0, 0, 0, 0, 0, 0];
    shared.write(rt, seat, all, &[byte; 2048]).is_ok()
        && shared.freeze(rt, alloc, seat, uuid).is_ok()
        && shared.copy(rt, seat, uuid) == Ok(CopyState::Whole)
        && shared.seal(rt, seat, uuid).is_ok()
}

// Writes the bytes 1 to 100, one after another, with a commit behind each.
fn write_on<D: Disk, R: Wait>(
    rt: &R,
    alloc: Global,
    shared: &SharedImage<D>,
    seat: &mut ImageSeat<D>,
) -> bool
    requires sectors { shared.now.base.sectors ≡ 4 }
    requires seat { IsIdleSeat shared.now seat.old }
    ensures same { IsSameSeat seat.old seat.new }
{
    for byte in 1..101u8 {
        if !write_and_commit(rt, alloc, shared, seat, byte) {
            return false;
        }
    }
    true
}

fn work<'a, D: Disk, R: Wait>(
    rt: &R,
    alloc: Global,
    shared: &SharedImage<D>,
    worker: &mut Worker<'a, D, R>,
)
    requires sectors { shared.now.base.sectors ≡ 4 }
    requires seat { IfSome worker.old.writer (IsIdleSeat shared.now) }
{
    if let Some(seat) = &mut worker.writer {
        worker.done = write_on(rt, alloc, shared, seat);
    }
    if let Some(reader) = &mut worker.reader {
        worker.done = read_on(reader, 10_000);
    }
}

// All at once, each in a thread of its own.
fn work_at_once<'a, D: Disk + Send, R: Threads + Wait + Sync>(
    rt: &R,
    alloc: Global,
    shared: &SharedImage<D>,
    workers: &mut [Worker<'a, D, R>],
)
    requires sectors { shared.now.base.sectors ≡ 4 }
    requires seats { All (λ worker. IfSome worker.writer (IsIdleSeat shared.now)) workers.old }
{
    thread::for_each_mut(
        rt,
        workers,
        3,
        &|_, worker: &mut Worker<D, R>|
            requires sectors { shared.now.base.sectors ≡ 4 }
            requires seat { IfSome worker.old.writer (IsIdleSeat shared.now) }
        { work(rt, alloc, shared, worker) },
    );
}

// A caller that writes and two that read, and whether each is done.
fn worked<D: Disk + Send + Drop, R: Threads + Wait + Sync>(
    rt: &R,
    alloc: Global,
    shared: &SharedImage<D>,
    first: ImageSeat<D>,
    second: ImageSeat<D>,
    third: ImageSeat<D>,
) -> Result<bool, Fail>
    requires sectors { shared.now.base.sectors ≡ 4 }
    requires lowers { shared.now.base.lowers ≡ [] }
    requires first { IsIdleSeat shared.now first }
    requires second { IsIdleSeat shared.now second × (shared.now.first + length second.seen ≤ 2 ^ 62) }
    requires third { IsIdleSeat shared.now third × (shared.now.first + length third.seen ≤ 2 ^ 62) }
{
    let mut workers = Vec::new(alloc);
    workers.push(Worker {
        writer: Some(first),
        reader: None,
        done: false,
    })?;
    workers.push(Worker {
        writer: None,
        reader: Some(reader_of(rt, alloc, shared, second)),
        done: false,
    })?;
    workers.push(Worker {
        writer: None,
        reader: Some(reader_of(rt, alloc, shared, third)),
        done: false,
    })?;
    work_at_once(rt, alloc, shared, workers.as_mut_slice());
    Ok(workers.as_slice().iter().all(|worker| worker.done))
}

#[test]
fn no_write_is_read_in_part(rt: HostRuntime) -> Result<(), Fail> {
    let alloc = rt.alloc();
    let (shared, list) = started(alloc, MemDisk::new(alloc), 4, 3, 0)?;
    let mut list = list.into_vec();
    let (Some(third), Some(second), Some(first)) = (list.pop(), list.pop(), list.pop()) else {
        return Err("seats")?;
    };
    let all = worked(&rt, alloc, &shared, first, second, third)?;
    holds(&rt, all, "no write in part");
    Ok(())
}
