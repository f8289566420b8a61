//! Lines of refusals, and layers from a source and from a shelf.
use crate::expecting::holds;
use byte_ports::{MemSink, MemSource};
use layer_commands::{Line, Refusal, flatten_shelf, flatten_source, push_refusal, read_input};
use layer_shelf::MemShelf;
use layer_stack::StackFault;
use lsmt_header::HeadFault;
use sealed_layer::LayerFault;
use sector_extent::{Bytes, CallList, FileTexts};
use std::alloc::{AllocError, Global};
use std::process::Abort;
use std::test::Fail;

// A refusal, its status and its text.
type Told = (Refusal, u8, &'static str);

const TOLD: [Told; 12] = [
    (Refusal::Usage, 2, "usage"),
    (Refusal::SourceFault, 4, "source fault"),
    (Refusal::DiskFault, 4, "disk fault"),
    (Refusal::Memory, 5, "memory"),
    (Refusal::OutOfRange, 6, "out of range"),
    (
        Refusal::Layer(7, LayerFault::Head(HeadFault::BadSize(u64::MAX))),
        3,
        "layer 7: bad size 18446744073709551615",
    ),
    (
        Refusal::Layer(0, LayerFault::RowOrder(12)),
        3,
        "layer 0: row 12 order",
    ),
    (
        Refusal::Stack(StackFault::TooMany(256)),
        3,
        "stack too many 256",
    ),
    (
        Refusal::Stack(StackFault::UuidTwice(0, 2)),
        3,
        "uuid twice 0 2",
    ),
    (
        Refusal::Full {
            rows: 4194304,
            sectors: 5,
        },
        6,
        "full 4194304 5",
    ),
    (
        Refusal::Busy([0x2A; 16]),
        6,
        "busy 2a2a2a2a-2a2a-2a2a-2a2a-2a2a2a2a2a2a",
    ),
    (Refusal::NotLarger(6), 6, "not larger 6"),
];

fn is_told(refusal: Refusal, code: u8, text: &str) -> bool {
    let mut line = Line::new();
    push_refusal(&mut line, refusal);
    line.as_str() == text && refusal.code() == code
}

fn are_told(rt: &impl Abort, cases: &[Told]) {
    for (refusal, code, text) in cases {
        holds(rt, is_told(*refusal, *code, text), text);
    }
}

#[test]
fn refusals_have_their_lines(rt: HostRuntime) {
    are_told(&rt, &TOLD);
}

fn no_calls(alloc: Global) -> CallList {
    CallList::from_vec(Vec::new(alloc))
}

fn source_of(alloc: Global, bytes: Vec<u8>) -> MemSource {
    MemSource::new(Bytes::from_vec(bytes), no_calls(alloc))
}

// How many bytes are read of so many, where there may be so many at most.
fn read_of(alloc: Global, size: u32, most: u32) -> Result<Result<usize, Refusal>, AllocError> {
    let mut source = source_of(alloc, vec![in alloc; 0x61; size as usize]?);
    Ok(match read_input(alloc, &mut source, most as usize) {
        Ok(bytes) => Ok(bytes.len()),
        Err(refusal) => Err(refusal),
    })
}

const SIZES: [(u32, u32, Result<usize, Refusal>); 4] = [
    (0, 0, Ok(0)),
    (5, 5, Ok(5)),
    (6, 5, Err(Refusal::TooLong)),
    (300000, 300000, Ok(300000)),
];

#[test]
fn a_source_is_read_to_its_end(rt: HostRuntime) -> Result<(), Fail> {
    for (size, most, answer) in SIZES {
        holds(&rt, read_of(rt.alloc(), size, most)? == answer, "a source");
    }
    Ok(())
}

// Version 1 with these flags, the index at 158,720, 3 rows, 1,000 sectors, no parent.
fn push_block(file: &mut Vec<u8>, flags: u8) -> Result<(), AllocError> {
    let end = file.len().saturating_add(4096);
    file.extend_from_slice(b"OBDLAYR1")?;
    file.extend_from_slice(&[1, 0, 0, 0, flags, 0, 0, 0])?;
    file.extend_from_slice(&158_720_u64.to_le_bytes())?;
    file.extend_from_slice(&3_u64.to_le_bytes())?;
    file.extend_from_slice(&1_000_u64.to_le_bytes())?;
    file.extend_from_slice(&[0x11; 16])?;
    file.resize(end, 0)
}

// The rows (10, 300, place 8), (400, 5, zeroed) and (410, 2, place 308).
const ROWS: [u8; 48] = [
    10, 0, 0, 0, 0, 0, 0xB0, 4, 8, 0, 0, 0, 0, 0, 0, 0, 0x90, 1, 0, 0, 0, 0, 0x14, 0, 8, 0, 0, 0,
    0, 0, 0x80, 0, 0x9A, 1, 0, 0, 0, 0, 8, 0, 0x34, 1, 0, 0, 0, 0, 0, 0,
];

// A layer of 1,000 sectors with a long run, zeros and a short run. Its data are 302 sectors.
fn layer_of_runs(alloc: Global) -> Result<Vec<u8>, AllocError> {
    let mut file = Vec::new(alloc);
    push_block(&mut file, 7)?;
    for sector in 0..302_u32 {
        file.extend_from_slice(&[(sector % 251) as u8 + 1; 512])?;
    }
    file.extend_from_slice(&ROWS)?;
    file.resize(159_744, 0)?;
    push_block(&mut file, 6)?;
    Ok(file)
}

fn flattened_from_source(alloc: Global, file: Vec<u8>) -> Result<Bytes, Fail> {
    let mut source = source_of(alloc, file);
    let mut out = MemSink::new(alloc, no_calls(alloc));
    flatten_source(alloc, &mut source, &mut out)?;
    Ok(out.into_bytes())
}

fn flattened_from_shelf(alloc: Global, file: Vec<u8>) -> Result<Bytes, Fail> {
    let mut files = Vec::new(alloc);
    files.push(Bytes::from_vec(file))?;
    let mut shelf = MemShelf::new(FileTexts::from_vec(files), no_calls(alloc));
    let mut out = MemSink::new(alloc, no_calls(alloc));
    flatten_shelf(alloc, &mut shelf, &mut out)?;
    Ok(out.into_bytes())
}

// What is written of a layer in memory is what is painted of one on a shelf.
#[test]
fn a_layer_is_flattened_in_two_ways(rt: HostRuntime) -> Result<(), Fail> {
    let alloc = rt.alloc();
    let written = flattened_from_source(alloc, layer_of_runs(alloc)?)?;
    let painted = flattened_from_shelf(alloc, layer_of_runs(alloc)?)?;
    holds(&rt, written.as_slice().len() == 512_000, "1,000 sectors");
    holds(&rt, written.as_slice() == painted.as_slice(), "the same");
    Ok(())
}
