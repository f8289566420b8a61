ghost use Rattle.lsmt_header.specs.Blocks.{IsSealed};

use crate::expecting::{holds, holds_at};
use block_disk::{FileList, MemDisk};
use lsmt_header::{Head, HeadFault, Kind, Tag, encode_block};
use sector_extent::Bytes;
use seg_mapping::{Row, RowFault, encode};
use seg_table::{Segment, What};
use std::alloc::Global;
use std::process::Abort;
use std::test::Fail;
use top_writer::{Top, TopFault, TopReason};

// A change of a file: one byte, or all that stands from a place on is cut off.
#[derive(Clone, Copy)]
enum Change {
    Byte(usize, u8),
    Cut(usize),
}

const PARENT: [u8; 16] = [0x22; 16];

// The block at the front of a file of an image of four sectors.
fn front(kind: Kind, parent: [u8; 16]) -> [u8; 4096]
    requires { IsSealed kind → ⊥ }
{
    encode_block(&Head {
        version: 1,
        kind,
        index_at: 0,
        rows: 0,
        sectors: 4,
        uuid: [0; 16],
        parent,
        tag: Tag::empty(),
    })
}

// The head of an image of four sectors, and two sectors.
fn data_file(alloc: Global) -> Result<Vec<u8>, Fail> {
    let mut bytes = front(Kind::TopBytes, PARENT).to_vec(alloc)?;
    bytes.resize(5_120, 0x61)?;
    Ok(bytes)
}

// The head, two rows of which the later one hides a part of the first, and sixteen bytes that are no
// row.
fn index_file(alloc: Global) -> Result<Vec<u8>, Fail> {
    let mut bytes = front(Kind::TopRows, [0; 16]).to_vec(alloc)?;
    bytes.extend_from_slice(&encode(&Row {
        offset: 0,
        count: 2,
        place: 8,
        zeroed: false,
        tag: 0,
    }))?;
    bytes.extend_from_slice(&encode(&Row {
        offset: 1,
        count: 1,
        place: 0,
        zeroed: true,
        tag: 0,
    }))?;
    bytes.resize(4_144, 0)?;
    Ok(bytes)
}

// The first slot is open. It has sequence 1, two rows and two sectors.
fn mark_file(alloc: Global) -> Result<Vec<u8>, Fail> {
    let mut bytes = vec![in alloc; 0; 1_024]?;
    for (at, byte) in [(0, 0xA5), (8, 1), (16, 2), (24, 2)] {
        apply(&mut bytes, Change::Byte(at, byte));
    }
    Ok(bytes)
}

fn apply(bytes: &mut Vec<u8>, change: Change) {
    match change {
        Change::Byte(at, byte) => {
            if at < bytes.len() {
                bytes[at] = byte;
            }
        }
        Change::Cut(len) => bytes.truncate(len),
    }
}

// The three files of a top of epoch 0, of an image of four sectors, where the file of that number was
// changed.
fn files_of(alloc: Global, number: u32, change: Change) -> Result<FileList, Fail> {
    let mut list = Vec::new(alloc);
    list.push((1, data_file(alloc)?))?;
    list.push((2, index_file(alloc)?))?;
    list.push((3, mark_file(alloc)?))?;
    let mut files = Vec::new(alloc);
    for (file, mut bytes) in list {
        if file == number {
            apply(&mut bytes, change);
        }
        files.push((file, Bytes::from_vec(bytes)))?;
    }
    Ok(FileList::from_vec(files))
}

// The top of these files, of an image of four sectors, or no fewer where that is not exact.
fn load(
    alloc: Global,
    number: u32,
    change: Change,
    exact: bool,
) -> Result<Result<Top, TopFault>, Fail> {
    let mut disk = MemDisk::of(alloc, files_of(alloc, number, change)?)?;
    Ok(Top::load(alloc, &mut disk, 0, 4, exact, Some(PARENT)))
}

// A file, its change, and why the top is refused.
type Case = (u32, Change, TopReason);

const REASONS: [Case; 17] = [
    (1, Change::Cut(4_095), TopReason::HeadShort),
    (2, Change::Cut(4_095), TopReason::HeadShort),
    (1, Change::Byte(0, 0), TopReason::Bytes(HeadFault::BadMagic)),
    (
        2,
        Change::Byte(12, 5),
        TopReason::Rows(HeadFault::BadFlags(5)),
    ),
    (1, Change::Byte(32, 5), TopReason::HeadSize(5)),
    (2, Change::Byte(32, 6), TopReason::HeadSize(6)),
    (1, Change::Byte(56, 0x23), TopReason::ParentDiffers),
    (3, Change::Byte(0, 0), TopReason::NoMark),
    (
        3,
        Change::Byte(15, 0x40),
        TopReason::MarkWorn(0x4000_0000_0000_0001),
    ),
    (
        3,
        Change::Byte(18, 0x41),
        TopReason::MarkBad {
            rows: 0x41_0002,
            sectors: 2,
        },
    ),
    (
        3,
        Change::Byte(27, 0x41),
        TopReason::MarkBad {
            rows: 2,
            sectors: 0x4100_0002,
        },
    ),
    (2, Change::Cut(4_127), TopReason::ShortRows),
    (1, Change::Cut(5_119), TopReason::ShortBytes),
    (
        2,
        Change::Byte(4_118, 0),
        TopReason::Row {
            number: 1,
            fault: RowFault::EmptyRow,
        },
    ),
    (2, Change::Byte(4_112, 4), TopReason::RowRange(1)),
    (2, Change::Byte(4_104, 7), TopReason::RowPlace(0)),
    (2, Change::Byte(4_104, 9), TopReason::RowPlace(0)),
];

fn is_refused(found: &Result<Top, TopFault>, reason: TopReason) -> bool {
    match found {
        Ok(_) => false,
        Err(fault) => *fault == TopFault::NoTop(reason),
    }
}

#[test]
fn each_reason_once(rt: HostRuntime) -> Result<(), Fail> {
    for (number, (file, change, reason)) in REASONS.iter().enumerate() {
        let found = load(rt.alloc(), *file, *change, true)?;
        holds_at(&rt, is_refused(&found, *reason), "reason", number);
    }
    Ok(())
}

// A file whose head says so many sectors, whether these are compared exactly, or as no more than those of
// the image, and whether it is loaded.
const SIZES: [(u32, u8, bool, bool); 6] = [
    (1, 3, true, false),
    (2, 3, true, false),
    (1, 3, false, true),
    (2, 3, false, true),
    (1, 5, false, false),
    (2, 5, false, false),
];

#[test]
fn heads_of_other_sizes(rt: HostRuntime) -> Result<(), Fail> {
    for (number, (file, sectors, exact, is_loaded)) in SIZES.iter().enumerate() {
        let found = load(rt.alloc(), *file, Change::Byte(32, *sectors), *exact)?;
        let refused = is_refused(&found, TopReason::HeadSize(u64::from(*sectors)));
        let is_right = found.is_ok() == *is_loaded && refused != *is_loaded;
        holds_at(&rt, is_right, "size", number);
    }
    Ok(())
}

// Whether the first sector is stored, and the second one zeros.
fn has_both(top: &Top) -> bool {
    let first = top.table().walk(0);
    let second = top.table().walk(1);
    match (first, second) {
        (Some(first), Some(second)) => {
            is_segment(&first, 0, What::Place(8)) && is_segment(&second, 1, What::Zero)
        }
        _ => false,
    }
}

fn is_segment(segment: &Segment, at: u64, what: What) -> bool {
    segment.extent.at == at && segment.extent.count == 1 && segment.what == what
}

#[test]
fn a_later_row_hides(rt: HostRuntime) -> Result<(), Fail> {
    match load(rt.alloc(), 3, Change::Cut(1_024), true)? {
        Ok(top) => {
            holds(&rt, top.used() == (2, 2), "what is used");
            holds(&rt, has_both(&top), "both sectors");
            Ok(())
        }
        Err(_) => Err(Fail::from("the files were not loaded")),
    }
}
