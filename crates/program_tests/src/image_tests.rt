//! Runs of the commands on an image.
use crate::layers::{FIRST, Layer, files_of};
use crate::runs::{Failing, Said, answers, holds, run, sectors};
use block_disk::{Disk, FolderDisk, MemDisk, PathText};
use sector_extent::CallList;
use std::alloc::{AllocError, Global};
use std::fs;
use std::process::Abort;
use std::test::Fail;

// A command, the sectors of its source, the status, and what is said.
type Step = (&'static str, &'static [u8], u8, Said);

// The disk after one step.
fn take_step<D: Disk + Drop>(
    rt: &impl Abort,
    alloc: Global,
    disk: D,
    layers: &[Layer],
    step: Step,
) -> Result<D, Fail> {
    let (line, input, code, said) = step;
    let input = sectors(alloc, input)?;
    let files = files_of(alloc, layers)?;
    let ran = run(alloc, disk, line, input, files, Failing::Nobody)?;
    holds(rt, answers(alloc, &ran, code, said)?, line);
    Ok(ran.disk)
}

// The disk after these steps, one after another.
fn take_steps<D: Disk + Drop>(
    rt: &impl Abort,
    alloc: Global,
    disk: D,
    layers: &[Layer],
    steps: &[Step],
) -> Result<D, Fail> {
    let mut disk = disk;
    for step in steps {
        disk = take_step(rt, alloc, disk, layers, *step)?;
    }
    Ok(disk)
}

const LIFE: [Step; 13] = [
    ("read 0 1", &[], 3, Said::Text("refused: no image\n")),
    ("create", &[], 6, Said::Text("refused: no size\n")),
    (
        "create --sectors 8",
        &[],
        0,
        Said::Text("created sectors 8 layers 0\n"),
    ),
    (
        "create --sectors 8",
        &[],
        6,
        Said::Text("refused: image exists\n"),
    ),
    ("read 0 9", &[], 6, Said::Text("refused: out of range\n")),
    (
        "write 7",
        &[0x41, 0x41],
        6,
        Said::Text("refused: out of range\n"),
    ),
    ("write 3", &[0x41, 0x41], 0, Said::Text("wrote 3 2\n")),
    ("zero 4 1", &[], 0, Said::Text("zeroed 4 1\n")),
    ("read 3 1", &[], 0, Said::Sectors(&[0x41])),
    ("grow 16", &[], 0, Said::Text("grown 16\n")),
    ("write 14", &[0x41, 0x41], 0, Said::Text("wrote 14 2\n")),
    ("read 15 1", &[], 0, Said::Sectors(&[0x41])),
    ("grow 16", &[], 6, Said::Text("refused: not larger 16\n")),
];

#[test]
fn an_image_is_made_once_and_grows(rt: HostRuntime) -> Result<(), Fail> {
    let alloc = rt.alloc();
    let _disk = take_steps(&rt, alloc, MemDisk::new(alloc), &[], &LIFE)?;
    Ok(())
}

const DRAWN: [Step; 3] = [
    (
        "make 1 2",
        &[],
        0,
        Said::Text(
            "made acts 2 writes 2 zeros 0 flushes 0 commits 0 refused 0\n\
             image sectors 4096 filled 9 sum 160256\n",
        ),
    ),
    ("make 1 2", &[], 6, Said::Text("refused: image exists\n")),
    ("read 1662 1", &[], 0, Said::Sectors(&[169])),
];

// The lines of many acts, as a flat list of sectors gives them. Of the last, 255 commits are made, and the others
// are refused.
const DRAWN_LONG: [Step; 1] = [(
    "make 7 4000",
    &[],
    0,
    Said::Text(
        "made acts 4000 writes 2999 zeros 502 flushes 250 commits 249 refused 0\n\
             image sectors 4096 filled 3452 sum 225305600\n",
    ),
)];

const DRAWN_FULL: [Step; 1] = [(
    "make 7 5000",
    &[],
    0,
    Said::Text(
        "made acts 5000 writes 3747 zeros 614 flushes 323 commits 255 refused 61\n\
             image sectors 4096 filled 3469 sum 218582528\n",
    ),
)];

#[test]
fn an_image_is_made_by_drawn_acts(rt: HostRuntime) -> Result<(), Fail> {
    let alloc = rt.alloc();
    let _disk = take_steps(&rt, alloc, MemDisk::new(alloc), &[], &DRAWN)?;
    let _disk = take_steps(&rt, alloc, MemDisk::new(alloc), &[], &DRAWN_LONG)?;
    let _disk = take_steps(&rt, alloc, MemDisk::new(alloc), &[], &DRAWN_FULL)?;
    Ok(())
}

const OVER_A_LAYER: [Step; 3] = [
    ("create", &[], 0, Said::Text("created sectors 4 layers 1\n")),
    ("write 2", &[0x41], 0, Said::Text("wrote 2 1\n")),
    ("read 0 4", &[], 0, Said::Sectors(&[0, 0x61, 0x41, 0])),
];

const LARGER: [Step; 3] = [
    (
        "create --sectors 3",
        &[],
        6,
        Said::Text("refused: other size\n"),
    ),
    (
        "create --sectors 8",
        &[],
        0,
        Said::Text("created sectors 8 layers 1\n"),
    ),
    (
        "read 0 8",
        &[],
        0,
        Said::Sectors(&[0, 0x61, 0x62, 0, 0, 0, 0, 0]),
    ),
];

#[test]
fn an_image_lies_over_a_layer(rt: HostRuntime) -> Result<(), Fail> {
    let alloc = rt.alloc();
    let _disk = take_steps(&rt, alloc, MemDisk::new(alloc), &[FIRST], &OVER_A_LAYER)?;
    let _disk = take_steps(&rt, alloc, MemDisk::new(alloc), &[FIRST], &LARGER)?;
    Ok(())
}

const FOLDER: &str = "overlay_tool_test";

const WRITTEN: [Step; 2] = [
    (
        "create --sectors 8",
        &[],
        0,
        Said::Text("created sectors 8 layers 0\n"),
    ),
    ("write 3", &[0x41, 0x41], 0, Said::Text("wrote 3 2\n")),
];

const READ: [Step; 1] = [("read 4 1", &[], 0, Said::Sectors(&[0x41]))];

fn folder(alloc: Global) -> Result<PathText, AllocError> {
    Ok(PathText::from_vec(Vec::from_slice(alloc, FOLDER.as_bytes())?))
}

#[test]
fn an_image_in_a_folder_is_opened_again(rt: HostRuntime) -> Result<(), Fail> {
    let alloc = rt.alloc();
    let _ = fs::remove_dir_all(&rt, FOLDER);
    fs::create_dir(&rt, FOLDER)?;
    let closed = take_steps(
        &rt,
        alloc,
        FolderDisk::new(rt, folder(alloc)?),
        &[],
        &WRITTEN,
    )?;
    drop(closed);
    let closed = take_steps(&rt, alloc, FolderDisk::new(rt, folder(alloc)?), &[], &READ)?;
    drop(closed);
    let _ = fs::remove_dir_all(&rt, FOLDER);
    Ok(())
}

// The first bytes of the file of the first committed layer.
fn sealed_file<D: Disk>(alloc: Global, disk: &mut D, length: usize) -> Result<Vec<u8>, Fail> {
    let mut file = vec![in alloc; 0; length.min(1 << 30)]?;
    if disk.read_at(4, 0, &mut file).is_err() {
        return Err(Fail::new("it is not read"));
    }
    Ok(file)
}

const COMMITTED: [Step; 6] = [
    (
        "create --sectors 8",
        &[],
        0,
        Said::Text("created sectors 8 layers 0\n"),
    ),
    ("write 3", &[0x61, 0x62, 0x63], 0, Said::Text("wrote 3 3\n")),
    ("write 4", &[0x64], 0, Said::Text("wrote 4 1\n")),
    ("zero 5 1", &[], 0, Said::Text("zeroed 5 1\n")),
    ("read 3 3", &[], 0, Said::Sectors(&[0x61, 0x64, 0])),
    (
        "commit 22222222-2222-2222-2222-222222222222",
        &[],
        0,
        Said::Text("committed 22222222-2222-2222-2222-222222222222 layer 0 bytes 12288\n"),
    ),
];

// The image is as it was, and goes on.
const AFTERWARDS: [Step; 6] = [
    ("read 3 3", &[], 0, Said::Sectors(&[0x61, 0x64, 0])),
    (
        "commit 22222222-2222-2222-2222-222222222222",
        &[],
        6,
        Said::Text("refused: uuid twice\n"),
    ),
    ("write 3", &[0x64], 0, Said::Text("wrote 3 1\n")),
    (
        "commit 11111111-1111-1111-1111-111111111111",
        &[],
        0,
        Said::Text("committed 11111111-1111-1111-1111-111111111111 layer 1 bytes 12288\n"),
    ),
    ("sweep", &[], 0, Said::Text("swept 2\n")),
    ("read 3 3", &[], 0, Said::Sectors(&[0x64, 0x64, 0])),
];

// Whether these are the bytes of the file from 4,096 on, where its data begin.
fn has_data(alloc: Global, file: &[u8], data: &[u8]) -> Result<bool, AllocError> {
    let wanted = sectors(alloc, data)?;
    Ok(match file.get(4096..) {
        Some(rest) => rest.starts_with(&wanted),
        None => false,
    })
}

// Whether the sealed file of the disk has the data of what was written, and is a layer over none.
fn is_layer(alloc: Global, file: Vec<u8>) -> Result<bool, Fail> {
    if !has_data(alloc, &file, &[0x61, 0x64])? {
        return Ok(false);
    }
    let none = Vec::new(alloc);
    let disk = MemDisk::new(alloc);
    let ran = run(alloc, disk, "flatten --stdin", file, none, Failing::Nobody)?;
    let flat = Said::Sectors(&[0, 0, 0, 0x61, 0x64, 0, 0, 0]);
    Ok(answers(alloc, &ran, 0, flat)?)
}

#[test]
fn what_was_written_is_committed(rt: HostRuntime) -> Result<(), Fail> {
    let alloc = rt.alloc();
    let mut disk = take_steps(&rt, alloc, MemDisk::new(alloc), &[], &COMMITTED)?;
    let file = sealed_file(alloc, &mut disk, 12_288)?;
    holds(&rt, is_layer(alloc, file)?, "the sealed file");
    let _disk = take_steps(&rt, alloc, disk, &[], &AFTERWARDS)?;
    Ok(())
}

// The call of the disk that writes the third piece of the layer's file.
const THIRD_PIECE: u64 = 36;

const MADE: [Step; 1] = [(
    "create --sectors 1024",
    &[],
    0,
    Said::Text("created sectors 1024 layers 0\n"),
)];

// A disk with an image of 1,024 sectors, all of them written.
fn written_image(rt: &impl Abort, alloc: Global) -> Result<MemDisk, Fail> {
    let disk = take_steps(rt, alloc, MemDisk::new(alloc), &[], &MADE)?;
    let all = vec![in alloc; 0x41; 524_288]?;
    let none = Vec::new(alloc);
    let ran = run(alloc, disk, "write 0", all, none, Failing::Nobody)?;
    let wrote = Said::Text("wrote 0 1024\n");
    holds(rt, answers(alloc, &ran, 0, wrote)?, "a whole image");
    Ok(ran.disk)
}

// The same, where that call fails.
fn written_and_failing(rt: &impl Abort, alloc: Global) -> Result<MemDisk, Fail> {
    let mut disk = written_image(rt, alloc)?;
    let mut calls = Vec::new(alloc);
    calls.push(THIRD_PIECE)?;
    disk.fail(CallList::from_vec(calls));
    Ok(disk)
}

const COMMIT: [Step; 1] = [(
    "commit 22222222-2222-2222-2222-222222222222",
    &[],
    0,
    Said::Text("committed 22222222-2222-2222-2222-222222222222 layer 0 bytes 536576\n"),
)];

const BUSY: Said = Said::Text("refused: busy 22222222-2222-2222-2222-222222222222\n");

const FAILED: [Step; 4] = [
    (
        "commit 22222222-2222-2222-2222-222222222222",
        &[],
        4,
        Said::Text("refused: disk fault\n"),
    ),
    ("commit 11111111-1111-1111-1111-111111111111", &[], 6, BUSY),
    ("grow 2048", &[], 6, BUSY),
    ("read 1023 1", &[], 0, Said::Sectors(&[0x41])),
];

#[test]
fn a_commit_goes_on_after_a_fault(rt: HostRuntime) -> Result<(), Fail> {
    let alloc = rt.alloc();
    let mut disk = take_steps(&rt, alloc, written_image(&rt, alloc)?, &[], &COMMIT)?;
    let whole = sealed_file(alloc, &mut disk, 536_576)?;
    let disk = take_steps(&rt, alloc, written_and_failing(&rt, alloc)?, &[], &FAILED)?;
    let mut disk = take_steps(&rt, alloc, disk, &[], &COMMIT)?;
    let again = sealed_file(alloc, &mut disk, 536_576)?;
    holds(&rt, again == whole, "the same file");
    Ok(())
}

const LARGEST: [Step; 2] = [
    (
        "create --sectors 2147483648",
        &[],
        0,
        Said::Text("created sectors 2147483648 layers 0\n"),
    ),
    ("write 0", &[0x41], 0, Said::Text("wrote 0 1\n")),
];

// A row that makes the sector 1 zeros.
const ZEROED: [u8; 16] = [1, 0, 0, 0, 0, 0, 4, 0, 0, 0, 0, 0, 0, 0, 0x80, 0];

// A top has at most 4,194,304 rows. One fewer, without the first of them, and as the mark counts them.
const MORE_ROWS: usize = 4_194_302;

const COUNTED: [u8; 3] = [0xFF, 0xFF, 0x3F];

fn zeroed_rows(alloc: Global, count: usize) -> Result<Vec<u8>, AllocError> {
    let mut rows = Vec::new(alloc);
    for _ in 0..count {
        rows.extend_from_slice(&ZEROED)?;
    }
    Ok(rows)
}

// The disk with these bytes in a file, from there on.
fn with_bytes(disk: MemDisk, file: u32, at: u64, bytes: &[u8]) -> Result<MemDisk, Fail> {
    let mut disk = disk;
    if at > 8192 || bytes.len() > 1 << 27 {
        return Err(Fail::new("too far"));
    }
    match disk.write_at(file, at, bytes) {
        Ok(()) => Ok(disk),
        Err(_) => Err(Fail::new("it is not written")),
    }
}

// The largest image, whose top has room for one more row. Its first sector was written, and then the second was
// zeroed over and over.
fn nearly_full(rt: &impl Abort, alloc: Global) -> Result<MemDisk, Fail> {
    let disk = take_steps(rt, alloc, MemDisk::new(alloc), &[], &LARGEST)?;
    let rows = zeroed_rows(alloc, MORE_ROWS)?;
    let disk = with_bytes(disk, 2, 4112, &rows)?;
    with_bytes(disk, 3, 528, &COUNTED)
}

// A zero takes a row for each 16,383 sectors or part of them. A commit makes room again.
const FULL: [Step; 7] = [
    (
        "zero 8 16384",
        &[],
        6,
        Said::Text("refused: full 4194303 1\n"),
    ),
    ("zero 8 16383", &[], 0, Said::Text("zeroed 8 16383\n")),
    (
        "write 2",
        &[0x41],
        6,
        Said::Text("refused: full 4194304 1\n"),
    ),
    ("read 0 3", &[], 0, Said::Sectors(&[0x41, 0, 0])),
    (
        "commit 22222222-2222-2222-2222-222222222222",
        &[],
        0,
        Said::Text("committed 22222222-2222-2222-2222-222222222222 layer 0 bytes 12288\n"),
    ),
    ("write 2", &[0x42], 0, Said::Text("wrote 2 1\n")),
    ("read 0 3", &[], 0, Said::Sectors(&[0x41, 0, 0x42])),
];

#[test]
fn no_top_has_more_rows_than_it_may(rt: HostRuntime) -> Result<(), Fail> {
    let alloc = rt.alloc();
    let disk = nearly_full(&rt, alloc)?;
    let _disk = take_steps(&rt, alloc, disk, &[], &FULL)?;
    Ok(())
}
