//! Each refusal of the commands, with its status and its line.
use crate::layers::{FIRST, Layer, SECOND, files_of, layer_file};
use crate::runs::{Failing, Ran, failing_disk, holds, run};
use block_disk::{Disk, MemDisk};
use sector_extent::Bytes;
use std::alloc::{AllocError, Global};
use std::process::Abort;
use std::test::Fail;

const COMMIT: &str = "commit 22222222-2222-2222-2222-222222222222";

const COMMIT_NIL: &str = "commit 00000000-0000-0000-0000-000000000000";

// L2 of fewer sectors, one of 9 sectors over nothing, and one with the uuid of L1 over L2.
const SMALLER: Layer = Layer {
    sectors: 3,
    ..SECOND
};

const LARGER: Layer = Layer {
    uuid: 0x11,
    parent: 0,
    sectors: 9,
    ..SECOND
};

const AGAIN: Layer = Layer {
    uuid: 0x11,
    parent: 0x22,
    ..SECOND
};

// One of 8 sectors.
const WHOLE: Layer = Layer {
    uuid: 0x11,
    parent: 0,
    sectors: 8,
    ..SECOND
};

// A layer of a version that there is not.
const NEWER: Layer = Layer {
    version: 3,
    ..SECOND
};

// A run over these files, on a disk whose first call fails where it is to.
fn answer(
    alloc: Global,
    line: &str,
    input: Vec<u8>,
    files: Vec<Bytes>,
    disk: MemDisk,
    failing: Failing,
) -> Result<Ran<MemDisk>, Fail> {
    let disk = failing_disk(alloc, disk, failing)?;
    run(alloc, disk, line, input, files, failing)
}

// The same without layers, where nothing fails.
fn answer_alone(
    alloc: Global,
    line: &str,
    input: Vec<u8>,
    disk: MemDisk,
) -> Result<Ran<MemDisk>, Fail> {
    answer(alloc, line, input, Vec::new(alloc), disk, Failing::Nobody)
}

// A disk with an image of 8 sectors, of which the first was written.
fn image_of_8(alloc: Global) -> Result<MemDisk, Fail> {
    let none = Vec::new(alloc);
    let made = answer_alone(alloc, "create --sectors=8", none, MemDisk::new(alloc))?;
    let sector = vec![in alloc; 0x41; 512]?;
    let written = answer_alone(alloc, "write 0", sector, made.disk)?;
    if made.status != 0 || written.status != 0 {
        return Err(Fail::new("no image was written"));
    }
    Ok(written.disk)
}

// Whether the bytes are the line of that refusal.
fn is_line(bytes: &[u8], refusal: &str) -> bool {
    match bytes.strip_prefix(b"refused: ".as_slice()) {
        Some(rest) => rest.strip_suffix(b"\n".as_slice()) == Some(refusal.as_bytes()),
        None => false,
    }
}

fn is_refused<D>(ran: &Ran<D>, code: u8, refusal: &str) -> bool {
    ran.status == code && is_line(ran.notes.as_slice(), refusal)
}

// The words, the length of the source, the layers, whether there is an image of 8 sectors, who fails, and
// the status and the line.
type Case = (
    &'static str,
    usize,
    &'static [Layer],
    bool,
    Failing,
    u8,
    &'static str,
);

const NOBODY: Failing = Failing::Nobody;

const CASES: [Case; 73] = [
    ("", 0, &[], false, NOBODY, 2, "usage"),
    ("read 0 x", 0, &[], true, NOBODY, 2, "usage"),
    ("grow 0", 0, &[], true, NOBODY, 2, "usage"),
    ("commit", 0, &[], true, NOBODY, 2, "usage"),
    (COMMIT_NIL, 0, &[], true, NOBODY, 2, "usage"),
    ("make 1 100001", 0, &[], false, NOBODY, 2, "usage"),
    ("make 1 2", 0, &[], true, NOBODY, 6, "image exists"),
    ("make 1 2", 0, &[], false, Failing::Disk, 4, "disk fault"),
    ("make 1 2", 0, &[], false, Failing::Sink, 4, "sink fault"),
    ("export", 0, &[], true, NOBODY, 2, "usage"),
    ("stack", 0, &[], false, NOBODY, 3, "stack empty"),
    ("stack", 0, &[SECOND], false, NOBODY, 3, "layer 0 parent"),
    (
        "flatten",
        0,
        &[FIRST, SMALLER],
        false,
        NOBODY,
        3,
        "layer 1 size",
    ),
    (
        "create",
        0,
        &[FIRST, SECOND, AGAIN],
        false,
        NOBODY,
        3,
        "uuid twice 0 2",
    ),
    (
        "read 0 1",
        0,
        &[FIRST, FIRST],
        true,
        NOBODY,
        3,
        "layer 1 parent",
    ),
    ("read 0 1", 0, &[], false, NOBODY, 3, "no image"),
    ("read 0 1", 0, &[LARGER], true, NOBODY, 3, "size differs"),
    (
        "read 0 1",
        0,
        &[FIRST],
        true,
        NOBODY,
        3,
        "top 0: parent differs",
    ),
    (
        "flatten --stdin",
        512,
        &[],
        false,
        Failing::Source,
        4,
        "source fault",
    ),
    (
        "write 0",
        512,
        &[],
        true,
        Failing::Source,
        4,
        "source fault",
    ),
    ("stack", 0, &[FIRST], false, Failing::Sink, 4, "sink fault"),
    ("info 0", 0, &[FIRST], false, Failing::Sink, 4, "sink fault"),
    ("create", 0, &[FIRST], false, Failing::Sink, 4, "sink fault"),
    (
        "flatten",
        0,
        &[FIRST],
        false,
        Failing::Shelf,
        4,
        "shelf fault",
    ),
    (
        "create",
        0,
        &[FIRST],
        false,
        Failing::Shelf,
        4,
        "shelf fault",
    ),
    ("create", 0, &[FIRST], false, Failing::Disk, 4, "disk fault"),
    ("read 0 1", 0, &[], true, Failing::Disk, 4, "disk fault"),
    ("info 1", 0, &[FIRST], false, NOBODY, 6, "no layer"),
    ("create", 0, &[], false, NOBODY, 6, "no size"),
    (
        "create --sectors 3",
        0,
        &[FIRST],
        false,
        NOBODY,
        6,
        "other size",
    ),
    (
        "create --sectors 8",
        0,
        &[],
        true,
        NOBODY,
        6,
        "image exists",
    ),
    ("write 0", 33554433, &[], true, NOBODY, 6, "too long"),
    ("write 0", 513, &[], true, NOBODY, 6, "not whole sectors"),
    ("write 8", 512, &[], true, NOBODY, 6, "out of range"),
    ("zero 0 9", 0, &[], true, NOBODY, 6, "out of range"),
    ("read 8 1", 0, &[], true, NOBODY, 6, "out of range"),
    ("grow 16", 0, &[], false, NOBODY, 3, "no image"),
    ("grow 16", 0, &[], true, Failing::Disk, 4, "disk fault"),
    ("grow 16", 0, &[], true, Failing::Sink, 4, "sink fault"),
    ("grow 8", 0, &[], true, NOBODY, 6, "not larger 8"),
    ("grow 7", 0, &[], true, NOBODY, 6, "not larger 8"),
    (COMMIT, 0, &[], false, NOBODY, 3, "no image"),
    (COMMIT, 0, &[], true, Failing::Disk, 4, "disk fault"),
    (COMMIT, 0, &[], true, Failing::Sink, 4, "sink fault"),
    ("sweep", 0, &[], false, NOBODY, 3, "no image"),
    ("sweep", 0, &[], true, Failing::Disk, 4, "disk fault"),
    ("sweep", 0, &[], true, Failing::Sink, 4, "sink fault"),
    (
        "flatten --stdin",
        0,
        &[],
        false,
        NOBODY,
        3,
        "layer 0: short",
    ),
    ("info", 0, &[FIRST], false, NOBODY, 2, "usage"),
    ("sink", 0, &[], false, NOBODY, 2, "usage"),
    (
        "info 1",
        0,
        &[SECOND, NEWER],
        false,
        NOBODY,
        3,
        "layer 1: bad version 3",
    ),
    (
        "stack",
        0,
        &[FIRST, NEWER],
        false,
        NOBODY,
        3,
        "layer 1: bad version 3",
    ),
    (
        "read 0 1",
        0,
        &[FIRST, NEWER],
        true,
        NOBODY,
        3,
        "layer 1: bad version 3",
    ),
    ("write 0", 512, &[], false, NOBODY, 3, "no image"),
    ("zero 0 1", 0, &[], false, NOBODY, 3, "no image"),
    (
        "flatten",
        0,
        &[FIRST],
        false,
        Failing::Sink,
        4,
        "sink fault",
    ),
    ("read 0 1", 0, &[], true, Failing::Sink, 4, "sink fault"),
    ("write 0", 512, &[], true, Failing::Sink, 4, "sink fault"),
    ("zero 0 1", 0, &[], true, Failing::Sink, 4, "sink fault"),
    (
        "info 0",
        0,
        &[FIRST],
        false,
        Failing::Shelf,
        4,
        "shelf fault",
    ),
    (
        "stack",
        0,
        &[FIRST],
        false,
        Failing::Shelf,
        4,
        "shelf fault",
    ),
    (
        "read 0 1",
        0,
        &[FIRST],
        true,
        Failing::Shelf,
        4,
        "shelf fault",
    ),
    (
        "write 0",
        512,
        &[FIRST],
        true,
        Failing::Shelf,
        4,
        "shelf fault",
    ),
    (
        "zero 0 1",
        0,
        &[FIRST],
        true,
        Failing::Shelf,
        4,
        "shelf fault",
    ),
    (
        "grow 16",
        0,
        &[FIRST],
        true,
        Failing::Shelf,
        4,
        "shelf fault",
    ),
    (COMMIT, 0, &[FIRST], true, Failing::Shelf, 4, "shelf fault"),
    ("sweep", 0, &[FIRST], true, Failing::Shelf, 4, "shelf fault"),
    ("write 0", 512, &[], true, Failing::Disk, 4, "disk fault"),
    ("zero 0 1", 0, &[], true, Failing::Disk, 4, "disk fault"),
    ("info 0", 0, &[], false, NOBODY, 6, "no layer"),
    ("info 1", 0, &[FIRST], false, Failing::Shelf, 6, "no layer"),
    ("create", 0, &[], false, Failing::Disk, 6, "no size"),
    (
        "write 0",
        33554433,
        &[],
        false,
        Failing::Shelf,
        6,
        "too long",
    ),
];

fn disk_of(alloc: Global, is_made: bool) -> Result<MemDisk, Fail> {
    if is_made {
        return image_of_8(alloc);
    }
    Ok(MemDisk::new(alloc))
}

fn is_case_refused(alloc: Global, case: Case) -> Result<bool, Fail> {
    let (line, length, layers, is_made, failing, code, refusal) = case;
    let disk = disk_of(alloc, is_made)?;
    let input = vec![in alloc; 0x41; length.min(1 << 30)]?;
    let ran = answer(alloc, line, input, files_of(alloc, layers)?, disk, failing)?;
    Ok(is_refused(&ran, code, refusal))
}

fn are_refused(rt: &impl Abort, alloc: Global, cases: &[Case]) -> Result<(), Fail> {
    for case in cases {
        holds(rt, is_case_refused(alloc, *case)?, case.6);
    }
    Ok(())
}

#[test]
fn each_refusal_has_its_status_and_line(rt: HostRuntime) -> Result<(), Fail> {
    are_refused(&rt, rt.alloc(), &CASES)
}

// 255 layers without rows, each over the one before.
fn tall_stack(alloc: Global) -> Result<Vec<Bytes>, AllocError> {
    let mut files = Vec::new(alloc);
    for number in 0..255 {
        let layer = Layer {
            uuid: number + 1,
            parent: number,
            ..SECOND
        };
        files.push(Bytes::from_vec(layer_file(alloc, layer)?))?;
    }
    Ok(files)
}

// The same, and one more over the last.
fn taller_stack(alloc: Global) -> Result<Vec<Bytes>, AllocError> {
    let mut files = tall_stack(alloc)?;
    let layer = Layer {
        uuid: 1,
        parent: 255,
        ..SECOND
    };
    files.push(Bytes::from_vec(layer_file(alloc, layer)?))?;
    Ok(files)
}

#[test]
fn no_stack_has_256_layers(rt: HostRuntime) -> Result<(), Fail> {
    let alloc = rt.alloc();
    for line in ["stack", "flatten", "create", "read 0 1"] {
        let layers = taller_stack(alloc)?;
        let disk = MemDisk::new(alloc);
        let ran = answer(alloc, line, Vec::new(alloc), layers, disk, NOBODY)?;
        holds(&rt, is_refused(&ran, 3, "stack too many 256"), line);
    }
    Ok(())
}

#[test]
fn an_image_over_255_layers_is_not_committed(rt: HostRuntime) -> Result<(), Fail> {
    let alloc = rt.alloc();
    let layers = tall_stack(alloc)?;
    let disk = MemDisk::new(alloc);
    let made = answer(alloc, "create", Vec::new(alloc), layers, disk, NOBODY)?;
    holds(&rt, made.status == 0, "an image over 255 layers");
    // its uuid is that of a layer too, and the number is looked at first
    let layers = tall_stack(alloc)?;
    let ran = answer(alloc, COMMIT, Vec::new(alloc), layers, made.disk, NOBODY)?;
    holds(
        &rt,
        is_refused(&ran, 6, "too many layers"),
        "too many layers",
    );
    Ok(())
}

// What is changed of L1, whose index is at 5120 and whose trailer is at 8192, and the fault.
type Change = (&'static [(usize, u8)], &'static str);

const CHANGES: [Change; 18] = [
    (&[(0, b'X')], "layer 0: bad magic"),
    (&[(8, 3)], "layer 0: bad version 3"),
    (&[(12, 15)], "layer 0: compressed"),
    (&[(12, 5)], "layer 0: bad flags 5"),
    (&[(32, 0)], "layer 0: bad size 0"),
    (
        &[
            (40, 0),
            (41, 0),
            (42, 0),
            (43, 0),
            (44, 0),
            (45, 0),
            (46, 0),
            (47, 0),
            (48, 0),
            (49, 0),
            (50, 0),
            (51, 0),
            (52, 0),
            (53, 0),
            (54, 0),
            (55, 0),
        ],
        "layer 0: nil uuid",
    ),
    (&[(72, 0xFF)], "layer 0: bad tag"),
    (&[(331, 1)], "layer 0: unclean 331"),
    (&[(8300, 1)], "layer 0: trailer differs"),
    (&[(8204, 7)], "layer 0: trailer differs"),
    (
        &[(24, 1), (27, 1), (8216, 1), (8219, 1)],
        "layer 0: too many rows 16777217",
    ),
    (&[(16, 1), (8208, 1)], "layer 0: bad index place"),
    (&[(5126, 0)], "layer 0: row 0 empty"),
    (
        &[(24, 2), (8216, 2), (5136, 1), (5142, 8), (5144, 8)],
        "layer 0: row 1 order",
    ),
    (
        &[(24, 2), (8216, 2), (5136, 3), (5142, 8), (5144, 8)],
        "layer 0: row 1 range",
    ),
    (&[(5120, 3)], "layer 0: row 0 range"),
    (&[(5128, 7)], "layer 0: row 0 place"),
    (&[(5128, 9)], "layer 0: row 0 place"),
];

fn changed(alloc: Global, changes: &[(usize, u8)]) -> Result<Vec<u8>, AllocError> {
    let mut file = layer_file(alloc, FIRST)?;
    for (at, byte) in changes {
        if let Some(place) = file.get_mut(*at) {
            *place = *byte;
        }
    }
    Ok(file)
}

fn are_changes_told(rt: &impl Abort, alloc: Global, cases: &[Change]) -> Result<(), Fail> {
    for (changes, refusal) in cases {
        let file = changed(alloc, changes)?;
        let ran = answer_alone(alloc, "flatten --stdin", file, MemDisk::new(alloc))?;
        holds(rt, is_refused(&ran, 3, refusal), refusal);
    }
    Ok(())
}

#[test]
fn each_fault_of_a_layer_is_told(rt: HostRuntime) -> Result<(), Fail> {
    are_changes_told(&rt, rt.alloc(), &CHANGES)
}

// What is written into the manifest (0), the data (1), the index (2) or the mark (3) of the image, or where
// a file is cut off, and the fault.
type Damage = (u32, u64, &'static [u8], &'static str);

const DAMAGES: [Damage; 21] = [
    (0, 0, &[0], "no image"),
    (
        0,
        8,
        &[1, 0, 0, 0, 0, 0, 0, 0x20],
        "manifest worn 2305843009213693953",
    ),
    (0, 48, &[0], "manifest bad"),
    (0, 24, &[1], "manifest bad"),
    (0, 56, &[1], "manifest bad"),
    (0, 48, &[7], "top 0: head size 8"),
    (1, 4095, &[], "top 0: head short"),
    (1, 0, &[b'X'], "top 0: data bad magic"),
    (1, 8, &[3], "top 0: data bad version 3"),
    (2, 0, &[b'X'], "top 0: index bad magic"),
    (2, 32, &[9], "top 0: head size 9"),
    (1, 56, &[0x55], "top 0: parent differs"),
    (3, 0, &[0; 513], "top 0: no mark"),
    (
        3,
        520,
        &[1, 0, 0, 0, 0, 0, 0, 0x20],
        "top 0: mark worn 2305843009213693953",
    ),
    (3, 528, &[1, 0, 0x40], "top 0: mark bad"),
    (3, 528, &[2], "top 0: short rows"),
    (3, 536, &[2], "top 0: short data"),
    (2, 4102, &[0, 0], "top 0: row 0 empty"),
    (2, 4096, &[8], "top 0: row 0 range"),
    (2, 4104, &[7], "top 0: row 0 place"),
    (2, 4104, &[9], "top 0: row 0 place"),
];

// The disk with that damage.
fn damage(disk: MemDisk, file: u32, at: u64, bytes: &[u8]) -> Result<MemDisk, Fail> {
    let mut disk = disk;
    if at > 8192 || bytes.len() > 8192 {
        return Err(Fail::new("too far"));
    }
    let done = if bytes.is_empty() {
        disk.cut(file, at)
    } else {
        disk.write_at(file, at, bytes)
    };
    match done {
        Ok(()) => Ok(disk),
        Err(_) => Err(Fail::new("it is not damaged")),
    }
}

fn are_damages_told(rt: &impl Abort, alloc: Global, cases: &[Damage]) -> Result<(), Fail> {
    for (file, at, bytes, refusal) in cases {
        let disk = damage(image_of_8(alloc)?, *file, *at, bytes)?;
        let ran = answer_alone(alloc, "read 0 1", Vec::new(alloc), disk)?;
        holds(rt, is_refused(&ran, 3, refusal), refusal);
    }
    Ok(())
}

#[test]
fn each_fault_of_an_image_is_told(rt: HostRuntime) -> Result<(), Fail> {
    are_damages_told(&rt, rt.alloc(), &DAMAGES)
}

// Whether the image's first sector was committed as a layer, the layers below it, what is written into a file,
// or where that is cut off, and the fault.
type Below = (
    bool,
    &'static [Layer],
    u32,
    u64,
    &'static [u8],
    &'static str,
);

// The second half of the manifest's epochs and the uuid in progress.
const IN_PROGRESS: [u8; 24] = [
    1, 0, 0, 0, 0, 0, 0, 0, 0x11, 0x11, 0x11, 0x11, 0x11, 0x11, 0x11, 0x11, 0x11, 0x11, 0x11, 0x11,
    0x11, 0x11, 0x11, 0x11,
];

const LAYERED: [Below; 6] = [
    (true, &[], 4, 8191, &[], "sealed 0: short"),
    (true, &[], 4, 0, b"X", "sealed 0: bad magic"),
    (true, &[], 4, 4616, &[9], "sealed 0: row 0 place"),
    (true, &[FIRST], 4, 4096, b"A", "layer 1 size"),
    (true, &[WHOLE], 4, 4096, b"A", "layer 1 parent"),
    (false, &[FIRST], 0, 24, &IN_PROGRESS, "uuid twice 0 1"),
];

// The image of 8 sectors, whose first is a committed layer where it is to be one.
fn committed(alloc: Global, is_committed: bool) -> Result<MemDisk, Fail> {
    let disk = image_of_8(alloc)?;
    if !is_committed {
        return Ok(disk);
    }
    let ran = answer_alone(alloc, COMMIT, Vec::new(alloc), disk)?;
    if ran.status != 0 {
        return Err(Fail::new("nothing was committed"));
    }
    Ok(ran.disk)
}

fn is_damage_told(alloc: Global, case: Below) -> Result<bool, Fail> {
    let (is_committed, layers, file, at, bytes, refusal) = case;
    let disk = damage(committed(alloc, is_committed)?, file, at, bytes)?;
    let files = files_of(alloc, layers)?;
    let ran = answer(alloc, "read 0 1", Vec::new(alloc), files, disk, NOBODY)?;
    Ok(is_refused(&ran, 3, refusal))
}

fn are_layered_told(rt: &impl Abort, alloc: Global, cases: &[Below]) -> Result<(), Fail> {
    for case in cases {
        holds(rt, is_damage_told(alloc, *case)?, case.5);
    }
    Ok(())
}

#[test]
fn each_fault_of_an_image_of_layers_is_told(rt: HostRuntime) -> Result<(), Fail> {
    are_layered_told(&rt, rt.alloc(), &LAYERED)
}
