//! Images over lower layers.
use crate::disks::{file_of, loaded, made, shelf};
use crate::expecting::{holds, holds_at};
use crate::layers::{FIRST, LayerText, TALLER, head_of, layer_file};
use crate::scenes::{Answer, Part, are_answers, layer_at, load};
use crate::steps::{Act, Line, Said, TWO, are_sectors};
use block_disk::MemDisk;
use layer_shelf::{MemShelf, Shelf};
use layer_stack::{StackFault, check};
use lsmt_header::{Head, Kind};
use sealed_layer::paint_part;
use std::alloc::Global;
use std::process::Abort;
use std::test::Fail;

// Sectors 1 to 3 and 5, of which the first three lie together in the file though they are two rows, and
// over them zeros at 5 and a sector at 6.
const BOTH: [LayerText<'static>; 2] = [
    LayerText {
        version: 1,
        uuid: 0x11,
        parent: 0,
        sectors: 8,
        data: &[0x61, 0x62, 0x63, 0x64],
        rows: &[(1, 2, 8, false), (3, 1, 10, false), (5, 1, 11, false)],
    },
    LayerText {
        version: 1,
        uuid: 0x22,
        parent: 0x11,
        sectors: 8,
        data: &[0x71],
        rows: &[(5, 1, 0, true), (6, 1, 8, false)],
    },
];

const WRITTEN: [Line<'static>; 2] = [
    (Act::Write(4, &[0x7a]), Said::Done),
    (Act::Flush, Said::Done),
];

const ALL: [u8; 8] = [0, 0x61, 0x62, 0x63, 0x7a, 0, 0x71, 0];

// Which call of the layers fails, what two reads then answer, and the entries behind each.
const READS: [(u64, [Part<'static>; 2], [u64; 2]); 4] = [
    (9, [Part::Read(&ALL), Part::Read(&ALL)], [1, 2]),
    (0, [Part::Fails, Part::Read(&ALL)], [0, 1]),
    (1, [Part::Fails, Part::Read(&ALL)], [0, 1]),
    (2, [Part::Read(&ALL), Part::Fails], [1, 1]),
];

fn are_counted(answers: &[Answer], steps: &[u64; 2]) -> bool {
    answers
        .iter()
        .zip(steps)
        .all(|(answer, count)| answer.steps == *count)
}

// Whether a loaded image answers the reads so.
fn is_read(
    alloc: Global,
    disk: MemDisk,
    case: &(u64, [Part<'static>; 2], [u64; 2]),
) -> Result<bool, Fail> {
    let (call, reads, steps) = case;
    match load(alloc, disk, shelf(alloc, &BOTH)?, &[*call], reads)? {
        Ok(played) => Ok(
            are_counted(played.answers.as_slice(), steps)
                && are_answers(reads, played.answers.as_slice()),
        ),
        Err((disk, _)) => {
            let _disk = disk;
            Err(Fail::from("no image was loaded"))
        }
    }
}

// A read of the whole image makes two calls of the layers, one for each run of sectors that lie together.
#[test]
fn an_image_is_read_through_its_layers(rt: HostRuntime) -> Result<(), Fail> {
    let alloc = rt.alloc();
    let parts = [Part::Steps(&WRITTEN), Part::Read(&ALL)];
    for (number, case) in READS.iter().enumerate() {
        let disk = made(alloc, MemDisk::new(alloc), &BOTH, 8, &parts)?;
        holds_at(&rt, is_read(alloc, disk, case)?, "reads", number);
    }
    Ok(())
}

const EIGHT: [Line<'static>; 1] = [(Act::Status, Said::Now(8, 1, None))];

const TALL: [u8; 8] = [0, 0x61, 0x62, 0, 0, 0, 0, 0];

#[test]
fn an_image_is_taller_than_its_layer(rt: HostRuntime) -> Result<(), Fail> {
    let alloc = rt.alloc();
    let parts = [Part::Steps(&EIGHT), Part::Read(&TALL)];
    let disk = made(alloc, MemDisk::new(alloc), &[FIRST], 8, &parts)?;
    let _disk = loaded(alloc, disk, &[FIRST], &parts)?;
    Ok(())
}

const GROWN: [Line<'static>; 2] = [
    (Act::Grow(6), Said::Done),
    (Act::Grow(6), Said::NotLarger(6)),
];

const COMMITTED: [Line<'static>; 7] = [
    (Act::Write(5, &[0x64]), Said::Done),
    (Act::Freeze(TWO), Said::Done),
    (Act::Grow(7), Said::Busy(TWO)),
    (Act::Copy(TWO), Said::Whole),
    (Act::Seal(TWO), Said::SealedAs(0)),
    (Act::Grow(6), Said::NotLarger(6)),
    (Act::Status, Said::Now(6, 2, None)),
];

const AFTERWARDS: [Line<'static>; 2] = [
    (Act::Status, Said::Now(6, 2, None)),
    (Act::Plan(0, 6), Said::Planned(&[0; 6], &[(0, 6)])),
];

const SIX: [u8; 6] = [0, 0x61, 0x62, 0, 0, 0x64];

const LONGER: [u8; 8] = [0, 0x61, 0x62, 0, 0, 0x64, 0, 0];

// The file of the layer that an image of four sectors commits when it has grown to six. The image is
// loaded again.
fn committed_file(alloc: Global) -> Result<Vec<u8>, Fail> {
    let parts = [
        Part::Steps(&GROWN),
        Part::Steps(&COMMITTED),
        Part::Read(&SIX),
    ];
    let disk = made(alloc, MemDisk::new(alloc), &[FIRST], 4, &parts)?;
    let parts = [Part::Steps(&AFTERWARDS), Part::Read(&SIX)];
    let mut disk = loaded(alloc, disk, &[FIRST], &parts)?;
    file_of(alloc, &mut disk, 4)
}

// Paints a layer over six sectors.
fn paint(alloc: Global, shelf: &mut MemShelf, k: u32, out: &mut [u8; 3_072]) -> Result<(), Fail> {
    if k >= shelf.count() {
        return Err(Fail::from("no such layer"));
    }
    let layer = layer_at(alloc, shelf, k)?;
    paint_part(shelf, k, &layer, 0, out)?;
    Ok(())
}

// Whether both layers make these sectors: as they are painted, and of an image over them.
fn are_lowers(alloc: Global, layers: &[LayerText]) -> Result<bool, Fail> {
    let mut out = [0; 3_072];
    let mut files = shelf(alloc, layers)?;
    for k in 0..2 {
        paint(alloc, &mut files, k, &mut out)?;
    }
    let _disk = made(alloc, MemDisk::new(alloc), layers, 6, &[Part::Read(&SIX)])?;
    let _disk = made(
        alloc,
        MemDisk::new(alloc),
        layers,
        8,
        &[Part::Read(&LONGER)],
    )?;
    Ok(are_sectors(&out, &SIX))
}

// Whether both heads form a stack, where the upper one has that version.
fn stacked(version: u32) -> Result<(), StackFault> {
    let upper = Head {
        version,
        ..head_of(&TALLER, Kind::SealedHead)
    };
    check(&[head_of(&FIRST, Kind::SealedHead), upper])
}

#[test]
fn a_grown_image_is_committed(rt: HostRuntime) -> Result<(), Fail> {
    let alloc = rt.alloc();
    let file = committed_file(alloc)?;
    holds(&rt, file.len() == 12_288, "its length");
    holds(&rt, file == layer_file(alloc, &TALLER)?, "its file");
    holds(
        &rt,
        are_lowers(alloc, &[FIRST, TALLER])?,
        "as a lower layer",
    );
    holds(&rt, stacked(2).is_ok(), "version 2");
    holds(
        &rt,
        stacked(1) == Err(StackFault::SizeDiffers(1)),
        "version 1",
    );
    Ok(())
}
