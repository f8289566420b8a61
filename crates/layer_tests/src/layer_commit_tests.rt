ghost use Rattle.std.specs.Prelude.{true, ◌≡◌, ℕ, ◌+◌, ◌*◌, ◌^◌, ◌<◌, ◌≤◌, IfOk, Some};
ghost use Rattle.block_disk.specs.MemDisk.{mem_state};
ghost use Rattle.seg_table.specs.Cells.{cells_of};
ghost use Rattle.seg_table.specs.declared.segment.What.TheVariants as kind;
ghost use Rattle.layer_commit.specs.Fitting.{IsFitted};
ghost use Rattle.layer_commit.specs.Gathered.{EndBy};

use crate::expecting::{holds, holds_at};
use block_disk::{CrashChoice, Disk, DiskFailed, FileList, MemDisk};
use layer_commit::Sealing;
use sector_extent::{Bytes, CallList, Extent};
use seg_table::{SegTable, What};
use std::alloc::Global;
use std::test::Fail;

const CHOICES: [CrashChoice; 3] = [CrashChoice::Old, CrashChoice::New, CrashChoice::Torn];

const FROM: u32 = 11;

const TO: u32 = 2;

// Sectors of the data file. Sector k has the byte k modulo 251 everywhere.
const STORED: u64 = 640;

const UUID: [u8; 16] = [0x22; 16];

const PARENT: [u8; 16] = [0x11; 16];

// The runs of a table, as sector, count and what they have, and what the layer's file says of them.
#[derive(Clone, Copy, Drop)]
struct Case<'a> {
    sectors: u64,
    below: u64,
    runs: &'a [(u64, u64, What)],
    version: u8,
    // offset, count, place, and 1 for zeros
    rows: &'a [(u64, u64, u64, u64)],
    // parts of the data file, from one sector to another
    data: &'a [(u64, u64)],
}

// Appends sectors of the data file.
fn push_stored(file: &mut Vec<u8>, from: u64, end: u64) -> Result<(), Fail> {
    for sector in from..end {
        file.extend_from_slice(&[(sector % 251) as u8; 512])?;
    }
    Ok(())
}

// Appends the block at the front or at the end, whose flags are 7 or 6.
fn push_block(file: &mut Vec<u8>, case: &Case, flags: u8, index_at: u64) -> Result<(), Fail> {
    file.extend_from_slice(b"OBDLAYR1")?;
    file.extend_from_slice(&[case.version, 0, 0, 0, flags, 0, 0, 0])?;
    file.extend_from_slice(&index_at.to_le_bytes())?;
    file.extend_from_slice(&(case.rows.len() as u64).to_le_bytes())?;
    file.extend_from_slice(&case.sectors.to_le_bytes())?;
    file.extend_from_slice(&UUID)?;
    file.extend_from_slice(&PARENT)?;
    file.extend_from_slice(&[0; 4_024])?;
    Ok(())
}

// The file as its format says it.
fn file_of(alloc: Global, case: &Case) -> Result<Vec<u8>, Fail> {
    let mut data = Vec::new(alloc);
    for (from, end) in case.data {
        push_stored(&mut data, *from, *end)?;
    }
    let index_at = (data.len() as u64).wrapping_add(4_096);
    let mut file = Vec::new(alloc);
    push_block(&mut file, case, 7, index_at)?;
    file.extend_from_slice(data.as_slice())?;
    for (offset, count, place, zeroed) in case.rows {
        file.extend_from_slice(&(*offset | *count << 50).to_le_bytes())?;
        file.extend_from_slice(&(*place | *zeroed << 55).to_le_bytes())?;
    }
    let padded = file.len().div_ceil(4_096).wrapping_mul(4_096);
    file.resize(padded, 0)?;
    push_block(&mut file, case, 6, index_at)?;
    Ok(file)
}

// A disk with the data file alone.
fn stored_disk(alloc: Global) -> Result<MemDisk, Fail> {
    let files = vec![in alloc; (FROM, Bytes::from_vec(stored(alloc)?))]?;
    Ok(MemDisk::of(alloc, FileList::from_vec(files))?)
}

fn bytes_of(alloc: Global, disk: &mut MemDisk, file: u32) -> Result<Vec<u8>, Fail> {
    let size = disk.size(file)? as usize;
    let mut bytes = vec![in alloc; 0; size]?;
    disk.read_at(file, 0, bytes.as_mut_slice())?;
    Ok(bytes)
}

// Sets one run.
fn set(table: &mut SegTable, sectors: u64, run: &(u64, u64, What)) -> Result<(), Fail>
    requires within { EndBy sectors (cells_of table.old) }
    requires low { (i place : ℕ) → cells_of table.old i ≡ Some (kind.Place place) → place < 640 }
    ensures within { EndBy sectors (cells_of table.new) }
    ensures low { (i place : ℕ) → cells_of table.new i ≡ Some (kind.Place place) → place < 640 }
{
    let (at, count, what) = *run;
    let extent = Extent::new(at, count).ok_or("extent")?;
    if extent.count == 0 || extent.end() > sectors {
        return Err(Fail::from("another extent"));
    }
    if let What::Place(place) = what {
        if place > STORED || count > STORED || place + count > STORED {
            return Err(Fail::from("no such sectors"));
        }
    }
    table.reserve(1)?;
    table.put(extent, what);
    Ok(())
}

// A sealing of which nothing is written.
fn begun(alloc: Global, disk: &mut MemDisk, case: &Case) -> Result<Sealing, Fail>
    ensures { IfOk result (IsFitted true (mem_state disk.new)) }
{
    if case.sectors == 0 || case.sectors > 1 << 23 {
        return Err(Fail::from("another size"));
    }
    let mut table = SegTable::new(alloc);
    for run in case.runs {
        set(&mut table, case.sectors, run)?;
    }
    if disk.size(FROM)? != 512 * STORED {
        return Err(Fail::from("other data"));
    }
    let sealing = Sealing::begin(
        alloc,
        &table,
        UUID,
        PARENT,
        case.below,
        case.sectors,
        FROM,
        TO,
    )?;
    Ok(sealing)
}

// Writes all pieces, of which there are four at most, and completes.
fn seal<D: Disk>(sealing: &mut Sealing, disk: &mut D) -> Result<(), DiskFailed>
    requires fits { IsFitted D.tells (D.state disk.old) sealing.old }
    ensures fits { IsFitted D.tells (D.state disk.new) sealing.new }
{
    for _ in 0..4 {
        sealing.copy_some(disk)?;
    }
    if sealing.done() != sealing.total() {
        return Err(DiskFailed);
    }
    sealing.complete(disk)
}

// Whether none of a file of so many bytes is written yet, and it has so many rows.
fn is_begun(sealing: &Sealing, length: usize, rows: usize) -> bool {
    sealing.done() == 0
        && sealing.total() == length.div_ceil(131_072) as u64
        && sealing.layer().rows().len() == rows
}

// Whether what is sealed and then left by a crash is the file of the format.
fn is_sealed(alloc: Global, case: &Case) -> Result<bool, Fail> {
    let mut disk = stored_disk(alloc)?;
    let wanted = file_of(alloc, case)?;
    let mut sealing = begun(alloc, &mut disk, case)?;
    if !is_begun(&sealing, wanted.len(), case.rows.len()) {
        return Ok(false);
    }
    seal(&mut sealing, &mut disk)?;
    let is_whole = sealing.done() == sealing.total();
    let made = bytes_of(alloc, &mut disk, TO)?;
    let mut left = disk.crash(CrashChoice::Old)?;
    let kept = bytes_of(alloc, &mut left, TO)?;
    let layer = sealing.into_layer();
    let is_version = layer.head().version == case.version as u32;
    Ok(is_whole && is_version && made == wanted && kept == wanted)
}

// Nothing, two tables of eight sectors, and a run of zeros that takes two rows in a layer over a shorter
// one.
const SMALL: [Case<'static>; 4] = [
    Case {
        sectors: 4,
        below: 4,
        runs: &[],
        version: 1,
        rows: &[],
        data: &[],
    },
    Case {
        sectors: 8,
        below: 8,
        runs: &[
            (1, 2, What::Place(10)),
            (3, 1, What::Place(12)),
            (4, 2, What::Zero),
            (7, 1, What::Place(8)),
        ],
        version: 1,
        rows: &[(1, 3, 8, 0), (4, 2, 0, 1), (7, 1, 11, 0)],
        data: &[(10, 13), (8, 9)],
    },
    // Three sectors are written, the second of them anew, and the third is made zeros.
    Case {
        sectors: 8,
        below: 8,
        runs: &[
            (3, 3, What::Place(8)),
            (4, 1, What::Place(11)),
            (5, 1, What::Zero),
        ],
        version: 1,
        rows: &[(3, 2, 8, 0), (5, 1, 0, 1)],
        data: &[(8, 9), (11, 12)],
    },
    Case {
        sectors: 20_000,
        below: 4,
        runs: &[(5, 16_390, What::Zero), (19_999, 1, What::Place(8))],
        version: 2,
        rows: &[(5, 16_383, 0, 1), (16_388, 7, 0, 1), (19_999, 1, 8, 0)],
        data: &[(8, 9)],
    },
];

#[test]
fn small_tables_are_sealed(rt: HostRuntime) -> Result<(), Fail> {
    for (number, case) in SMALL.iter().enumerate() {
        holds_at(&rt, is_sealed(rt.alloc(), case)?, "table", number);
    }
    Ok(())
}

// Two runs that lie together in the data file and apart in the image, zeros and a hole between them,
// and a third one. The file has three pieces.
const LARGE: Case<'static> = Case {
    sectors: 2_000,
    below: 2_000,
    runs: &[
        (3, 300, What::Place(100)),
        (303, 200, What::Zero),
        (503, 200, What::Place(400)),
        (1_000, 150, What::Place(10)),
    ],
    version: 1,
    rows: &[
        (3, 300, 8, 0),
        (303, 200, 0, 1),
        (503, 200, 308, 0),
        (1_000, 150, 508, 0),
    ],
    data: &[(100, 600), (10, 160)],
};

// Rows and data across the borders of pieces.
fn is_scattered_sealed(alloc: Global) -> Result<bool, Fail> {
    let mut runs = Vec::new(alloc);
    let mut rows = Vec::new(alloc);
    let mut data = Vec::new(alloc);
    for number in 0..244 {
        runs.push((2 * number, 1, What::Place(2 * number + 3)))?;
        rows.push((2 * number, 1, 8 + number, 0))?;
        data.push((2 * number + 3, 2 * number + 4))?;
    }
    let scattered = Case {
        sectors: 500,
        below: 499,
        runs: runs.as_slice(),
        version: 2,
        rows: rows.as_slice(),
        data: data.as_slice(),
    };
    is_sealed(alloc, &scattered)
}

#[test]
fn large_tables_are_sealed(rt: HostRuntime) -> Result<(), Fail> {
    holds(&rt, is_sealed(rt.alloc(), &LARGE)?, "three pieces");
    holds(&rt, is_scattered_sealed(rt.alloc())?, "scattered sectors");
    Ok(())
}

// A file of two pieces, whose data are two parts of the data file.
const MIDDLE: Case<'static> = Case {
    sectors: 400,
    below: 400,
    runs: &[
        (3, 100, What::Place(100)),
        (103, 40, What::Zero),
        (143, 160, What::Place(300)),
    ],
    version: 1,
    rows: &[(3, 100, 8, 0), (103, 40, 0, 1), (143, 160, 108, 0)],
    data: &[(100, 200), (300, 460)],
};

// The calls of the disk that its sealing makes: the cut, two reads and a write for the first piece, a
// read and a write for the second, and the sync.
const CALLS: u64 = 7;

// Names the call of the disk that fails, or from which on it stops.
fn name_call(
    alloc: Global,
    disk: &mut MemDisk,
    sealing: &Sealing,
    call: u64,
    stops: bool,
) -> Result<(), Fail>
    requires fits { IsFitted true (mem_state disk.old) sealing.now }
    ensures fits { IsFitted true (mem_state disk.new) sealing.now }
{
    if stops {
        disk.stop(call);
        return Ok(());
    }
    let calls = vec![in alloc; call]?;
    disk.fail(CallList::from_vec(calls));
    Ok(())
}

// What a crash leaves after a sealing of which that call failed, and which went on where the disk did.
fn left_after(alloc: Global, call: u64, stops: bool, choice: CrashChoice) -> Result<MemDisk, Fail> {
    let mut disk = stored_disk(alloc)?;
    let mut sealing = begun(alloc, &mut disk, &MIDDLE)?;
    name_call(alloc, &mut disk, &sealing, call, stops)?;
    let is_done = seal(&mut sealing, &mut disk).is_ok();
    if is_done != (call == CALLS) {
        return Err(Fail::from("another call failed"));
    }
    if !stops && !is_done {
        seal(&mut sealing, &mut disk)?;
    }
    Ok(disk.crash(choice)?)
}

// Seals the table again, over whatever is left, and then lets the disk crash.
fn sealed_anew(alloc: Global, disk: MemDisk, choice: CrashChoice) -> Result<MemDisk, Fail> {
    let mut disk = disk;
    let mut sealing = begun(alloc, &mut disk, &MIDDLE)?;
    seal(&mut sealing, &mut disk)?;
    Ok(disk.crash(choice)?)
}

// What is left of both files after that call failed, once the table is sealed, anew where the disk
// stopped before.
fn both_files(
    alloc: Global,
    call: u64,
    stops: bool,
    choice: CrashChoice,
) -> Result<(Vec<u8>, Vec<u8>), Fail> {
    let mut left = left_after(alloc, call, stops, choice)?;
    let data = bytes_of(alloc, &mut left, FROM)?;
    if stops && call < CALLS {
        left = sealed_anew(alloc, left, choice)?;
    }
    Ok((data, bytes_of(alloc, &mut left, TO)?))
}

// The data file as it stood.
fn stored(alloc: Global) -> Result<Vec<u8>, Fail> {
    let mut data = Vec::new(alloc);
    push_stored(&mut data, 0, STORED)?;
    Ok(data)
}

// Each call in turn fails, and then the sealing goes on; or it is the last before a crash, after which
// the table is sealed anew.
#[test]
fn each_call_of_a_sealing_fails(rt: HostRuntime) -> Result<(), Fail> {
    let alloc = rt.alloc();
    let wanted = (stored(alloc)?, file_of(alloc, &MIDDLE)?);
    for call in 0..CALLS + 1 {
        for choice in CHOICES {
            for stops in [true, false] {
                let files = both_files(alloc, call, stops, choice)?;
                holds_at(&rt, files == wanted, "call", call as usize);
            }
        }
    }
    Ok(())
}
