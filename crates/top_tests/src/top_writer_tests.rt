ghost use Rattle.std.specs.Prelude.{◌≡◌, ◌+◌, ◌*◌, ◌^◌, ◌<◌, ◌≤◌, ◌/◌, IfOk, length};
ghost use Rattle.lsmt_header.specs.Blocks.{IsSize};
ghost use Rattle.top_writer.specs.Fitting.{IsFitted};
ghost use Rattle.top_writer.specs.View.{sectors_of, sequence_of};

use crate::expecting::{holds, holds_at};
use block_disk::{CrashChoice, Disk, MemDisk};
use gate_mark::Mark;
use sector_extent::{CallList, Extent, GapList};
use std::alloc::Global;
use std::process::Abort;
use std::test::Fail;
use top_writer::{Top, TopFault, WriteFault};

const CHOICES: [CrashChoice; 3] = [CrashChoice::Old, CrashChoice::New, CrashChoice::Torn];

// Calls of the disk in the making of a top, in a write with the flush behind it, and in a later one of
// these, whose mark has a gate to be closed.
const MADE: u64 = 12;

const FIRST: u64 = 8;

const SECOND: u64 = 10;

// Calls in a load.
const LOADED: u64 = 10;

// A top of so many sectors in which nothing was written.
fn top_of<D: Disk>(alloc: Global, disk: &mut D, sectors: u64) -> Result<Top, Fail>
    requires size { IsSize sectors }
    ensures fits { IfOk result (IsFitted D.tells (D.state disk.new)) }
    ensures sectors { IfOk result (λ top. sectors_of top ≡ sectors) }
    ensures sequence { IfOk result (λ top. sequence_of top ≡ 1) }
{
    match Top::create(alloc, disk, 0, sectors, [0; 16]) {
        Ok(top) => Ok(top),
        Err(_) => Err(Fail::from("the top was not made")),
    }
}

// And one of eight sectors.
fn new_top<D: Disk>(alloc: Global, disk: &mut D) -> Result<Top, Fail>
    ensures fits { IfOk result (IsFitted D.tells (D.state disk.new)) }
    ensures sectors { IfOk result (λ top. sectors_of top ≡ 8) }
    ensures sequence { IfOk result (λ top. sequence_of top ≡ 1) }
{
    top_of(alloc, disk, 8)
}

// Writes a sector of one byte, and flushes.
fn write_and_flush<D: Disk>(
    top: &mut Top,
    disk: &mut D,
    at: u64,
    byte: u8,
) -> Result<(), WriteFault>
    requires at { at < 8 }
    requires sectors { sectors_of top.old ≡ 8 }
    requires sequence { sequence_of top.old < 2 ^ 40 }
    requires fits { IsFitted D.tells (D.state disk.old) top.old }
    ensures sectors { sectors_of top.new ≡ 8 }
    ensures sequence { sequence_of top.new ≤ sequence_of top.old + 2 }
    ensures fits { IsFitted D.tells (D.state disk.new) top.new }
{
    top.write(disk, Extent { at, count: 1 }, &[byte; 512])?;
    top.flush(disk)?;
    Ok(())
}

// A first sector that is kept, and a second one that perhaps is not.
fn two_writes<D: Disk>(alloc: Global, disk: &mut D) -> Result<bool, Fail> {
    let mut top = new_top(alloc, disk)?;
    if write_and_flush(&mut top, disk, 0, 0x61).is_err() {
        return Err(Fail::from("the first write failed"));
    }
    if write_and_flush(&mut top, disk, 1, 0x62).is_err() {
        return Ok(false);
    }
    // Nothing is new, so it makes no call, which would fail on a disk that stopped.
    Ok(top.flush(disk).is_ok())
}

// Which of the first two sectors a load finds.
fn held<D: Disk>(alloc: Global, disk: &mut D) -> Result<(bool, bool), Fail> {
    let Ok(top) = Top::load(alloc, disk, 0, 8, true, Some([0; 16])) else {
        return Err(Fail::from("the files were not loaded"));
    };
    let mut out = [0; 1024];
    let mut gaps = GapList::from_vec(Vec::new(alloc));
    let extent = Extent { at: 0, count: 2 };
    if top.read_part(disk, extent, &mut out, &mut gaps).is_err() {
        return Err(Fail::from("the sectors were not read"));
    }
    let first = out[0] == 0x61 && out[511] == 0x61;
    let second = out[512] == 0x62 && out[1023] == 0x62;
    if gaps.as_slice().is_empty() != (first && second) {
        return Err(Fail::from("other gaps"));
    }
    Ok((first, second))
}

// Whether a disk that stops at that call behind the making of a top makes all but the second flush, and
// what a crash leaves.
fn stop_at(alloc: Global, call: u64, choice: CrashChoice) -> Result<(bool, (bool, bool)), Fail> {
    let mut disk = MemDisk::new(alloc);
    disk.stop(MADE + FIRST + call.min(SECOND));
    let is_whole = two_writes(alloc, &mut disk)?;
    let mut left = disk.crash(choice)?;
    Ok((is_whole, held(alloc, &mut left)?))
}

// The write of the gate is the last call but one.
fn has_both(call: u64, choice: CrashChoice) -> bool {
    call == SECOND || call == SECOND - 1 && choice != CrashChoice::Old
}

#[test]
fn a_flush_that_is_stopped_keeps_what_was_flushed(rt: HostRuntime) -> Result<(), Fail> {
    for call in 0..SECOND + 1 {
        for choice in CHOICES {
            let found = stop_at(rt.alloc(), call, choice)?;
            let wanted = (call == SECOND, (true, has_both(call, choice)));
            holds_at(&rt, found == wanted, "call", call as usize);
        }
    }
    Ok(())
}

// The same two writes, where each one that fails is tried again, and the last flush too.
fn two_healed<D: Disk>(alloc: Global, disk: &mut D) -> Result<(), Fail> {
    let mut top = new_top(alloc, disk)?;
    write_twice(&mut top, disk, 0, 0x61)?;
    match top.flush(disk) {
        Ok(()) => {}
        Err(_) => {}
    }
    write_twice(&mut top, disk, 1, 0x62)?;
    flush_twice(&mut top, disk)?;
    Ok(())
}

fn write_twice<D: Disk>(top: &mut Top, disk: &mut D, at: u64, byte: u8) -> Result<(), Fail>
    requires at { at < 8 }
    requires sectors { sectors_of top.old ≡ 8 }
    requires fits { IsFitted D.tells (D.state disk.old) top.old }
    ensures sectors { sectors_of top.new ≡ 8 }
    ensures sequence { sequence_of top.new ≤ sequence_of top.old + 2 }
    ensures fits { IsFitted D.tells (D.state disk.new) top.new }
{
    match top.write(disk, Extent { at, count: 1 }, &[byte; 512]) {
        Ok(()) => Ok(()),
        Err(_) => match top.write(disk, Extent { at, count: 1 }, &[byte; 512]) {
            Ok(()) => Ok(()),
            Err(_) => Err(Fail::from("two writes failed")),
        },
    }
}

fn flush_twice<D: Disk>(top: &mut Top, disk: &mut D) -> Result<(), Fail>
    requires sequence { sequence_of top.old < 2 ^ 40 }
    requires fits { IsFitted D.tells (D.state disk.old) top.old }
    ensures sectors { sectors_of top.new ≡ sectors_of top.old }
    ensures sequence { sequence_of top.new ≤ sequence_of top.old + 2 }
    ensures fits { IsFitted D.tells (D.state disk.new) top.new }
{
    match top.flush(disk) {
        Ok(()) => Ok(()),
        Err(_) => match top.flush(disk) {
            Ok(()) => Ok(()),
            Err(_) => Err(Fail::from("two flushes failed")),
        },
    }
}

fn one_call(alloc: Global, call: u64) -> Result<CallList, Fail> {
    let mut calls = Vec::new(alloc);
    calls.push(call)?;
    Ok(CallList::from_vec(calls))
}

// What a crash leaves where that call behind the making of a top fails.
fn heal(alloc: Global, call: u64, choice: CrashChoice) -> Result<(bool, bool), Fail> {
    let mut disk = MemDisk::new(alloc);
    disk.fail(one_call(alloc, call)?);
    two_healed(alloc, &mut disk)?;
    let mut left = disk.crash(choice)?;
    held(alloc, &mut left)
}

#[test]
fn a_later_flush_heals_each_failed_call(rt: HostRuntime) -> Result<(), Fail> {
    for call in MADE..MADE + FIRST + SECOND {
        for choice in CHOICES {
            let found = heal(rt.alloc(), call, choice)?;
            holds_at(&rt, found == (true, true), "call", call as usize);
        }
    }
    Ok(())
}

// Whether a load whose call of that number fails is refused for that.
fn is_told(alloc: Global, disk: &mut MemDisk, call: u64) -> Result<bool, Fail> {
    disk.fail(one_call(alloc, call)?);
    match Top::load(alloc, disk, 0, 8, false, None) {
        Ok(_) => Ok(false),
        Err(fault) => Ok(fault == TopFault::Failed),
    }
}

#[test]
fn each_failed_call_of_a_load_is_told(rt: HostRuntime) -> Result<(), Fail> {
    let alloc = rt.alloc();
    let mut disk = MemDisk::new(alloc);
    two_writes(alloc, &mut disk)?;
    for call in 0..LOADED {
        holds_at(&rt, is_told(alloc, &mut disk, call)?, "call", call as usize);
        holds(&rt, held(alloc, &mut disk)? == (true, true), "both sectors");
    }
    Ok(())
}

// Lets it be the top of a larger image.
fn grow<D: Disk>(top: &mut Top, disk: &D, sectors: u64)
    requires more { sectors_of top.old ≤ sectors }
    requires few { sectors ≤ 2 ^ 31 }
    requires fits { IsFitted D.tells (D.state disk.now) top.old }
    ensures sectors { sectors_of top.new ≡ sectors }
    ensures sequence { sequence_of top.new ≡ sequence_of top.old }
    ensures fits { IsFitted D.tells (D.state disk.now) top.new }
{
    top.grow(sectors);
}

// The sectors and what is used of a top that grew, was written at its end and was loaded again.
fn grown(alloc: Global) -> Result<(u64, (u64, u64)), Fail> {
    let mut disk = MemDisk::new(alloc);
    let mut top = new_top(alloc, &mut disk)?;
    grow(&mut top, &disk, 12);
    write(
        &mut top,
        &mut disk,
        Extent { at: 11, count: 1 },
        &[0x61; 512],
    )?;
    top.flush(&mut disk)?;
    let Ok(again) = Top::load(alloc, &mut disk, 0, 12, false, None) else {
        return Err(Fail::from("the files were not loaded"));
    };
    Ok((again.sectors(), again.used()))
}

#[test]
fn a_top_that_grew_is_loaded_with_its_new_size(rt: HostRuntime) -> Result<(), Fail> {
    holds(&rt, grown(rt.alloc())? == (12, (1, 1)), "the top");
    Ok(())
}

// Makes sectors zeros.
fn zero<D: Disk>(top: &mut Top, disk: &D, at: u64, count: u32) -> Result<(), WriteFault>
    requires image { at + count ≤ 2 ^ 31 }
    requires within { at + count ≤ sectors_of top.old }
    requires fits { IsFitted D.tells (D.state disk.now) top.old }
    ensures sectors { sectors_of top.new ≡ sectors_of top.old }
    ensures sequence { sequence_of top.new ≡ sequence_of top.old }
    ensures fits { IsFitted D.tells (D.state disk.now) top.new }
{
    top.zero(Extent { at, count })?;
    Ok(())
}

fn write<D: Disk>(top: &mut Top, disk: &mut D, extent: Extent, bytes: &[u8]) -> Result<(), Fail>
    requires size { length bytes.now ≡ 512 * extent.count }
    requires within { extent.at + extent.count ≤ sectors_of top.old }
    requires fits { IsFitted D.tells (D.state disk.old) top.old }
    ensures sectors { sectors_of top.new ≡ sectors_of top.old }
    ensures sequence { sequence_of top.new ≤ sequence_of top.old + 1 }
    ensures fits { IsFitted D.tells (D.state disk.new) top.new }
{
    match top.write(disk, extent, bytes) {
        Ok(()) => Ok(()),
        Err(_) => Err(Fail::from("the write failed")),
    }
}

// Three sectors, one of them written over, and a zero; it is read and flushed. Whether it is read so.
fn three_changes<D: Disk>(alloc: Global, disk: &mut D) -> Result<bool, Fail> {
    let mut top = new_top(alloc, disk)?;
    let mut bytes = [0x61; 1_536];
    bytes[512..1_024].fill(0x62);
    bytes[1_024..].fill(0x63);
    write(&mut top, disk, Extent { at: 3, count: 3 }, &bytes)?;
    write(&mut top, disk, Extent { at: 4, count: 1 }, &[0x64; 512])?;
    zero(&mut top, disk, 5, 1)?;
    let is_used = top.used() == (3, 4);
    let is_right = is_read(alloc, &top, disk)?;
    top.flush(disk)?;
    Ok(is_used && is_right)
}

// Some bytes of the eight sectors, over FF.
const BYTES: [(usize, u8); 8] = [
    (1_535, 0xFF),
    (1_536, 0x61),
    (2_047, 0x61),
    (2_048, 0x64),
    (2_559, 0x64),
    (2_560, 0),
    (3_071, 0),
    (3_072, 0xFF),
];

fn has_bytes(out: &[u8; 4_096]) -> bool {
    for (at, byte) in BYTES {
        if out.get(at) != Some(&byte) {
            return false;
        }
    }
    true
}

fn are_gaps(gaps: &[Extent]) -> bool {
    match gaps {
        [first, last] => { (first.at, first.count) == (0, 3) && (last.at, last.count) == (6, 2) }
        _ => false,
    }
}

// Whether a read of all eight sectors of that top gives these bytes and gaps.
fn is_read<D: Disk>(alloc: Global, top: &Top, disk: &mut D) -> Result<bool, Fail>
    requires sectors { sectors_of top.now ≡ 8 }
    requires fits { IsFitted D.tells (D.state disk.old) top.now }
    ensures fits { IsFitted D.tells (D.state disk.new) top.now }
{
    let mut out = [0xFF; 4_096];
    let mut gaps = GapList::from_vec(Vec::new(alloc));
    let extent = Extent { at: 0, count: 8 };
    match top.read_part(disk, extent, &mut out, &mut gaps) {
        Ok(()) => Ok(has_bytes(&out) && are_gaps(gaps.as_slice())),
        Err(_) => Ok(false),
    }
}

// Three rows and four sectors.
fn body() -> [u8; 48] {
    let mut body = [0; 48];
    body[0] = 3;
    body[8] = 4;
    body
}

fn is_marked(disk: &mut MemDisk) -> bool {
    match Mark::load(disk, 3) {
        Ok(mark) => mark.get() == body(),
        Err(_) => false,
    }
}

#[test]
fn three_files_have_their_forms(rt: HostRuntime) -> Result<(), Fail> {
    let mut disk = MemDisk::new(rt.alloc());
    holds(&rt, three_changes(rt.alloc(), &mut disk)?, "the changes");
    let sizes = [disk.size(1)?, disk.size(2)?];
    holds(&rt, sizes == [6_144, 4_144], "the lengths");
    holds(&rt, is_marked(&mut disk), "the mark");
    Ok(())
}

// As many zeros of the whole image and of one sector as make 4,194,300 rows.
fn fill_rows<D: Disk>(top: &mut Top, disk: &D) -> Result<(), WriteFault>
    requires sectors { sectors_of top.old ≡ 131072 }
    requires fits { IsFitted D.tells (D.state disk.now) top.old }
    ensures sectors { sectors_of top.new ≡ 131072 }
    ensures fits { IsFitted D.tells (D.state disk.now) top.new }
{
    for _ in 0..466_033 {
        zero(top, disk, 0, 131_072)?;
    }
    for _ in 0..3 {
        zero(top, disk, 0, 1)?;
    }
    Ok(())
}

const FULL: WriteFault = WriteFault::Full {
    rows: 4_194_300,
    sectors: 0,
};

// Whether a full top refuses a write of the most sectors, and is as it was.
fn is_full(alloc: Global) -> Result<bool, Fail> {
    let mut disk = MemDisk::new(alloc);
    let mut top = top_of(alloc, &mut disk, 131_072)?;
    fill_rows(&mut top, &disk)?;
    let bytes = vec![in alloc; 0; 33_554_432]?;
    let extent = Extent {
        at: 0,
        count: 65_536,
    };
    let answer = top.write(&mut disk, extent, bytes.as_slice());
    Ok(answer == Err(FULL) && top.used() == (4_194_300, 0))
}

#[test]
fn a_full_top_refuses(rt: HostRuntime) -> Result<(), Fail> {
    holds(&rt, is_full(rt.alloc())?, "a full top");
    Ok(())
}
