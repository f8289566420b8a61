ghost use Rattle.std.specs.Prelude.{◌≡◌, IfOk};
ghost use Rattle.block_disk.specs.MemDisk.{mem_state};
ghost use Rattle.gate_mark.specs.Mark.{sequence_in, IsKept};

use crate::expecting::{holds, holds_at};
use block_disk::{CrashChoice, Disk, FileList, MemDisk};
use gate_mark::{Mark, MarkFault};
use sector_extent::{Bytes, CallList};
use std::alloc::Global;
use std::process::Abort;
use std::test::Fail;

const FILE: u32 = 3;

// A disk with a mark that was formatted with bytes 07 and set to bytes 08.
fn set_once(alloc: Global) -> Result<(MemDisk, Mark), Fail>
    ensures { IfOk result (λ pair. IsKept (mem_state pair.0) pair.1 × (sequence_in pair.1 ≡ 2)) }
{
    let mut disk = MemDisk::new(alloc);
    let mut mark = Mark::format(&mut disk, FILE, &[7; 48])?;
    mark.set(&mut disk, &[8; 48])?;
    Ok((disk, mark))
}

// The first byte of the body that is loaded after the crash, or 0 for no mark.
fn left(disk: MemDisk, choice: CrashChoice) -> Result<u8, Fail> {
    let mut left = disk.crash(choice)?;
    match Mark::load(&mut left, FILE) {
        Ok(mark) => Ok(mark.get()[0]),
        Err(MarkFault::NoMark) => Ok(0),
        Err(_) => Err(Fail::from("the file was not loaded")),
    }
}

const CHOICES: [CrashChoice; 3] = [CrashChoice::Old, CrashChoice::New, CrashChoice::Torn];

fn one_call(alloc: Global, call: u64) -> Result<CallList, Fail> {
    let mut calls = Vec::new(alloc);
    calls.push(call)?;
    Ok(CallList::from_vec(calls))
}

// Whether the mark has that body and that sequence.
fn is_mark(mark: &Mark, body: u8, sequence: u64) -> bool {
    mark.get() == [body; 48] && mark.sequence() == sequence
}

// The first bytes of both slots.
const SLOTS: [(usize, [u8; 18]); 2] = [
    (0, [0xA5, 0, 0, 0, 0, 0, 0, 0, 1, 0, 0, 0, 0, 0, 0, 0, 7, 7]),
    (
        512,
        [0xA5, 0, 0, 0, 0, 0, 0, 0, 2, 0, 0, 0, 0, 0, 0, 0, 8, 8],
    ),
];

fn has_slots(bytes: &[u8; 1024]) -> bool {
    for (at, slot) in &SLOTS {
        match bytes.get(*at..) {
            Some(rest) if rest.starts_with(slot) => {}
            _ => return false,
        }
    }
    true
}

// The gates of both slots, and the body and the sequence that are loaded then, with none for no mark.
const GATES: [(u8, u8, Option<(u8, u64)>); 4] = [
    (0xA5, 0xA5, Some((8, 2))),
    (0xA5, 0, Some((7, 1))),
    (0, 0xA5, Some((8, 2))),
    (0, 0, None),
];

// What is loaded of a file of these bytes with these gates.
fn loaded(
    alloc: Global,
    bytes: &[u8; 1024],
    first: u8,
    second: u8,
) -> Result<Result<Mark, MarkFault>, Fail> {
    let mut bytes = *bytes;
    bytes[0] = first;
    bytes[512] = second;
    let mut files = Vec::new(alloc);
    files.push((FILE, Bytes::from_vec(bytes.as_slice().to_vec(alloc)?)))?;
    let mut disk = MemDisk::of(alloc, FileList::from_vec(files))?;
    Ok(Mark::load(&mut disk, FILE))
}

fn is_loaded(found: &Result<Mark, MarkFault>, wanted: Option<(u8, u64)>) -> bool {
    match (found, wanted) {
        (Ok(mark), Some((body, sequence))) => is_mark(mark, body, sequence),
        (Err(fault), None) => *fault == MarkFault::NoMark,
        _ => false,
    }
}

#[test]
fn a_mark_has_its_form(rt: HostRuntime) -> Result<(), Fail> {
    let alloc = rt.alloc();
    let (mut disk, mark) = set_once(alloc)?;
    holds(&rt, is_mark(&mark, 8, 2), "the mark");
    holds(&rt, disk.size(FILE)? == 1024, "the length of its file");
    let mut bytes = [0; 1024];
    disk.read_at(FILE, 0, &mut bytes)?;
    holds(&rt, has_slots(&bytes), "its slots");
    for (number, (first, second, wanted)) in GATES.iter().enumerate() {
        let found = loaded(alloc, &bytes, *first, *second)?;
        holds_at(&rt, is_loaded(&found, *wanted), "gates", number);
    }
    Ok(())
}

// Sets a mark with a sync that fails, and once more where it heals. Whether the mark says what it may, and
// then what a crash leaves.
fn heal(alloc: Global, heals: bool, choice: CrashChoice) -> Result<(bool, u8), Fail> {
    let mut disk = MemDisk::new(alloc);
    let mut mark = Mark::format(&mut disk, FILE, &[7; 48])?;
    disk.fail(one_call(alloc, 1)?);
    let failed = mark.set(&mut disk, &[8; 48]).is_err();
    let same = mark.get() == [7; 48];
    if heals {
        mark.set(&mut disk, &[9; 48])?;
    }
    Ok((failed && same, left(disk, choice)?))
}

#[test]
fn a_failed_sync_is_healed(rt: HostRuntime) -> Result<(), Fail> {
    for (number, choice) in CHOICES.iter().enumerate() {
        for (heals, wanted) in [(false, 7), (true, 9)] {
            let found = heal(rt.alloc(), heals, *choice)?;
            holds_at(&rt, found == (true, wanted), "a sync", number);
        }
    }
    Ok(())
}

// What a crash leaves of a format that stops at that call. Only the last sync comes after the gate was
// opened.
fn left_of_format(alloc: Global, call: u64, choice: CrashChoice) -> Result<u8, Fail> {
    let mut disk = MemDisk::new(alloc);
    disk.stop(call);
    if Mark::format(&mut disk, FILE, &[7; 48]).is_ok() {
        return Err(Fail::from("the format was to fail"));
    }
    left(disk, choice)
}

fn is_late(call: u64, choice: CrashChoice) -> bool {
    call == 5 && choice != CrashChoice::Old
}

#[test]
fn each_call_of_a_format_fails(rt: HostRuntime) -> Result<(), Fail> {
    for call in 0..6 {
        for choice in CHOICES {
            let wanted = if is_late(call, choice) { 7 } else { 0 };
            let found = left_of_format(rt.alloc(), call, choice)?;
            holds_at(&rt, found == wanted, "call", call as usize);
        }
    }
    Ok(())
}

// How a set meets its fault.
#[derive(Clone, Copy, PartialEq, Eq)]
enum Way {
    Stops,
    Fails,
    Heals,
}

// Sets a mark with that call failing, and once more where it heals. Whether the mark says what it may, and
// then what a crash leaves.
fn set_again(alloc: Global, call: u64, way: Way, choice: CrashChoice) -> Result<(bool, u8), Fail> {
    let (mut disk, mut mark) = set_once(alloc)?;
    if way == Way::Stops {
        disk.stop(call);
    } else {
        disk.fail(one_call(alloc, call)?);
    }
    let failed = mark.set(&mut disk, &[9; 48]).is_err();
    let same = is_mark(&mark, 8, 2);
    if way == Way::Heals {
        mark.set(&mut disk, &[10; 48])?;
    }
    Ok((failed && same, left(disk, choice)?))
}

#[test]
fn each_call_of_a_set_fails(rt: HostRuntime) -> Result<(), Fail> {
    for call in 0..6 {
        for choice in CHOICES {
            for way in [Way::Stops, Way::Fails, Way::Heals] {
                let found = set_again(rt.alloc(), call, way, choice)?;
                let kept = if is_late(call, choice) { 9 } else { 8 };
                let wanted = if way == Way::Heals { 10 } else { kept };
                holds_at(&rt, found == (true, wanted), "call", call as usize);
            }
        }
    }
    Ok(())
}

#[test]
fn bodies_are_set_in_turn(rt: HostRuntime) -> Result<(), Fail> {
    let (mut disk, mut mark) = set_once(rt.alloc())?;
    // The close of the second set fails.
    disk.fail(one_call(rt.alloc(), 6)?);
    let failed = mark.set_each(&mut disk, &[[9; 48], [10; 48], [11; 48]]);
    holds(&rt, failed == 1, "the sets that failed");
    holds(&rt, mark.is_settled() && is_mark(&mark, 11, 4), "the mark");
    holds(&rt, left(disk, CrashChoice::Torn)? == 11, "what is left");
    Ok(())
}
