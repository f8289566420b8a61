//! What two lanes do beside one another.
use crate::clients::Ask;
use crate::expecting::holds;
use crate::images::{FIRST, Lower, image_over, layer_file, run_on};
use crate::scenes::{Signals, is_served, play};
use crate::signals::Barrier;
use block_disk::{Disk, MemDisk};
use std::alloc::{AllocError, Global};
use std::sync::Wait;
use std::test::Fail;
use std::thread::Threads;

pub const READ_TWICE: [Ask; 2] = [Ask::Read(512, 512, 0x61), Ask::Read(512, 512, 0x61)];

#[test]
fn a_block_is_read_once_for_two_reads(rt: HostRuntime) -> Result<(), Fail> {
    let alloc = rt.alloc();
    let signals = Signals::new();
    let outcome = play(
        &rt,
        alloc,
        image_over(alloc, &[FIRST])?,
        &[FIRST],
        signals.first_client(&READ_TWICE),
        signals.second_client(&[]),
        signals.controller(b"", b""),
    )?;
    holds(
        &rt,
        is_served(alloc, &signals, &outcome, &READ_TWICE, &[], b"")?,
        "two reads",
    );
    holds(&rt, signals.reads.count() == 1, "one read of the shelf");
    Ok(())
}

pub const READ_BEFORE_AND_AFTER: [Ask; 2] = [Ask::Read(512, 512, 0x61), Ask::Read(512, 512, 0x7A)];

pub const WRITE_AND_FLUSH: [Ask; 2] = [Ask::Write(512, 512, 0x7A), Ask::Flush];

// The read of lane 0 waits in its fetch until lane 1 has flushed a write to that sector, and lane 1 begins
// once it waits.
#[test]
fn a_lane_goes_on_while_another_waits(rt: HostRuntime) -> Result<(), Fail> {
    let alloc = rt.alloc();
    let signals = Signals::new();
    let mut first = signals.first_client(&READ_BEFORE_AND_AFTER);
    first.barrier = Barrier {
        shut: &signals.always,
        asked: &signals.asked,
        opened: &signals.second,
    };
    let mut second = signals.second_client(&WRITE_AND_FLUSH);
    second.after = &signals.asked;
    let outcome = play(
        &rt,
        alloc,
        image_over(alloc, &[FIRST])?,
        &[FIRST],
        first,
        second,
        signals.controller(b"", b""),
    )?;
    let first = &READ_BEFORE_AND_AFTER;
    holds(
        &rt,
        is_served(alloc, &signals, &outcome, first, &WRITE_AND_FLUSH, b"")?,
        "both",
    );
    Ok(())
}

const SECTORS: u64 = 2_097_152;

pub const LARGE: [Lower; 3] = [
    Lower {
        uuid: 0x44,
        parent: 0,
        sectors: SECTORS,
        data: &[0x61; 16],
        rows: &[8, 0, 0, 0, 0, 0, 0x40, 0, 8, 0, 0, 0, 0, 0, 0, 0],
    },
    Lower {
        uuid: 0x55,
        parent: 0x44,
        sectors: SECTORS,
        data: &[],
        rows: &[],
    },
    Lower {
        uuid: 0x66,
        parent: 0x55,
        sectors: SECTORS,
        data: &[],
        rows: &[],
    },
];

/// What is committed of it: rows (0, 8), (8, 2048, zeroed) and (2097144, 8).
pub const SEALED: Lower = Lower {
    uuid: 0x33,
    parent: 0x66,
    sectors: SECTORS,
    data: &[
        0x71, 0x71, 0x71, 0x71, 0x71, 0x71, 0x71, 0x71, 0x72, 0x72, 0x72, 0x72, 0x72, 0x72, 0x72,
        0x72,
    ],
    rows: &[
        0, 0, 0, 0, 0, 0, 0x20, 0, 8, 0, 0, 0, 0, 0, 0, 0, 8, 0, 0, 0, 0, 0, 0, 0x20, 0, 0, 0, 0,
        0, 0, 0x80, 0, 0xF8, 0xFF, 0x1F, 0, 0, 0, 0x20, 0, 16, 0, 0, 0, 0, 0, 0, 0,
    ],
};

const LAST: u64 = 1_073_737_728;

pub const USED_FIRST: [Ask; 1] = [Ask::WriteThrough(0, 4096, 0x71)];

pub const USED_SECOND: [Ask; 4] = [
    Ask::Write(LAST, 4096, 0x72),
    Ask::Trim(4096, 1_048_576),
    Ask::Read(4096, 4096, 0),
    Ask::Flush,
];

const READ_AGAIN: [Ask; 5] = [
    Ask::Read(0, 4096, 0x71),
    Ask::Read(4096, 4096, 0),
    Ask::Read(1_048_576, 4096, 0),
    Ask::Read(1_052_672, 4096, 0),
    Ask::Read(LAST, 4096, 0x72),
];

const COMMIT: &str = "commit 33333333-3333-3333-3333-333333333333";

/// Whether the first sealed file of the disk is this layer's.
pub fn is_sealed(
    alloc: Global,
    disk: MemDisk,
    lower: &Lower,
) -> Result<(bool, MemDisk), AllocError> {
    let mut disk = disk;
    let wanted = layer_file(alloc, lower)?;
    let mut file = vec![in alloc; 0; wanted.len().min(1 << 30)]?;
    let is_read = disk.read_at(4, 0, &mut file).is_ok();
    let is_whole = match disk.size(4) {
        Ok(size) => size == file.len() as u64,
        Err(_) => false,
    };
    Ok((is_read && is_whole && file == wanted, disk))
}

/// Whether two lanes over the large layers read what was written.
pub fn is_read_again<R: Threads + Wait + Sync>(
    rt: &R,
    alloc: Global,
    disk: MemDisk,
) -> Result<bool, Fail> {
    let signals = Signals::new();
    let first = signals.first_client(&READ_AGAIN);
    let second = signals.second_client(&READ_AGAIN);
    let control = signals.controller(b"", b"");
    let outcome = play(rt, alloc, disk, &LARGE, first, second, control)?;
    Ok(is_served(alloc, &signals, &outcome, &READ_AGAIN, &READ_AGAIN, b"")?)
}

#[test]
fn what_two_lanes_wrote_is_committed_and_read_again(rt: HostRuntime) -> Result<(), Fail> {
    let alloc = rt.alloc();
    let signals = Signals::new();
    let outcome = play(
        &rt,
        alloc,
        image_over(alloc, &LARGE)?,
        &LARGE,
        signals.first_client(&USED_FIRST),
        signals.second_client(&USED_SECOND),
        signals.controller(b"", b""),
    )?;
    holds(
        &rt,
        is_served(alloc, &signals, &outcome, &USED_FIRST, &USED_SECOND, b"")?,
        "both",
    );
    let disk = run_on(alloc, outcome.disk, COMMIT, &LARGE)?;
    let (sealed, disk) = is_sealed(alloc, disk, &SEALED)?;
    holds(&rt, sealed, "the sealed file");
    holds(
        &rt,
        is_read_again(&rt, alloc, disk)?,
        "every read is as before",
    );
    Ok(())
}
