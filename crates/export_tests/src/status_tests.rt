//! The status of an export, and which connections come back.
use crate::clients::{Ask, requests};
use crate::expecting::holds;
use crate::harbours::{answered, export_one};
use crate::images::{FIRST, Lower, image_over, no_calls, shelf_of};
use block_disk::MemDisk;
use lane_serve::TakenList;
use nbd_session::Served;
use sector_extent::{CallList, FileTexts};
use std::alloc::{AllocError, Global};
use std::process::Abort;
use std::sync::Wait;
use std::test::Fail;
use std::thread::Threads;

const ASKS: [Ask; 3] = [
    Ask::Read(0, 512, 0),
    Ask::Read(512, 512, 0x61),
    Ask::Read(1024, 512, 0x62),
];

// Whose call with that number fails.
#[derive(Clone, Copy)]
enum Failing {
    Nobody,
    Listener(u64),
    Shelf(u64),
    Disk(u64),
}

// The number of the call that fails of one kind.
fn calls(alloc: Global, number: Option<u64>) -> Result<CallList, AllocError> {
    let mut calls = Vec::new(alloc);
    if let Some(number) = number {
        calls.push(number)?;
    }
    Ok(CallList::from_vec(calls))
}

fn listener_fails(failing: Failing) -> Option<u64> {
    match failing {
        Failing::Listener(number) => Some(number),
        _ => None,
    }
}

fn shelf_fails(failing: Failing) -> Option<u64> {
    match failing {
        Failing::Shelf(number) => Some(number),
        _ => None,
    }
}

// The disk, which stops at its call of that number.
fn stopped(disk: MemDisk, failing: Failing) -> MemDisk {
    let mut disk = disk;
    if let Failing::Disk(number) = failing {
        disk.stop(number);
    }
    disk
}

// Connections of clients that ask all of that.
fn connections(alloc: Global, count: usize) -> Result<FileTexts, AllocError> {
    let mut connections = Vec::new(alloc);
    for _ in 0..count {
        connections.push(requests(alloc, &ASKS)?)?;
    }
    Ok(FileTexts::from_vec(connections))
}

// Exports over these layers, with one lane and two connections: the status, and what came back.
fn export_failing<R: Threads + Wait + Sync>(
    rt: &R,
    alloc: Global,
    line: &str,
    disk: MemDisk,
    lowers: &[Lower],
    failing: Failing,
) -> Result<(u8, TakenList<Served>), Fail> {
    export_one(
        rt,
        alloc,
        line,
        stopped(disk, failing),
        shelf_of(alloc, lowers, no_calls(alloc))?,
        shelf_of(alloc, lowers, calls(alloc, shelf_fails(failing))?)?,
        connections(alloc, 2)?,
        calls(alloc, listener_fails(failing))?,
    )
}

// A layer without a uuid, one over a layer that is not there, and one of another size than the image.
const NO_UUID: Lower = Lower { uuid: 0, ..FIRST };

const ORPHAN: Lower = Lower {
    parent: 0x55,
    ..FIRST
};

const LARGER: Lower = Lower {
    sectors: 5,
    ..FIRST
};

// The words, the layer, who fails, the status, and how many connections come back.
type Case = (&'static str, Lower, Failing, u8, usize);

const CASES: [Case; 17] = [
    ("export", FIRST, Failing::Nobody, 0, 2),
    ("export --connections 2", FIRST, Failing::Nobody, 0, 2),
    ("export --connections=1", FIRST, Failing::Nobody, 0, 1),
    ("", FIRST, Failing::Nobody, 2, 0),
    ("flatten", FIRST, Failing::Nobody, 2, 0),
    ("read 0 1", FIRST, Failing::Nobody, 2, 0),
    ("export 1", FIRST, Failing::Nobody, 2, 0),
    ("export --connections 0", FIRST, Failing::Nobody, 2, 0),
    ("export", NO_UUID, Failing::Nobody, 3, 0),
    ("export", ORPHAN, Failing::Nobody, 3, 0),
    ("export", LARGER, Failing::Nobody, 3, 0),
    ("export", FIRST, Failing::Listener(0), 4, 0),
    ("export", FIRST, Failing::Listener(1), 4, 1),
    ("export", FIRST, Failing::Listener(2), 4, 2),
    ("export --connections 2", FIRST, Failing::Listener(2), 0, 2),
    ("export", FIRST, Failing::Shelf(1), 4, 0),
    ("export", FIRST, Failing::Disk(0), 4, 0),
];

// Whether an export over this layer ends with that status, and so many connections come back.
fn ends_with<R: Threads + Wait + Sync>(rt: &R, alloc: Global, case: Case) -> Result<bool, Fail> {
    let (line, lower, failing, status, count) = case;
    let disk = image_over(alloc, &[FIRST])?;
    let (found, taken) = export_failing(rt, alloc, line, disk, &[lower], failing)?;
    Ok(found == status && answered(alloc, taken, &ASKS)? == Some(count))
}

fn end_with<R: Threads + Wait + Sync + Abort>(
    rt: &R,
    alloc: Global,
    cases: &[Case],
) -> Result<(), Fail> {
    for case in cases {
        holds(rt, ends_with(rt, alloc, *case)?, case.0);
    }
    Ok(())
}

#[test]
fn an_export_ends_with_its_status(rt: HostRuntime) -> Result<(), Fail> {
    end_with(&rt, rt.alloc(), &CASES)
}

// Whether an export of an empty disk over these layers is refused.
fn has_no_image<R: Threads + Wait + Sync>(
    rt: &R,
    alloc: Global,
    lowers: &[Lower],
) -> Result<bool, Fail> {
    let disk = MemDisk::new(alloc);
    let (status, taken) = export_failing(rt, alloc, "export", disk, lowers, Failing::Nobody)?;
    Ok(status == 3 && answered(alloc, taken, &ASKS)? == Some(0))
}

#[test]
fn nothing_is_exported_without_an_image(rt: HostRuntime) -> Result<(), Fail> {
    holds(&rt, has_no_image(&rt, rt.alloc(), &[])?, "no layers");
    holds(&rt, has_no_image(&rt, rt.alloc(), &[FIRST])?, "a layer");
    Ok(())
}

// The status of an export whose disk stops at that call, where it is 0, or 4 with all connections that
// were given taken back.
fn status_at<R: Threads + Wait + Sync>(
    rt: &R,
    alloc: Global,
    call: u64,
) -> Result<Option<u8>, Fail> {
    let disk = image_over(alloc, &[FIRST])?;
    let failing = Failing::Disk(call);
    let (status, taken) = export_failing(rt, alloc, "export", disk, &[FIRST], failing)?;
    let count = answered(alloc, taken, &ASKS)?;
    Ok(match (status, count) {
        (0, Some(2)) => Some(0),
        (4, Some(0)) | (4, Some(2)) => Some(4),
        _ => None,
    })
}

// How many calls of the disk an export makes, each of which is in turn the first that fails.
fn calls_of<R: Threads + Wait + Sync>(rt: &R, alloc: Global) -> Result<Option<u64>, Fail> {
    for call in 0..1000 {
        match status_at(rt, alloc, call)? {
            Some(0) => return Ok(Some(call)),
            Some(_) => {}
            None => return Ok(None),
        }
    }
    Ok(None)
}

#[test]
fn a_disk_that_stops_is_told(rt: HostRuntime) -> Result<(), Fail> {
    let count = calls_of(&rt, rt.alloc())?;
    holds(&rt, count > Some(10), "each call of the disk");
    Ok(())
}
