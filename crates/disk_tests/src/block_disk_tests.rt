use crate::expecting::{holds, holds_at};
use block_disk::{CrashChoice, Disk, FileList, FolderDisk, MemDisk, PathText};
use sector_extent::{Bytes, CallList};
use std::alloc::Global;
use std::fs;
use std::process::Abort;
use std::test::Fail;

const FILE: u32 = 7;

const OTHER: u32 = 9;

// What happens to a file of bytes 1 to 4 that was written and synced.
#[derive(Clone, Copy)]
enum Change {
    Write,
    FailedWrite,
    Cut,
    FailedSync,
    SyncAgain,
    Other,
    Stop,
}

fn one_call(alloc: Global, call: u64) -> Result<CallList, Fail> {
    let mut calls = Vec::new(alloc);
    calls.push(call)?;
    Ok(CallList::from_vec(calls))
}

// A write behind the end, and a sync that fails.
fn fail_sync(alloc: Global, disk: &mut MemDisk) -> Result<(), Fail> {
    disk.fail(one_call(alloc, 1)?);
    disk.write_at(FILE, 3, &[5, 6, 7])?;
    if disk.sync(FILE).is_ok() {
        return Err(Fail::from("the sync was to fail"));
    }
    Ok(())
}

fn fail_write(alloc: Global, disk: &mut MemDisk) -> Result<(), Fail> {
    disk.fail(one_call(alloc, 0)?);
    if disk.write_at(FILE, 0, &[5, 6, 7, 8, 9]).is_ok() {
        return Err(Fail::from("the write was to fail"));
    }
    Ok(())
}

fn stop_behind_a_write(disk: &mut MemDisk) -> Result<(), Fail> {
    disk.stop(1);
    disk.write_at(FILE, 0, &[5])?;
    if disk.cut(FILE, 0).is_ok() || disk.sync(FILE).is_ok() {
        return Err(Fail::from("the disk was to stop"));
    }
    Ok(())
}

fn apply(alloc: Global, disk: &mut MemDisk, change: Change) -> Result<(), Fail> {
    match change {
        Change::Write => disk.write_at(FILE, 1, &[5, 6])?,
        Change::FailedWrite => fail_write(alloc, disk)?,
        Change::Cut => disk.cut(FILE, 1)?,
        Change::FailedSync => fail_sync(alloc, disk)?,
        Change::SyncAgain => {
            fail_sync(alloc, disk)?;
            disk.sync(FILE)?;
        }
        Change::Other => {
            disk.write_at(FILE, 6, &[5, 6])?;
            disk.write_at(OTHER, 0, &[5, 6])?;
            disk.sync(OTHER)?;
        }
        Change::Stop => stop_behind_a_write(disk)?,
    }
    Ok(())
}

// A disk with that file, which was then changed.
fn changed(alloc: Global, change: Change) -> Result<MemDisk, Fail> {
    let mut disk = MemDisk::new(alloc);
    disk.write_at(FILE, 0, &[1, 2, 3, 4])?;
    disk.sync(FILE)?;
    apply(alloc, &mut disk, change)?;
    if disk.wants() != 0 {
        return Err(Fail::from("there was no memory"));
    }
    Ok(disk)
}

// Whether the file has these bytes, and the other one is so long.
fn has(disk: &mut MemDisk, bytes: &[u8], other: u64) -> Result<bool, Fail> {
    if bytes.len() > 8 || disk.size(FILE)? != bytes.len() as u64 {
        return Ok(false);
    }
    let mut read = [0; 8];
    disk.read_at(FILE, 0, &mut read[..bytes.len()])?;
    Ok(read.starts_with(bytes) && disk.size(OTHER)? == other)
}

// What a change leaves after a crash of each kind, old, new and torn, and how long the other file is.
type Left = (Change, [&'static [u8]; 3], u64);

const LEFT: [Left; 7] = [
    (
        Change::Write,
        [&[1, 2, 3, 4], &[1, 5, 6, 4], &[1, 0xA5, 6, 4]],
        0,
    ),
    (
        Change::FailedWrite,
        [&[1, 2, 3, 4], &[5, 6, 3, 4], &[5, 0xA5, 3, 4]],
        0,
    ),
    (Change::Cut, [&[1, 2, 3, 4], &[1], &[1]], 0),
    (
        Change::FailedSync,
        [
            &[1, 2, 3, 4],
            &[1, 2, 3, 5, 6, 7],
            &[1, 2, 3, 0xA5, 6, 0xA5],
        ],
        0,
    ),
    (
        Change::SyncAgain,
        [
            &[1, 2, 3, 5, 6, 7],
            &[1, 2, 3, 5, 6, 7],
            &[1, 2, 3, 5, 6, 7],
        ],
        0,
    ),
    (
        Change::Other,
        [
            &[1, 2, 3, 4],
            &[1, 2, 3, 4, 0, 0, 5, 6],
            &[1, 2, 3, 4, 0, 0, 5, 0xA5],
        ],
        2,
    ),
    (
        Change::Stop,
        [&[1, 2, 3, 4], &[5, 2, 3, 4], &[5, 2, 3, 4]],
        0,
    ),
];

const CHOICES: [CrashChoice; 3] = [CrashChoice::Old, CrashChoice::New, CrashChoice::Torn];

fn leaves(alloc: Global, left: &Left) -> Result<bool, Fail> {
    for (choice, bytes) in CHOICES.iter().zip(&left.1) {
        let mut disk = changed(alloc, left.0)?.crash(*choice)?;
        if !has(&mut disk, bytes, left.2)? {
            return Ok(false);
        }
    }
    Ok(true)
}

#[test]
fn a_crash_leaves_what_its_choice_says(rt: HostRuntime) -> Result<(), Fail> {
    for (number, left) in LEFT.iter().enumerate() {
        holds_at(&rt, leaves(rt.alloc(), left)?, "change", number);
    }
    Ok(())
}

fn moves_to_a_thread<T: Send>(_disk: &T) {}

#[test]
fn disks_are_send(rt: HostRuntime) -> Result<(), Fail> {
    moves_to_a_thread(&MemDisk::new(rt.alloc()));
    moves_to_a_thread(&FolderDisk::new(rt, PathText::from_vec(Vec::new(rt.alloc()))));
    Ok(())
}

fn two_files(alloc: Global) -> Result<MemDisk, Fail> {
    let mut files = Vec::new(alloc);
    files.push((FILE, Bytes::from_vec([1, 2, 3].to_vec(alloc)?)))?;
    files.push((OTHER, Bytes::from_vec([4].to_vec(alloc)?)))?;
    Ok(MemDisk::of(alloc, FileList::from_vec(files))?)
}

#[test]
fn files_are_listed(rt: HostRuntime) -> Result<(), Fail> {
    let mut disk = two_files(rt.alloc())?;
    let mut out = [0; 2];
    holds(
        &rt,
        disk.read_at(FILE, 2, &mut out).is_err(),
        "past its end",
    );
    holds(&rt, has(&mut disk, &[1, 2, 3], 1)?, "both files");
    holds(&rt, disk.wants() == 0, "the memory");
    Ok(())
}

const FOLDER: &str = "block_disk_test";

fn folder_disk(rt: HostRuntime) -> Result<FolderDisk<HostRuntime>, Fail> {
    let path = PathText::from_vec(FOLDER.as_bytes().to_vec(rt.alloc())?);
    Ok(FolderDisk::new(rt, path))
}

// Numbers of files, and where they stand.
const NAMES: [(u32, &str); 5] = [
    (0, "block_disk_test/manifest"),
    (1, "block_disk_test/data-0"),
    (6, "block_disk_test/index-1"),
    (11, "block_disk_test/mark-2"),
    (1020, "block_disk_test/sealed-254"),
];

// Writes three bytes at 2 into a new file, cuts it to four bytes, and says whether it is so then.
fn is_written(disk: &mut FolderDisk<HostRuntime>, file: u32) -> Result<bool, Fail> {
    let before = disk.size(file)?;
    disk.write_at(file, 2, &[5, 6, 7])?;
    disk.cut(file, 4)?;
    disk.sync(file)?;
    let mut out = [9; 3];
    disk.read_at(file, 1, &mut out)?;
    Ok(before == 0 && disk.size(file)? == 4 && out == [0, 5, 6])
}

// Reads past the end fail, and a write of nothing past it makes the file longer.
fn is_longer(disk: &mut FolderDisk<HostRuntime>, file: u32) -> Result<bool, Fail> {
    let mut out = [9; 3];
    let past = disk.read_at(file, 2, &mut out).is_err();
    let nothing = disk.read_at(file, 5, &mut []).is_err();
    disk.write_at(file, 6, &[])?;
    Ok(past && nothing && disk.size(file)? == 6)
}

#[test]
fn a_folder_is_a_disk(rt: HostRuntime) -> Result<(), Fail> {
    let _ = fs::remove_dir_all(&rt, FOLDER);
    let mut missing = folder_disk(rt)?;
    holds(&rt, missing.size(0).is_err(), "a folder that is not there");
    holds(&rt, missing.write_at(0, 0, &[1]).is_err(), "a write there");
    fs::create_dir(&rt, FOLDER)?;
    let mut disk = folder_disk(rt)?;
    for (number, name) in NAMES {
        holds(&rt, is_written(&mut disk, number)?, name);
        holds(&rt, is_longer(&mut disk, number)?, name);
        let file = fs::read(&rt, name)?;
        holds(&rt, file.as_slice() == [0, 0, 5, 6, 0, 0].as_slice(), name);
    }
    fs::remove_dir_all(&rt, FOLDER)?;
    Ok(())
}
