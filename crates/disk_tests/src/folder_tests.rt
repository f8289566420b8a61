use crate::expecting::{holds, holds_at};
use block_disk::{Disk, DiskFailed, FolderCalls, FolderDisk, PathText};
use std::cell::Cell;
use std::fs::{File, OpenOptions};
use std::io::ErrorKind;
use std::os::unix::fs::FileExt;
use std::process::Abort;
use std::test::Fail;
use std::{array, fs, io};

#[derive(Clone, Copy, PartialEq, Eq)]
enum Call {
    Open,
    LookUp,
    Lock,
    Length,
    SetLength,
    Read,
    Write,
    SyncFile,
    SyncFolder,
}

// How many calls of each kind came, and of which kind the next one fails.
#[derive(Drop)]
struct Log {
    counts: [Cell<u32>; 9],
    failing: Cell<Option<Call>>,
}

impl Log {
    fn new() -> Log {
        Log {
            counts: array::from_fn(|_| Cell::new(0)),
            failing: Cell::new(None),
        }
    }

    // The opens, the writes, the syncs of files and those of the folder.
    fn totals(&self) -> [u32; 4] {
        [
            self.counts[Call::Open as usize].get(),
            self.counts[Call::Write as usize].get(),
            self.counts[Call::SyncFile as usize].get(),
            self.counts[Call::SyncFolder as usize].get(),
        ]
    }

    fn note(&self, call: Call) -> io::Result<()> {
        let count = &self.counts[call as usize];
        count.set(count.get().saturating_add(1));
        match self.failing.get() {
            Some(failing) if failing == call => {
                self.failing.set(None);
                Err(ErrorKind::Other.into())
            }
            _ => Ok(()),
        }
    }
}

// Real files whose calls are noted. Of a sync nothing else is done.
#[derive(Drop)]
struct NotedCalls<'a> {
    rt: HostRuntime,
    log: &'a Log,
}

impl<'a> FolderCalls for NotedCalls<'a> {
    fn open(&self, how: &OpenOptions, path: &str) -> io::Result<File> {
        self.log.note(Call::Open)?;
        how.open(&self.rt, path)
    }

    fn look_up(&self, path: &str) -> io::Result<()> {
        self.log.note(Call::LookUp)?;
        fs::metadata(&self.rt, path)?;
        Ok(())
    }

    fn lock(&self, folder: &File) -> io::Result<()> {
        self.log.note(Call::Lock)?;
        folder.try_lock()?;
        Ok(())
    }

    fn length(&self, file: &File) -> io::Result<u64> {
        self.log.note(Call::Length)?;
        Ok(file.metadata()?.len())
    }

    fn set_length(&self, file: &File, length: u64) -> io::Result<()> {
        self.log.note(Call::SetLength)?;
        file.set_len(length)
    }

    fn read(&self, file: &File, at: u64, out: &mut [u8]) -> io::Result<()> {
        self.log.note(Call::Read)?;
        file.read_exact_at(out, at)
    }

    fn write(&self, file: &File, at: u64, bytes: &[u8]) -> io::Result<()> {
        self.log.note(Call::Write)?;
        file.write_all_at(bytes, at)
    }

    fn sync(&self, file: &File) -> io::Result<()> {
        if file.metadata()?.is_dir() {
            self.log.note(Call::SyncFolder)
        } else {
            self.log.note(Call::SyncFile)
        }
    }
}

fn noted<'a>(
    rt: HostRuntime,
    log: &'a Log,
    folder: &str,
) -> Result<FolderDisk<NotedCalls<'a>>, Fail> {
    let path = PathText::from_vec(folder.as_bytes().to_vec(rt.alloc())?);
    Ok(FolderDisk::new(NotedCalls { rt, log }, path))
}

fn fresh_folder(rt: HostRuntime, folder: &str) -> Result<(), Fail> {
    let _ = fs::remove_dir_all(&rt, folder);
    fs::create_dir(&rt, folder)?;
    Ok(())
}

#[derive(Clone, Copy)]
enum Work {
    Write,
    Cut,
    Sync,
    WriteAndSync,
}

// Does the work on each of the files.
fn go_over<'a>(
    disk: &mut FolderDisk<NotedCalls<'a>>,
    work: Work,
    files: (u32, u32),
) -> Result<(), DiskFailed> {
    for file in files.0..files.1 {
        match work {
            Work::Write => disk.write_at(file, 0, &[1])?,
            Work::Cut => disk.cut(file, 0)?,
            Work::Sync => disk.sync(file)?,
            Work::WriteAndSync => {
                disk.write_at(file, 0, &[1])?;
                disk.sync(file)?;
            }
        }
    }
    Ok(())
}

const COUNTED: &str = "block_disk_counted";

// What is done to the files from the first to before the second, and how many opens, writes, syncs of
// files and syncs of the folder there were up to then.
const STEPS: [(Work, (u32, u32), [u32; 4]); 19] = [
    (Work::Write, (0, 4), [9, 4, 0, 0]),
    (Work::Sync, (0, 4), [9, 4, 4, 1]),
    // A usual flush.
    (Work::WriteAndSync, (0, 4), [9, 8, 8, 1]),
    (Work::Sync, (3, 4), [9, 8, 9, 1]),
    // 256 files are open, of which file 1 was used longest ago.
    (Work::WriteAndSync, (4, 256), [513, 260, 261, 253]),
    (Work::WriteAndSync, (0, 1), [513, 261, 262, 253]),
    (Work::WriteAndSync, (256, 257), [515, 262, 263, 254]),
    (Work::WriteAndSync, (0, 1), [515, 263, 264, 254]),
    (Work::WriteAndSync, (1, 2), [516, 264, 265, 254]),
    // File 0 was used longest ago, but was cut, so file 1 is given up for file 2.
    (Work::Cut, (0, 1), [516, 264, 265, 254]),
    (Work::Sync, (1, 2), [516, 264, 266, 254]),
    (Work::Sync, (3, 257), [516, 264, 520, 254]),
    (Work::Sync, (2, 3), [517, 264, 521, 254]),
    (Work::Sync, (0, 1), [517, 264, 522, 254]),
    // All that are open were written, so one is synced for each that is opened.
    (Work::Write, (0, 2), [518, 266, 522, 254]),
    (Work::Write, (4, 257), [518, 519, 522, 254]),
    (Work::Write, (2, 3), [518, 520, 522, 254]),
    (Work::Write, (3, 4), [519, 521, 523, 254]),
    (Work::Sync, (0, 1), [520, 521, 525, 254]),
];

#[test]
fn each_sync_is_needed(rt: HostRuntime) -> Result<(), Fail> {
    fresh_folder(rt, COUNTED)?;
    let log = Log::new();
    let mut disk = noted(rt, &log, COUNTED)?;
    for (number, (work, files, totals)) in STEPS.iter().enumerate() {
        go_over(&mut disk, *work, *files)?;
        holds_at(&rt, log.totals() == *totals, "step", number);
    }
    fs::remove_dir_all(&rt, COUNTED)?;
    Ok(())
}

const LOCKED: &str = "block_disk_locked";

// The answers of two disks over one folder, and of the second one when the first is gone.
fn sizes_of_two(rt: HostRuntime, log: &Log) -> Result<[Result<u64, DiskFailed>; 4], Fail> {
    let mut first = noted(rt, log, LOCKED)?;
    let mut second = noted(rt, log, LOCKED)?;
    let own = first.size(0);
    let locked = second.size(0);
    let again = first.size(0);
    drop(first);
    Ok([own, locked, again, second.size(0)])
}

#[test]
fn a_folder_is_locked(rt: HostRuntime) -> Result<(), Fail> {
    fresh_folder(rt, LOCKED)?;
    let sizes = sizes_of_two(rt, &Log::new())?;
    holds(
        &rt,
        sizes == [Ok(0), Err(DiskFailed), Ok(0), Ok(0)],
        "the sizes",
    );
    fs::remove_dir_all(&rt, LOCKED)?;
    Ok(())
}

const FAILING: &str = "block_disk_failing";

#[derive(Clone, Copy)]
enum Deed {
    Size,
    SizeOfMissing,
    Read,
    Write,
    WriteNew,
    WriteNothing,
    Cut,
    Sync,
    SyncNew,
    WriteToAll,
}

fn do_deed<'a>(disk: &mut FolderDisk<NotedCalls<'a>>, deed: Deed) -> Result<(), DiskFailed> {
    match deed {
        Deed::Size => {
            disk.size(1)?;
        }
        Deed::SizeOfMissing => {
            disk.size(1000)?;
        }
        Deed::Read => disk.read_at(1, 1, &mut [0; 2])?,
        Deed::Write => disk.write_at(1, 1, &[5])?,
        Deed::WriteNew => disk.write_at(2, 0, &[5])?,
        Deed::WriteNothing => disk.write_at(1, 9, &[])?,
        Deed::Cut => disk.cut(1, 3)?,
        Deed::Sync => disk.sync(1)?,
        Deed::SyncNew => {
            disk.write_at(2, 0, &[5])?;
            disk.sync(2)?;
        }
        Deed::WriteToAll => {
            for file in 0..257 {
                disk.write_at(file, 0, &[5])?;
            }
        }
    }
    Ok(())
}

// Which calls go on after the deed has failed, and whether something was synced.
fn goes_on<'a>(disk: &mut FolderDisk<NotedCalls<'a>>, log: &'a Log) -> [bool; 4] {
    let [_, _, files, folders] = log.totals();
    let writes = do_deed(disk, Deed::Write).is_ok();
    let cuts = do_deed(disk, Deed::Cut).is_ok();
    let syncs = do_deed(disk, Deed::Sync).is_ok();
    let [_, _, more_files, more_folders] = log.totals();
    let has_synced = more_files != files || more_folders != folders;
    [writes, cuts, syncs, has_synced]
}

// A disk that fails at its first calls and was then written and synced.
fn written<'a>(rt: HostRuntime, log: &'a Log) -> Result<FolderDisk<NotedCalls<'a>>, Fail> {
    let mut disk = noted(rt, log, FAILING)?;
    for first in [Call::Open, Call::Lock] {
        log.failing.set(Some(first));
        if disk.size(1).is_ok() {
            return Err(Fail::from("the first call was to fail"));
        }
    }
    disk.write_at(1, 0, &[1, 2, 3, 4])?;
    disk.sync(1)?;
    Ok(disk)
}

// A call that fails, what is done then, and whether the disk goes on behind it.
const CASES: [(Call, Deed, bool); 13] = [
    (Call::Open, Deed::WriteNew, true),
    (Call::LookUp, Deed::SizeOfMissing, true),
    (Call::Length, Deed::Size, true),
    (Call::Read, Deed::Read, true),
    (Call::Write, Deed::Write, true),
    (Call::Length, Deed::WriteNothing, true),
    (Call::SetLength, Deed::WriteNothing, true),
    (Call::Length, Deed::Cut, true),
    (Call::SetLength, Deed::Cut, true),
    (Call::SyncFile, Deed::Sync, false),
    (Call::SyncFile, Deed::SyncNew, false),
    (Call::SyncFolder, Deed::SyncNew, false),
    (Call::SyncFile, Deed::WriteToAll, false),
];

// Whether the deed fails with that call, and the disk goes on or not.
fn fails_and_goes_on(
    rt: HostRuntime,
    log: &Log,
    call: Call,
    deed: Deed,
    heals: bool,
) -> Result<bool, Fail> {
    let mut disk = written(rt, log)?;
    log.failing.set(Some(call));
    let failed = do_deed(&mut disk, deed);
    let on = goes_on(&mut disk, log);
    let read = do_deed(&mut disk, Deed::Read);
    Ok(failed == Err(DiskFailed) && on == [heals; 4] && read == Ok(()))
}

// Whether a new disk over the folder goes on in any case.
fn goes_on_anew(rt: HostRuntime, log: &Log) -> Result<bool, Fail> {
    let mut disk = noted(rt, log, FAILING)?;
    Ok(do_deed(&mut disk, Deed::SyncNew) == Ok(()))
}

#[test]
fn each_system_call_fails(rt: HostRuntime) -> Result<(), Fail> {
    for (number, (call, deed, heals)) in CASES.iter().enumerate() {
        fresh_folder(rt, FAILING)?;
        let log = Log::new();
        let is_right = fails_and_goes_on(rt, &log, *call, *deed, *heals)?;
        holds_at(&rt, is_right, "a failing call", number);
        holds_at(&rt, goes_on_anew(rt, &log)?, "a new disk", number);
    }
    fs::remove_dir_all(&rt, FAILING)?;
    Ok(())
}
