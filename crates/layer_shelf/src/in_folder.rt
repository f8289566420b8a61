//! A shelf over real files.
ghost use Rattle.std.specs.Prelude.{◌≡◌, ◌^◌, ◌<◌, ◌≤◌, None, length, IfOk};

use crate::in_memory::MAX_LENGTH;
use crate::shelves::{Shelf, ShelfFailed};
use sector_extent::{Bytes, FaultCount, ListOf};
use std::fs::File;
use std::io::ErrorKind;
use std::os::unix::fs::FileExt;
use std::rt::Files;
use std::{array, io};

/// The bytes of a path.
pub type PathText = Bytes;

/// Paths, in order.
pub type PathList = ListOf<PathText>;

// The greatest number of files that are open at a time.
const SLOTS: usize = 256;

/// File `k` stands at the path of number `k`. A file is opened at its first call and kept open, with
/// at most 256 of them open at a time. A path that is not UTF-8 cannot be opened. It tells nothing.
#[derive(Drop)]
pub struct FolderShelf<R> {
    rt: R,
    paths: PathList,
    open: [Option<Opened>; SLOTS],
    faults: FaultCount,
    ghost few: { length paths < 2 ^ 32 },
}

#[derive(Drop)]
struct Opened {
    k: u32,
    file: File,
}

impl<R: Files<File = File>> FolderShelf<R> {
    pub fn new(rt: R, paths: PathList) -> FolderShelf<R>
        requires { length paths < 2 ^ 32 }
        ensures count { ⟦<FolderShelf<R> as Shelf>⟧.count result ≡ length paths }
        ensures faults { ⟦<FolderShelf<R> as Shelf>⟧.faults result ≡ 0 }
    {
        FolderShelf {
            rt,
            paths,
            open: array::from_fn(|_| None),
            faults: FaultCount::new(),
        }
    }
}

impl<R: Files<File = File>> Shelf for FolderShelf<R> {
    ghost files = { λ _. None };

    ghost count = { λ s. length s.paths };

    ghost faults = { λ s. s.faults.count };

    ghost counted = { λ _. tt };

    fn count(&self) -> u32 {
        self.paths.as_slice().len() as u32
    }

    fn length(&mut self, k: u32) -> Result<u64, ShelfFailed> {
        let path = self.paths.as_slice()[k as usize].as_slice();
        let slot = &mut self.open[k as usize % SLOTS];
        match length_of(&self.rt, k, path, slot) {
            Ok(length) => Ok(length),
            Err(_) => {
                self.faults.raise();
                Err(ShelfFailed)
            }
        }
    }

    fn read(&mut self, k: u32, at: u64, out: &mut [u8]) -> Result<(), ShelfFailed> {
        let path = self.paths.as_slice()[k as usize].as_slice();
        let slot = &mut self.open[k as usize % SLOTS];
        match read_from(&self.rt, k, path, slot, at, out) {
            Ok(()) => Ok(()),
            Err(_) => {
                self.faults.raise();
                Err(ShelfFailed)
            }
        }
    }
}

// File `k`, which is opened if its slot does not hold it.
fn open_file<'a, R: Files<File = File>>(
    rt: &R,
    k: u32,
    path: &[u8],
    slot: &'a mut Option<Opened>,
) -> io::Result<&'a File> {
    let is_open = match slot {
        Some(opened) => opened.k == k,
        None => false,
    };
    if !is_open {
        let path = str::from_utf8(path).map_err(|_| io::Error::from(ErrorKind::InvalidInput))?;
        let file = File::open(rt, path)?;
        *slot = Some(Opened { k, file });
    }
    match slot {
        Some(opened) => Ok(&opened.file),
        None => Err(io::Error::from(ErrorKind::NotFound)),
    }
}

fn length_of<R: Files<File = File>>(
    rt: &R,
    k: u32,
    path: &[u8],
    slot: &mut Option<Opened>,
) -> io::Result<u64>
    ensures { IfOk result (λ n. n ≤ 2 ^ 50) }
{
    let length = open_file(rt, k, path, slot)?.metadata()?.len();
    if length > MAX_LENGTH {
        return Err(io::Error::from(ErrorKind::FileTooLarge));
    }
    Ok(length)
}

fn read_from<R: Files<File = File>>(
    rt: &R,
    k: u32,
    path: &[u8],
    slot: &mut Option<Opened>,
    at: u64,
    out: &mut [u8],
) -> io::Result<()> {
    open_file(rt, k, path, slot)?.read_exact_at(out, at)
}
