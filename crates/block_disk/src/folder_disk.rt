//! A disk over the files of a folder.
ghost use Rattle.std.specs.Prelude.{◌≡◌, ℕ, ◌+◌, ◌^◌, ◌≤◌, length, false, IfOk};
ghost use Rattle.std.proofs.Common.{rules};
ghost use Rattle.block_disk.specs.Untold.{untold};

use crate::disk::{Disk, DiskFailed, MAX_FILE};
use crate::folder_calls::FolderCalls;
use crate::open_files::{Folder, PathText};
use sector_extent::FaultCount;

/// The disk over real files. File 0 is `manifest` in the folder, and of each epoch e files 4e + 1 to
/// 4e + 4 are `data-e`, `index-e`, `mark-e` and `sealed-e`. It tells nothing of what they hold.
///
/// Its first call locks the folder, and fails while another disk has it locked. Once a sync has
/// failed each later write, cut and sync fails, until a disk is made anew. No call takes memory.
#[derive(Drop)]
pub struct FolderDisk<R: FolderCalls> {
    files: Folder<R>,
    faults: FaultCount,
}

impl<R: FolderCalls> FolderDisk<R> {
    ghost use Rattle.std.specs.Prelude.{◌≡◌};

    /// Nothing is opened yet.
    pub fn new(rt: R, folder: PathText) -> FolderDisk<R>
        ensures { ⟦<FolderDisk<R> as Disk>⟧.faults result ≡ 0 }
    {
        FolderDisk {
            files: Folder::new(rt, folder),
            faults: FaultCount::new(),
        }
    }
}

impl<R: FolderCalls> Disk for FolderDisk<R> {
    ghost tells = { false };

    ghost state = { λ d. untold };

    ghost faults = { λ d. d.faults.count };

    ghost told = { λ d f c left. absurd left };

    ghost seen_may_stay = { λ d f told. absurd (Prim.search rules) };

    ghost now_at = { λ d files left. absurd left };

    ghost at_now = { λ d files left. left 0 };

    fn size(&mut self, file: u32) -> Result<u64, DiskFailed> {
        match self.files.size(file) {
            Ok(size) if size <= MAX_FILE => Ok(size),
            _ => {
                self.faults.raise();
                Err(DiskFailed)
            }
        }
    }

    fn read_at(&mut self, file: u32, at: u64, out: &mut [u8]) -> Result<(), DiskFailed> {
        match self.files.read(file, at, out) {
            Ok(()) => Ok(()),
            Err(_) => {
                self.faults.raise();
                Err(DiskFailed)
            }
        }
    }

    fn write_at(&mut self, file: u32, at: u64, bytes: &[u8]) -> Result<(), DiskFailed> {
        match self.files.write(file, at, bytes) {
            Ok(()) => Ok(()),
            Err(_) => {
                self.faults.raise();
                Err(DiskFailed)
            }
        }
    }

    fn cut(&mut self, file: u32, length: u64) -> Result<(), DiskFailed> {
        match self.files.cut(file, length) {
            Ok(()) => Ok(()),
            Err(_) => {
                self.faults.raise();
                Err(DiskFailed)
            }
        }
    }

    fn sync(&mut self, file: u32) -> Result<(), DiskFailed> {
        match self.files.sync(file) {
            Ok(()) => Ok(()),
            Err(_) => {
                self.faults.raise();
                Err(DiskFailed)
            }
        }
    }
}
