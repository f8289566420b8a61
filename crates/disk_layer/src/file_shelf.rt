//! A file of a disk as a shelf of one file.
ghost use Rattle.std.specs.Prelude.{◌≡◌, ◌+◌, ◌^◌, ◌<◌, ◌≤◌, length, take, drop, OnOk, IfOk, IfSome, IsErr};
ghost use Rattle.sector_extent.specs.Causes.{Charges};
ghost use Rattle.block_disk.specs.Claims.{Quiet};
ghost use Rattle.layer_shelf.specs.Shelves.{SameFiles, file_at};

use block_disk::Disk;
use layer_shelf::{Shelf, ShelfFailed};
use std::marker::{Brand, Model, PhantomData};

// Names the state of a disk at some moment, for contracts alone: a caller passes `Brand`, and its proof
// picks the state.
pub(crate) trait Moment {
    ghost use Rattle.block_disk.specs.DiskState.{DiskState};

    ghost was: { DiskState };
}

impl Moment for Brand {
    ghost use Rattle.block_disk.specs.Untold.{untold};

    ghost was = { untold };
}

// A shelf of one file. Since the moment that `M` names nothing changed on its disk.
pub(crate) struct FileShelf<D: Disk, M: Moment> {
    disk: D,
    file: u32,
    since: PhantomData<M>,
}

impl<D: Disk, M: Moment> Model for FileShelf<D, M> {
    ghost use Rattle.block_disk.specs.Claims.{Quiet};
    ghost use Rattle.disk_layer.specs.OneFile.{OneFile};

    ghost Value = { OneFile D };

    ghost view = { λ s. record { disk = s.disk; file = s.file } };

    ghost invariant = { λ s. Quiet M.was (D.state s.disk) };
}

impl<D: Disk, M: Moment> FileShelf<D, M> {
    pub(crate) fn new(disk: D, file: u32) -> FileShelf<D, M>
        requires { Quiet M.was (D.state disk) }
        ensures { result ≡ record { disk = disk; file = file } }
    {
        FileShelf {
            disk,
            file,
            since: PhantomData,
        }
    }

    pub(crate) fn into_disk(self) -> D
        ensures disk { result ≡ self.disk }
        ensures quiet { Quiet M.was (D.state result) }
    {
        let FileShelf {
            disk,
            file: _,
            since: _,
        } = self;
        disk
    }
}

impl<D: Disk, M: Moment> Shelf for FileShelf<D, M> {
    ghost use Rattle.disk_layer.specs.OneFile.{told_file, one-counted};

    ghost files = { λ s. told_file D.tells ((D.state s.disk).seen s.file) };

    ghost count = { λ _. 1 };

    ghost faults = { λ s. D.faults s.disk };

    ghost counted = { λ s. one-counted D.tells ((D.state s.disk).seen s.file) };

    fn count(&self) -> u32 {
        1
    }

    fn length(&mut self, k: u32) -> Result<u64, ShelfFailed> {
        match self.disk.size(self.file) {
            Ok(length) => Ok(length),
            Err(_) => Err(ShelfFailed),
        }
    }

    fn read(&mut self, k: u32, at: u64, out: &mut [u8]) -> Result<(), ShelfFailed> {
        match self.disk.read_at(self.file, at, out) {
            Ok(()) => Ok(()),
            Err(_) => Err(ShelfFailed),
        }
    }
}
