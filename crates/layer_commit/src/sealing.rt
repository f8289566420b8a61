ghost use Rattle.std.specs.Prelude.{◌≡◌, ◌≢◌, ℕ, ◌+◌, ◌*◌, ◌^◌, ◌≤◌, ◌↔◌, min, List, IsTrue, IfOk, OnOk, IsErr, OnErr, length, take};
ghost use Rattle.sector_extent.specs.Causes.{Charges};
ghost use Rattle.block_disk.specs.Claims.{FileRun, Quiet};
ghost use Rattle.seg_table.specs.Cells.{cells_of};
ghost use Rattle.lsmt_header.specs.Blocks.{nil, IsSize};
ghost use Rattle.flat_image.specs.CanonicalFiles.{canonical_rows};
ghost use Rattle.flat_image.specs.LayerFiles.{LayerOf};
ghost use Rattle.layer_commit.specs.Fitting.{Begun, IsFitted, SealFits, IsWhole, with_done};
ghost use Rattle.layer_commit.specs.Gathered.{ArePlaces, EndBy};
ghost use Rattle.layer_commit.specs.Sources.{AreWithin, table_sheet};
ghost use Rattle.layer_commit.specs.View.{file_by, pieces_of};

use crate::parts::SealParts;
use block_disk::{Disk, DiskFailed};
use sealed_layer::Layer;
use sector_extent::Memory;
use seg_table::SegTable;
use std::alloc::Global;
use std::marker::Model;

/// The canonical file of a frozen top, of which some pieces are written. The sectors come from the
/// top's data file, and head and rows from memory.
#[derive(Drop)]
pub struct Sealing {
    parts: SealParts,
}

impl Model for Sealing {
    ghost use Rattle.layer_commit.specs.Fitting.{IsSound};
    ghost use Rattle.layer_commit.specs.View.{SealView, view_of};

    ghost Value = { SealView };

    ghost view = { λ sealing. view_of sealing.parts };

    ghost invariant = { λ sealing. IsSound (view_of sealing.parts) };
}

impl Sealing {
    /// A sealing of a table, of which nothing is written, with all memory that it needs. `below` is
    /// the sectors of the layer below, or `sectors` where there is none.
    pub fn begin(
        alloc: Global,
        table: &SegTable,
        uuid: [u8; 16],
        parent: [u8; 16],
        below: u64,
        sectors: u64,
        from_file: u32,
        to_file: u32,
    ) -> Result<Sealing, Memory>
        requires named { uuid ≢ nil }
        requires size { IsSize sectors }
        requires files { from_file ≢ to_file }
        requires within { EndBy sectors (cells_of table.now) }
        requires low { ArePlaces (cells_of table.now) }
        // the rows are the same whatever the data
        requires few { (stored : List ℕ) × (length (canonical_rows (table_sheet stored sectors table.now)) ≤ 2 ^ 24) }
        ensures { IfOk result (Begun table.now uuid parent below sectors from_file to_file) }
    {
        let parts = SealParts::begin(
            alloc, table, uuid, parent, below, sectors, from_file, to_file,
        )?;
        Ok(Sealing { parts })
    }

    /// The pieces of the file, each of 131,072 bytes but the last.
    pub fn total(&self) -> u64
        ensures { result ≡ pieces_of self.now }
    {
        self.parts.total()
    }

    /// The pieces that are written.
    pub fn done(&self) -> u64
        ensures { result ≡ self.now.done }
    {
        self.parts.done()
    }

    /// The head and the rows that the file gets.
    pub fn layer(&self) -> &Layer
        ensures head { result.now.head ≡ self.now.head }
        ensures rows { result.now.rows ≡ self.now.rows }
        ensures of_file { (stored : List ℕ) → AreWithin stored self.now.sources
            → LayerOf (file_by self.now stored) result.now.head result.now.rows }
    {
        self.parts.layer()
    }

    pub fn into_layer(self) -> Layer
        ensures head { result.head ≡ self.head }
        ensures rows { result.rows ≡ self.rows }
        ensures of_file { (stored : List ℕ) → AreWithin stored self.sources
            → LayerOf (file_by self stored) result.head result.rows }
    {
        self.parts.into_layer()
    }

    /// Writes the next piece of the file, and answers whether all are written. Where none is, it
    /// first cuts the file to nothing; with none left it does nothing. After a failure it may be
    /// called again. It takes no memory.
    pub fn copy_some<D: Disk>(&mut self, disk: &mut D) -> Result<bool, DiskFailed>
        requires fits { IsFitted D.tells (D.state disk.old) self.old }
        ensures ok { OnOk result (self.new ≡ with_done self.old (min (self.old.done + 1) (pieces_of self.old))) }
        ensures all { IfOk result (λ whole. IsTrue whole ↔ (self.new.done ≡ pieces_of self.old)) }
        ensures err { OnErr result (self.new ≡ self.old) }
        ensures fits { (stored : List ℕ) → SealFits D.tells (D.state disk.old) self.old stored
            → SealFits D.tells (D.state disk.new) self.new stored }
        // on a disk that tells, the file is just the pieces that are written
        ensures front { OnOk result ((stored : List ℕ) → SealFits D.tells (D.state disk.old) self.old stored
            → IsTrue D.tells
            → (D.state disk.new).seen self.old.to_file ≡ take (131072 * self.new.done) (file_by self.old stored)) }
        // at each moment of the call all other files are as a crash might have left them before it
        ensures any_moment { FileRun self.old.to_file (D.state disk.old) (D.state disk.new) (λ c. Unit {0}) }
        ensures none { self.old.done ≡ pieces_of self.old → disk.new ≡ disk.old }
        ensures cause { Charges D.faults disk.old disk.new (IsErr result) }
    {
        self.parts.copy_some(disk)
    }

    /// Puts the file onto the disk, all of it. After a failure it may be called again. It takes no
    /// memory.
    pub fn complete<D: Disk>(&mut self, disk: &mut D) -> Result<(), DiskFailed>
        requires done { self.old.done ≡ pieces_of self.old }
        ensures whole { OnOk result ((stored : List ℕ) → SealFits D.tells (D.state disk.old) self.old stored
            → IsWhole D.tells (D.state disk.new) self.old.to_file (file_by self.old stored)) }
        ensures same { self.new ≡ self.old }
        ensures fits { (stored : List ℕ) → SealFits D.tells (D.state disk.old) self.old stored
            → SealFits D.tells (D.state disk.new) self.new stored }
        // at each moment a crash leaves of each file what it might have left before the call
        ensures quiet { Quiet (D.state disk.old) (D.state disk.new) }
        ensures cause { Charges D.faults disk.old disk.new (IsErr result) }
    {
        self.parts.complete(disk)
    }
}
