ghost use Rattle.std.specs.Prelude.{◌≡◌, ℕ, ◌+◌, ◌-◌, ◌*◌, ◌^◌, ◌<◌, ◌≤◌, ◌↔◌, min, List, [], IsTrue, IfOk, OnOk, IsErr, OnErr, length, take};
ghost use Rattle.sector_extent.specs.Causes.{Charges};
ghost use Rattle.block_disk.specs.Changes.{put, piece, Torn, Cut, Same, Only};
ghost use Rattle.block_disk.specs.Claims.{FileRun, Quiet};
ghost use Rattle.block_disk.specs.DiskState.{Steps};
ghost use Rattle.layer_commit.specs.Fitting.{IsSound, IsFitted, SealFits, IsWhole, with_done};
ghost use Rattle.layer_commit.specs.View.{view_of, file_by, length_of, next_size, pieces_of};

use crate::laying::{BLOCK, fill_vec};
use crate::source::Source;
use block_disk::{Disk, DiskFailed};
use sealed_layer::Layer;

// Bytes of a piece.
pub(crate) const PIECE: u64 = 131_072;

// The fields of a sealing, and all that works on them.
#[derive(Drop)]
pub(crate) struct SealParts {
    pub(crate) layer: Layer,
    pub(crate) sources: Vec<Source>,
    // room for one piece
    pub(crate) buffer: Vec<u8>,
    pub(crate) from_file: u32,
    pub(crate) to_file: u32,
    pub(crate) done: u64,
}

impl SealParts {
    /// The pieces of the file.
    pub(crate) fn total(&self) -> u64
        requires { IsSound (view_of self.now) }
        ensures { result ≡ pieces_of (view_of self.now) }
    {
        self.size().div_ceil(PIECE)
    }

    // The bytes of the file.
    fn size(&self) -> u64
        requires { IsSound (view_of self.now) }
        ensures size { result ≡ length_of (view_of self.now).head }
        ensures low { result ≤ 2 ^ 42 }
    {
        let head = self.layer.head();
        (head.index_at + 16 * head.rows).div_ceil(BLOCK) * BLOCK + BLOCK
    }

    /// The pieces that are written.
    pub(crate) fn done(&self) -> u64
        ensures { result ≡ (view_of self.now).done }
    {
        self.done
    }

    /// The head and the rows that the file gets.
    pub(crate) fn layer(&self) -> &Layer
        ensures head { result.now.head ≡ (view_of self.now).head }
        ensures rows { result.now.rows ≡ (view_of self.now).rows }
    {
        &self.layer
    }

    pub(crate) fn into_layer(self) -> Layer
        ensures head { result.head ≡ (view_of self).head }
        ensures rows { result.rows ≡ (view_of self).rows }
    {
        self.layer
    }

    /// Writes the next piece of the file, and answers whether all are written. Where none is, it
    /// first cuts the file to nothing; with none left it does nothing. After a failure it may be
    /// called again. It takes no memory.
    pub(crate) fn copy_some<D: Disk>(&mut self, disk: &mut D) -> Result<bool, DiskFailed>
        requires fits { IsFitted D.tells (D.state disk.old) (view_of self.old) }
        ensures ok { OnOk result (view_of self.new
            ≡ with_done (view_of self.old) (min (self.old.done + 1) (pieces_of (view_of self.old)))) }
        ensures all { IfOk result (λ whole. IsTrue whole ↔ ((view_of self.new).done ≡ pieces_of (view_of self.old))) }
        ensures err { OnErr result (view_of self.new ≡ view_of self.old) }
        ensures fits { (stored : List ℕ) → SealFits D.tells (D.state disk.old) (view_of self.old) stored
            → SealFits D.tells (D.state disk.new) (view_of self.new) stored }
        // on a disk that tells, the file is just the pieces that are written
        ensures front { OnOk result ((stored : List ℕ)
            → SealFits D.tells (D.state disk.old) (view_of self.old) stored → IsTrue D.tells
            → (D.state disk.new).seen self.old.to_file
            ≡ take (131072 * self.new.done) (file_by (view_of self.old) stored)) }
        // at each moment of the call all other files are as a crash might have left them before it
        ensures any_moment { FileRun (view_of self.old).to_file (D.state disk.old) (D.state disk.new) (λ c. Unit {0}) }
        ensures none { (view_of self.old).done ≡ pieces_of (view_of self.old) → disk.new ≡ disk.old }
        ensures cause { Charges D.faults disk.old disk.new (IsErr result) }
    {
        if self.done >= self.total() {
            return Ok(true);
        }
        self.cut_first(disk)?;
        self.fill_buffer(disk)?;
        self.write_piece(disk)?;
        self.done += 1;
        Ok(self.done == self.total())
    }

    // The bytes of the next piece.
    fn piece_size(&self) -> usize
        requires sound { IsSound (view_of self.now) }
        requires more { self.now.done < pieces_of (view_of self.now) }
        ensures size { result ≡ next_size (view_of self.now) }
        ensures some { 0 < result }
    {
        PIECE.min(self.size() - PIECE * self.done) as usize
    }

    // Cuts the file to nothing where nothing is written of it.
    fn cut_first<D: Disk>(&self, disk: &mut D) -> Result<(), DiskFailed>
        ensures cut { OnOk result (IsTrue D.tells → self.now.done ≡ 0 → (D.state disk.new).seen self.now.to_file ≡ []) }
        ensures same { 0 < self.now.done → disk.new ≡ disk.old }
        ensures run { FileRun self.now.to_file (D.state disk.old) (D.state disk.new) (λ c. Unit {0}) }
        ensures cause { Charges D.faults disk.old disk.new (IsErr result) }
    {
        if self.done == 0 {
            disk.cut(self.to_file, 0)?;
        }
        Ok(())
    }

    // Fills the buffer with the bytes of the next piece.
    fn fill_buffer<D: Disk>(&mut self, disk: &mut D) -> Result<(), DiskFailed>
        requires sound { IsSound (view_of self.old) }
        requires more { self.old.done < pieces_of (view_of self.old) }
        ensures filled { OnOk result (IsTrue D.tells → (stored : List ℕ)
            → SealFits D.tells (D.state disk.old) (view_of self.old) stored
            → take (next_size (view_of self.old)) self.new.buffer.items
            ≡ piece (131072 * self.old.done) (next_size (view_of self.old)) (file_by (view_of self.old) stored)) }
        ensures same { view_of self.new ≡ view_of self.old }
        ensures quiet { Quiet (D.state disk.old) (D.state disk.new) }
        ensures cause { Charges D.faults disk.old disk.new (IsErr result) }
    {
        let size = self.piece_size();
        let from = PIECE * self.done;
        fill_vec(
            disk,
            self.from_file,
            &self.layer,
            self.sources.as_slice(),
            from,
            size,
            &mut self.buffer,
        )?;
        Ok(())
    }

    // Writes the next piece, which the buffer holds.
    fn write_piece<D: Disk>(&self, disk: &mut D) -> Result<(), DiskFailed>
        requires sound { IsSound (view_of self.now) }
        requires more { self.now.done < pieces_of (view_of self.now) }
        ensures written { OnOk result (IsTrue D.tells → (D.state disk.new).seen self.now.to_file
            ≡ put ((D.state disk.old).seen self.now.to_file) (131072 * self.now.done)
            (take (next_size (view_of self.now)) self.now.buffer.items)) }
        ensures steps { Steps self.now.to_file (Torn (131072 * self.now.done) (next_size (view_of self.now)))
            (D.state disk.old) (D.state disk.new) }
        ensures cause { Charges D.faults disk.old disk.new (IsErr result) }
    {
        let (bytes, _) = self.buffer.as_slice().split_at(self.piece_size());
        disk.write_at(self.to_file, PIECE * self.done, bytes)?;
        Ok(())
    }

    /// Puts the file onto the disk, all of it. After a failure it may be called again.
    pub(crate) fn complete<D: Disk>(&mut self, disk: &mut D) -> Result<(), DiskFailed>
        requires done { (view_of self.old).done ≡ pieces_of (view_of self.old) }
        ensures whole { OnOk result ((stored : List ℕ) → SealFits D.tells (D.state disk.old) (view_of self.old) stored
            → IsWhole D.tells (D.state disk.new) (view_of self.old).to_file (file_by (view_of self.old) stored)) }
        ensures same { view_of self.new ≡ view_of self.old }
        // at each moment a crash leaves of each file what it might have left before the call
        ensures quiet { Quiet (D.state disk.old) (D.state disk.new) }
        ensures cause { Charges D.faults disk.old disk.new (IsErr result) }
    {
        disk.sync(self.to_file)?;
        Ok(())
    }
}
