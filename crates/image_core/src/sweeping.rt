//! Emptying the files of tops that became layers.
ghost use Rattle.std.specs.Prelude.{◌≡◌, ℕ, ◌+◌, ◌*◌, ◌^◌, ◌<◌, ◌≤◌, List, [], IsTrue, IfOk, OnOk, IsErr, length};
ghost use Rattle.sector_extent.specs.Causes.{Charges};
ghost use Rattle.block_disk.specs.Claims.{FileRun, Run};
ghost use Rattle.top_writer.specs.Files.{data_file, index_file, mark_file, TopFiles};
ghost use Rattle.image_core.specs.Committing.{noted_peek};
ghost use Rattle.flat_image.specs.declared.base.Base as bases;
ghost use Rattle.flat_image.specs.History.{History, committed};
ghost use Rattle.image_core.specs.Seen.{seen, view, faults_in, IsImage, StandsFor, Goes};
ghost use Rattle.image_core.specs.Sweeping.{IsSweptFile, IsEmptied, AreEmptied};

use crate::image::Image;
use block_disk::{Disk, DiskFailed};

// Cuts a file to nothing.
fn empty<D: Disk>(disk: &mut D, file: u32) -> Result<(), DiskFailed>
    ensures emptied { OnOk result (IsTrue D.tells → (D.state disk.new).seen file ≡ []) }
    ensures run { FileRun file (D.state disk.old) (D.state disk.new) (λ c. Unit {0}) }
    ensures cause { Charges D.faults disk.old disk.new (IsErr result) }
{
    disk.cut(file, 0)
}

// Cuts the three files of the top of an epoch to nothing.
fn empty_top<D: Disk>(disk: &mut D, epoch: u32) -> Result<(), DiskFailed>
    requires few { epoch ≤ 255 }
    ensures emptied { OnOk result (IsTrue D.tells → IsEmptied (D.state disk.new).seen epoch) }
    ensures run { Run (TopFiles epoch) (D.state disk.old) (D.state disk.new) (λ files. Unit {0}) }
    ensures cause { Charges D.faults disk.old disk.new (IsErr result) }
{
    empty(disk, 4 * epoch + 1)?;
    empty(disk, 4 * epoch + 2)?;
    empty(disk, 4 * epoch + 3)?;
    Ok(())
}

// And those of the first epochs.
fn empty_tops<D: Disk>(disk: &mut D, count: u32) -> Result<(), DiskFailed>
    requires few { count ≤ 255 }
    ensures emptied { OnOk result (IsTrue D.tells → AreEmptied (D.state disk.new).seen count) }
    ensures run { Run (IsSweptFile count) (D.state disk.old) (D.state disk.new) (λ files. Unit {0}) }
    ensures cause { Charges D.faults disk.old disk.new (IsErr result) }
{
    for epoch in 0..count {
        empty_top(disk, epoch)?;
    }
    Ok(())
}

impl<D: Disk> Image<D> {
    /// Cuts the data, the rows and the mark of each epoch that became a layer to nothing, and answers how
    /// many epochs these are. It notes nothing but a failure, and takes no memory.
    pub fn sweep(&mut self) -> Result<u32, DiskFailed>
        requires standing { IsImage (seen D.Disk self.old) }
        requires steps { (view self.old).steps < 2 ^ 62 }
        // at each moment a crash leaves what it may leave of the history
        ensures goes { Goes (seen D.Disk self.old) (seen D.Disk self.new) (noted_peek result) }
        ensures count { IfOk result (λ count. count ≡ length (view self.old).committed) }
        ensures told { (base : bases.Base) (history : History) → StandsFor (seen D.Disk self.old) base history
            → IfOk result (λ count. count ≡ length (committed base history)) }
        ensures emptied { OnOk result (IsTrue D.tells
            → AreEmptied (seen D.Disk self.new).state.seen (length (view self.old).committed)) }
        // no other file is touched
        ensures spared { Run (IsSweptFile (length (view self.old).committed)) (seen D.Disk self.old).state
            (seen D.Disk self.new).state (λ files. Unit {0}) }
        ensures same { OnOk result (view self.new ≡ view self.old) }
        ensures cause { Charges (faults_in D.Disk) self.old self.new (IsErr result) }
    {
        let count = self.parts.stack.count();
        match empty_tops(&mut self.disk, count) {
            Ok(()) => Ok(count),
            Err(DiskFailed) => {
                self.parts.steps += 1;
                Err(DiskFailed)
            }
        }
    }
}
