//! The steps of a commit: a freeze of the top, copies of it into a layer's file, and the seal of that
//! file, with reads of the files that were sealed.
ghost use Rattle.std.specs.Prelude.{◌≡◌, ◌≢◌, ℕ, ◌+◌, ◌*◌, ◌^◌, ◌<◌, ◌≤◌, List, [], IsTrue, IfOk, OnOk, OnErr, IsErrOf, IsErr, length, slice_index_or};
ghost use Rattle.sector_extent.specs.Causes.{Charges};
ghost use Rattle.lsmt_header.specs.Blocks.{nil};
ghost use Rattle.block_disk.specs.Claims.{Quiet};
ghost use Rattle.flat_image.specs.declared.base.Base as bases;
ghost use Rattle.flat_image.specs.History.{History, committed};
ghost use Rattle.image_core.specs.declared.commit.FreezeFault.TheVariants as freezes;
ghost use Rattle.image_core.specs.declared.commit.CopyFault.TheVariants as copies;
ghost use Rattle.image_core.specs.declared.commit.SealFault.TheVariants as seals;
ghost use Rattle.image_core.specs.Committing.{noted_freeze, noted_copy, noted_seal, noted_peek, uuids_in, IsRefusedFreeze, IsRefusedCopy, IsRefusedSeal, IsCopied, done_of, total_of, peeked};
ghost use Rattle.image_core.specs.Growing.{pending_in};
ghost use Rattle.image_core.specs.Manifest.{IsInFormat2};
ghost use Rattle.image_core.specs.Seen.{seen, view, faults_in, disk_of, IsImage, StandsFor, Goes, Rests};

use crate::commit::{CopyFault, CopyState, FreezeFault, SealFault};
use crate::image::Image;
use crate::manifest::{pending_body, plain_body};
use crate::parts::Commit;
use crate::stack::sealed_number;
use block_disk::{Disk, DiskFailed};
use flat_image::Stands;
use sector_extent::SECTOR;
use std::alloc::Global;
use std::mem::replace;

impl<D: Disk> Image<D> {
    /// Freezes the top, which is to become a layer with this uuid, and goes on with a new one. It takes
    /// all memory of the commit; then it flushes the top, makes the files of the next one, unless the
    /// image made them already, and sets the manifest. After `Failed` the image goes on as it was, and a
    /// crash may leave the commit in progress.
    pub fn freeze(&mut self, alloc: Global, uuid: [u8; 16]) -> Result<(), FreezeFault>
        requires standing { IsImage (seen D.Disk self.old) }
        requires named { uuid ≢ nil }
        requires steps { (view self.old).steps < 2 ^ 62 }
        ensures goes { Goes (seen D.Disk self.old) (seen D.Disk self.new) (noted_freeze uuid result) }
        ensures refused { IsRefusedFreeze (pending_in (view self.old)) (uuids_in (view self.old)) uuid result }
        ensures same { OnErr result (¬ IsErrOf result freezes.Failed → view self.new ≡ view self.old) }
        // a refusal that is not the disk's comes before the disk is called
        ensures spared { OnErr result (¬ IsErrOf result freezes.Failed → disk_of self.new ≡ disk_of self.old) }
        // what was written of the manifest has format 2
        ensures format { OnOk result (IsInFormat2 D.tells (seen D.Disk self.new).state) }
        ensures cause { Charges (faults_in D.Disk) self.old self.new (IsErrOf result freezes.Failed) }
    {
        self.parts.stack.check_freeze(&uuid)?;
        let Ok(ready) = self.parts.stack.prepare(alloc, &self.parts.top, uuid) else {
            return Err(FreezeFault::Memory);
        };
        let top = &mut self.parts.top;
        match top.flush(&mut self.disk) {
            Ok(()) => {}
            Err(DiskFailed) => {
                self.parts.steps += 1;
                return Err(FreezeFault::Failed);
            }
        }
        let sectors = self.sectors();
        let next = match self.parts.stack.take_next(alloc, &mut self.disk, sectors) {
            Ok(next) => next,
            Err(DiskFailed) => {
                self.parts.steps += 1;
                return Err(FreezeFault::Failed);
            }
        };
        let count = self.parts.stack.count() as u64;
        let body = pending_body(count, &uuid, sectors);
        match self.parts.manifest.set(&mut self.disk, &body) {
            Ok(()) => {
                let top = replace(&mut self.parts.top, next);
                self.parts.stack.commit = Some(Commit {
                    uuid,
                    top,
                    sealing: ready.sealing,
                    snapshot: ready.snapshot,
                });
                self.parts.steps += 1;
                Ok(())
            }
            Err(DiskFailed) => {
                self.parts.stack.next = Some(next);
                self.parts.steps += 1;
                Err(FreezeFault::Failed)
            }
        }
    }

    /// Writes the next piece of the file of the commit with this uuid, of at most 131,072 bytes, and
    /// answers whether there are more. With none left it makes no call of the disk. It takes no memory.
    pub fn copy(&mut self, uuid: [u8; 16]) -> Result<CopyState, CopyFault>
        requires standing { IsImage (seen D.Disk self.old) }
        requires steps { (view self.old).steps < 2 ^ 62 }
        ensures goes { Goes (seen D.Disk self.old) (seen D.Disk self.new) (noted_copy result) }
        ensures refused { IsRefusedCopy (pending_in (view self.old)) uuid result }
        ensures copied { IfOk result (IsCopied (view self.old).commit (view self.new).commit) }
        // a refusal that is not the disk's leaves all as it was
        ensures same { OnErr result (¬ IsErrOf result copies.Failed → self.new ≡ self.old) }
        ensures cause { Charges (faults_in D.Disk) self.old self.new (IsErrOf result copies.Failed) }
    {
        self.parts.stack.check_copy(&uuid)?;
        let Some(mut commit) = self.parts.stack.commit.take() else {
            return Err(CopyFault::NotPending(None));
        };
        let outcome = commit.sealing.copy_some(&mut self.disk);
        self.parts.stack.commit = Some(commit);
        match outcome {
            Ok(true) => Ok(CopyState::Whole),
            Ok(false) => Ok(CopyState::More),
            Err(DiskFailed) => {
                self.parts.steps += 1;
                Err(CopyFault::Failed)
            }
        }
    }

    /// Makes the file of the commit with this uuid a layer, and answers its epoch. It syncs the file, sets
    /// the manifest and puts in the snapshot that the freeze made. It takes no memory. After `Failed` the
    /// commit is still in progress, and a crash may leave it done.
    pub fn seal(&mut self, uuid: [u8; 16]) -> Result<u32, SealFault>
        requires standing { IsImage (seen D.Disk self.old) }
        requires steps { (view self.old).steps < 2 ^ 62 }
        ensures goes { Goes (seen D.Disk self.old) (seen D.Disk self.new) (noted_seal uuid result) }
        ensures refused { IsRefusedSeal (pending_in (view self.old)) (done_of (view self.old).commit)
            (total_of (view self.old).commit) uuid result }
        ensures epoch { IfOk result (λ epoch. epoch ≡ length (view self.old).committed) }
        // a refusal that is not the disk's leaves all as it was
        ensures same { OnErr result (¬ IsErrOf result seals.Failed → self.new ≡ self.old) }
        // what was written of the manifest has format 2
        ensures format { OnOk result (IsInFormat2 D.tells (seen D.Disk self.new).state) }
        ensures cause { Charges (faults_in D.Disk) self.old self.new (IsErrOf result seals.Failed) }
    {
        self.parts.stack.check_seal(&uuid)?;
        let Some(mut commit) = self.parts.stack.commit.take() else {
            return Err(SealFault::NotPending(None));
        };
        match commit.sealing.complete(&mut self.disk) {
            Ok(()) => {}
            Err(DiskFailed) => {
                self.parts.stack.commit = Some(commit);
                self.parts.steps += 1;
                return Err(SealFault::Failed);
            }
        }
        let count = self.parts.stack.count() as u64;
        let body = plain_body(count + 1, self.sectors());
        match self.parts.manifest.set(&mut self.disk, &body) {
            Ok(()) => {
                let epoch = self.parts.stack.put_sealed(commit);
                self.parts.steps += 1;
                Ok(epoch)
            }
            Err(DiskFailed) => {
                self.parts.stack.commit = Some(commit);
                self.parts.steps += 1;
                Err(SealFault::Failed)
            }
        }
    }

    /// Reads sectors of a committed file. It notes nothing but a failure, and takes no memory. After a
    /// failure `out` may hold anything.
    pub fn peek(&mut self, epoch: u32, place: u64, out: &mut [u8]) -> Result<(), DiskFailed>
        requires standing { IsImage (seen D.Disk self.old) }
        requires epoch { epoch < length (view self.old).committed }
        requires range { 512 * place + length out.old ≤ 2 ^ 50 }
        requires steps { (view self.old).steps < 2 ^ 62 }
        ensures goes { Goes (seen D.Disk self.old) (seen D.Disk self.new) (noted_peek result) }
        ensures bytes { OnOk result (IsTrue D.tells → (base : bases.Base) (history : History)
            → StandsFor (seen D.Disk self.old) base history
            → out.new ≡ peeked base history epoch place (length out.old)) }
        ensures same { OnOk result (view self.new ≡ view self.old) }
        ensures lowers { (view self.new).lowers ≡ (view self.old).lowers }
        ensures committed { (view self.new).committed ≡ (view self.old).committed }
        ensures stepped { (view self.new).steps ≤ (view self.old).steps + 1 }
        ensures quiet { Rests (seen D.Disk self.old) (seen D.Disk self.new) }
        ensures cause { Charges (faults_in D.Disk) self.old self.new (IsErr result) }
    {
        match self
            .disk
            .read_at(sealed_number(epoch), SECTOR as u64 * place, out)
        {
            Ok(()) => Ok(()),
            Err(DiskFailed) => {
                self.parts.steps += 1;
                Err(DiskFailed)
            }
        }
    }

    /// The bytes of a committed file. It is no step, and notes nothing.
    pub fn sealed_length(&mut self, epoch: u32) -> Result<u64, DiskFailed>
        requires standing { IsImage (seen D.Disk self.old) }
        requires epoch { epoch < length (view self.old).committed }
        ensures length { IfOk result (λ size. IsTrue D.tells → (base : bases.Base) (history : History)
            → StandsFor (seen D.Disk self.old) base history
            → size ≡ length (slice_index_or (committed base history) epoch [])) }
        ensures stands { (base : bases.Base) (history : History) → StandsFor (seen D.Disk self.old) base history
            → StandsFor (seen D.Disk self.new) base history }
        ensures same { view self.new ≡ view self.old }
        ensures quiet { Rests (seen D.Disk self.old) (seen D.Disk self.new) }
        ensures cause { Charges (faults_in D.Disk) self.old self.new (IsErr result) }
    {
        match self.disk.size(sealed_number(epoch)) {
            Ok(size) => Ok(size),
            Err(DiskFailed) => Err(DiskFailed),
        }
    }
}
