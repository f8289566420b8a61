//! Commits the top of an image as a layer.
ghost use Rattle.std.specs.Prelude.{◌≡◌, ◌≢◌, ℕ, ◌+◌, ◌^◌, ◌<◌, ◌≤◌, ◌↔◌, [], ◌∷◌, length, false, None, Some, IsTrue, IfErr, IfOk, OnErr, OnOk, IsErrOf};
ghost use Rattle.sector_extent.specs.Causes.{Charges};
ghost use Rattle.lsmt_header.specs.Blocks.{nil};
ghost use Rattle.flat_image.specs.declared.act.Act.TheVariants.{Seal};
ghost use Rattle.flat_image.specs.declared.act.Asked.TheVariants.{Uuid};
ghost use Rattle.image_core.specs.Growing.{pending_in};
ghost use Rattle.image_core.specs.Committing.{done_of, total_of, uuids_in};
ghost use Rattle.image_core.specs.Seen.{seen, view, faults_in, IsImage};
ghost use Rattle.image_commands.specs.Images.{IsFree, commit_acts, entries, freeze_acts};
ghost use Rattle.image_commands.specs.ImageSteps.{Adds, CommitCause, CommitTold, IsAsBefore, IsCommitSize, TellsCommit, fault, fault_of, freeze_refused_as};

use crate::image_reports::{Committed, push_committed};
use block_disk::{Disk, DiskFailed};
use byte_ports::Sink;
use image_core::{CopyFault, CopyState, FreezeFault, Image, SealFault};
use layer_commands::{Line, Refusal, write_text};
use std::alloc::Global;

fn is_same(one: &[u8; 16], other: &[u8; 16]) -> bool
    ensures { IsTrue result ↔ (one.now ≡ other.now) }
{
    one == other
}

// What the fault of a freeze is refused as. That the commit of the uuid is in progress is no refusal.
fn freeze_refusal(fault: FreezeFault, uuid: [u8; 16]) -> Result<(), Refusal>
    ensures own { OnOk result (fault ≡ FreezeFault.Busy uuid) }
    ensures refused { IfErr result (λ refusal. refusal ≡ freeze_refused_as fault) }
    ensures other { OnErr result (fault ≢ FreezeFault.Busy uuid) }
{
    match fault {
        FreezeFault::Busy(other) => {
            if is_same(&other, &uuid) {
                return Ok(());
            }
            Err(Refusal::Busy(other))
        }
        FreezeFault::TooMany => Err(Refusal::TooManyLayers),
        FreezeFault::UuidTwice => Err(Refusal::UuidTwice),
        FreezeFault::Memory => Err(Refusal::Memory),
        FreezeFault::Failed => Err(Refusal::DiskFault),
    }
}

// Freezes the top, or goes on where the commit of the uuid is in progress.
fn freeze_own<D: Disk>(alloc: Global, image: &mut Image<D>, uuid: [u8; 16]) -> Result<(), Refusal>
    requires standing { IsImage (seen D.Disk image.old) }
    requires named { uuid ≢ nil }
    requires steps { (view image.old).steps < 2 ^ 61 }
    ensures free { OnOk result (IsFree uuid (pending_in (view image.old))) }
    ensures adds { OnOk result (Adds (entries (freeze_acts uuid (pending_in (view image.old))))
        (seen D.Disk image.old) (seen D.Disk image.new)) }
    ensures pending { OnOk result (pending_in (view image.new) ≡ Some uuid) }
    ensures standing { OnOk result (IsImage (seen D.Disk image.new)) }
    ensures stepped { OnOk result ((view image.new).steps ≤ (view image.old).steps + 1) }
    ensures same { OnOk result (length (view image.new).committed ≡ length (view image.old).committed) }
    // 255 layers are the most
    ensures many { pending_in (view image.old) ≡ None → 255 ≤ length (uuids_in (view image.old))
        → IsErrOf result Refusal.TooManyLayers }
    ensures still { IsErrOf result Refusal.TooManyLayers → view image.new ≡ view image.old }
    ensures refused { IfErr result (CommitCause uuid (seen D.Disk image.old) (seen D.Disk image.new)) }
    ensures cause { Charges (faults_in D.Disk) image.old image.new (IsErrOf result Refusal.DiskFault) }
{
    match image.freeze(alloc, uuid) {
        Ok(()) => Ok(()),
        Err(fault) => freeze_refusal(fault, uuid),
    }
}

// Copies the next piece of the commit's file, and answers whether there are more.
fn copy_next<D: Disk>(image: &mut Image<D>, uuid: [u8; 16]) -> Result<bool, Refusal>
    requires standing { IsImage (seen D.Disk image.old) }
    requires pending { pending_in (view image.old) ≡ Some uuid }
    requires steps { (view image.old).steps < 2 ^ 62 }
    ensures same { OnOk result (IsAsBefore (seen D.Disk image.old) (seen D.Disk image.new)) }
    ensures standing { OnOk result (IsImage (seen D.Disk image.new)) }
    ensures pending { OnOk result (pending_in (view image.new) ≡ Some uuid) }
    ensures stepped { OnOk result ((view image.new).steps ≡ (view image.old).steps) }
    ensures total { OnOk result (total_of (view image.new).commit ≡ total_of (view image.old).commit) }
    ensures more { IfOk result (λ more. IsTrue more
        → (done_of (view image.new).commit ≡ done_of (view image.old).commit + 1)
        × (done_of (view image.new).commit ≤ total_of (view image.new).commit)) }
    ensures whole { IfOk result (λ more. more ≡ false
        → done_of (view image.new).commit ≡ total_of (view image.new).commit) }
    ensures failed { OnErr result (Adds fault (seen D.Disk image.old) (seen D.Disk image.new)) }
    ensures refused { IfErr result (λ refusal. refusal ≡ Refusal.DiskFault) }
    ensures cause { Charges (faults_in D.Disk) image.old image.new (IsErrOf result Refusal.DiskFault) }
{
    match image.copy(uuid) {
        Ok(CopyState::More) => Ok(true),
        Ok(CopyState::Whole) => Ok(false),
        Err(CopyFault::Failed) => Err(Refusal::DiskFault),
        Err(CopyFault::NotPending(_)) => unreachable!(),
    }
}

// Copies until the commit's file is whole.
fn copy_whole<D: Disk>(image: &mut Image<D>, uuid: [u8; 16]) -> Result<(), Refusal>
    requires standing { IsImage (seen D.Disk image.old) }
    requires pending { pending_in (view image.old) ≡ Some uuid }
    requires steps { (view image.old).steps < 2 ^ 62 }
    ensures same { OnOk result (IsAsBefore (seen D.Disk image.old) (seen D.Disk image.new)) }
    ensures standing { OnOk result (IsImage (seen D.Disk image.new)) }
    ensures pending { OnOk result (pending_in (view image.new) ≡ Some uuid) }
    ensures stepped { OnOk result ((view image.new).steps ≡ (view image.old).steps) }
    ensures whole { OnOk result (done_of (view image.new).commit ≡ total_of (view image.new).commit) }
    ensures failed { OnErr result (Adds fault (seen D.Disk image.old) (seen D.Disk image.new)) }
    ensures refused { IfErr result (λ refusal. refusal ≡ Refusal.DiskFault) }
    ensures cause { Charges (faults_in D.Disk) image.old image.new (IsErrOf result Refusal.DiskFault) }
{
    while copy_next(image, uuid)? {}
    Ok(())
}

// Seals the commit, of whose file no piece is left, and answers its epoch.
fn seal_whole<D: Disk>(image: &mut Image<D>, uuid: [u8; 16]) -> Result<u32, Refusal>
    requires standing { IsImage (seen D.Disk image.old) }
    requires pending { pending_in (view image.old) ≡ Some uuid }
    requires whole { done_of (view image.old).commit ≡ total_of (view image.old).commit }
    requires steps { (view image.old).steps < 2 ^ 62 }
    ensures adds { OnOk result (Adds (entries (Seal uuid ∷ [])) (seen D.Disk image.old) (seen D.Disk image.new)) }
    ensures epoch { IfOk result (λ epoch. epoch ≡ length (view image.old).committed) }
    ensures standing { OnOk result (IsImage (seen D.Disk image.new)) }
    ensures more { IfOk result (λ epoch. epoch < length (view image.new).committed) }
    ensures stepped { OnOk result ((view image.new).steps ≤ (view image.old).steps + 1) }
    ensures failed { OnErr result (Adds (fault_of (Uuid uuid)) (seen D.Disk image.old) (seen D.Disk image.new)) }
    ensures refused { IfErr result (λ refusal. refusal ≡ Refusal.DiskFault) }
    ensures cause { Charges (faults_in D.Disk) image.old image.new (IsErrOf result Refusal.DiskFault) }
{
    match image.seal(uuid) {
        Ok(epoch) => Ok(epoch),
        Err(SealFault::Failed) => Err(Refusal::DiskFault),
        Err(SealFault::NotPending(_)) | Err(SealFault::NotWhole { .. }) => unreachable!(),
    }
}

/// Commits the top as a layer with this uuid, and answers its epoch. It goes on where that commit is in
/// progress.
pub fn commit_whole<D: Disk>(
    alloc: Global,
    image: &mut Image<D>,
    uuid: [u8; 16],
) -> Result<u32, Refusal>
    requires standing { IsImage (seen D.Disk image.old) }
    requires named { uuid ≢ nil }
    requires steps { (view image.old).steps < 2 ^ 61 }
    ensures free { OnOk result (IsFree uuid (pending_in (view image.old))) }
    ensures adds { OnOk result (Adds (entries (commit_acts uuid (pending_in (view image.old))))
        (seen D.Disk image.old) (seen D.Disk image.new)) }
    ensures epoch { IfOk result (λ epoch. epoch ≡ length (view image.old).committed) }
    ensures more { IfOk result (λ epoch. epoch < length (view image.new).committed) }
    ensures standing { OnOk result (IsImage (seen D.Disk image.new)) }
    ensures stepped { OnOk result ((view image.new).steps ≤ (view image.old).steps + 2) }
    // 255 layers are the most
    ensures many { pending_in (view image.old) ≡ None → 255 ≤ length (uuids_in (view image.old))
        → IsErrOf result Refusal.TooManyLayers }
    ensures still { IsErrOf result Refusal.TooManyLayers → view image.new ≡ view image.old }
    ensures refused { IfErr result (CommitCause uuid (seen D.Disk image.old) (seen D.Disk image.new)) }
    ensures cause { Charges (faults_in D.Disk) image.old image.new (IsErrOf result Refusal.DiskFault) }
{
    freeze_own(alloc, image, uuid)?;
    copy_whole(image, uuid)?;
    seal_whole(image, uuid)
}

/// Commits the top as a layer with this uuid, and answers its epoch and the bytes of its file. It goes on
/// where that commit is in progress.
pub fn commit_kept<D: Disk>(
    alloc: Global,
    image: &mut Image<D>,
    uuid: [u8; 16],
) -> Result<Committed, Refusal>
    requires standing { IsImage (seen D.Disk image.old) }
    requires named { uuid ≢ nil }
    requires steps { (view image.old).steps < 2 ^ 61 }
    ensures free { OnOk result (IsFree uuid (pending_in (view image.old))) }
    ensures adds { OnOk result (Adds (entries (commit_acts uuid (pending_in (view image.old))))
        (seen D.Disk image.old) (seen D.Disk image.new)) }
    ensures epoch { IfOk result (λ layer. layer.epoch ≡ length (view image.old).committed) }
    ensures size { IfOk result (λ layer. IsCommitSize uuid (seen D.Disk image.old) layer.size) }
    ensures refused { IfErr result (CommitCause uuid (seen D.Disk image.old) (seen D.Disk image.new)) }
    ensures cause { Charges (faults_in D.Disk) image.old image.new (IsErrOf result Refusal.DiskFault) }
{
    let epoch = commit_whole(alloc, image, uuid)?;
    match image.sealed_length(epoch) {
        Ok(size) => Ok(Committed { epoch, size }),
        Err(DiskFailed) => Err(Refusal::DiskFault),
    }
}

/// Commits the top as a layer with this uuid, and tells of it. The line takes no memory.
pub fn commit_told<B: Sink, D: Disk>(
    alloc: Global,
    image: &mut Image<D>,
    uuid: [u8; 16],
    out: &mut B,
) -> Result<(), Refusal>
    requires standing { IsImage (seen D.Disk image.old) }
    requires named { uuid ≢ nil }
    requires steps { (view image.old).steps < 2 ^ 61 }
    ensures free { OnOk result (IsFree uuid (pending_in (view image.old))) }
    ensures adds { OnOk result (Adds (entries (commit_acts uuid (pending_in (view image.old))))
        (seen D.Disk image.old) (seen D.Disk image.new)) }
    ensures told { OnOk result (TellsCommit uuid (seen D.Disk image.old) (B.written out.old) (B.written out.new)) }
    ensures refused { IfErr result (CommitTold uuid (seen D.Disk image.old) (seen D.Disk image.new)
        (B.faults out.old) (B.faults out.new) (B.written out.old) (B.written out.new)) }
    ensures cause { Charges (faults_in D.Disk) image.old image.new (IsErrOf result Refusal.DiskFault) }
    ensures sink_cause { Charges B.faults out.old out.new (IsErrOf result Refusal.SinkFault) }
{
    let layer = commit_kept(alloc, image, uuid)?;
    let mut line = Line::new();
    push_committed(&mut line, uuid, layer);
    write_text(line.as_str().as_bytes(), out)
}
