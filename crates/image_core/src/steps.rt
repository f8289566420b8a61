//! Lists of steps of an image, made one after another.
ghost use Rattle.std.specs.Prelude.{◌≡◌, ℕ, ◌+◌, ◌^◌, ◌<◌, ◌≤◌, ◌++◌, length, IfOk, OnOk, OnErr};
ghost use Rattle.flat_image.specs.declared.base.Base as bases;
ghost use Rattle.sector_extent.specs.Causes.{Charges};
ghost use Rattle.flat_image.specs.History.{History, now};
ghost use Rattle.image_core.specs.Seen.{seen, view, faults_in, IsImage, StandsFor, Goes};
ghost use Rattle.image_core.specs.Steps.{MayStep, MayRun, noted_with, noted_by, NotesFault, CountsPieces, IsReply, AreReplies, added, MakesNext, GoesBy};

use crate::commit::{CopyFault, CopyState, FreezeFault, SealFault};
use crate::growing::GrowFault;
use crate::image::Image;
use crate::status::Status;
use block_disk::{Disk, DiskFailed};
use flat_image::Stands;
use sector_extent::{Bytes, Extent, GapList, ListOf, Memory};
use std::alloc::Global;
use std::mem::replace;
use top_writer::{ReadFault, WriteFault};

/// A step of an image.
#[derive(Debug, Drop)]
pub enum Step {
    /// The top's part of a read.
    Plan(Extent),
    /// A write of these sectors.
    Write(Extent, Bytes),
    /// Zeros for these sectors.
    Zero(Extent),
    /// All that was written and zeroed is put onto the disk.
    Flush,
    /// The image gets so many sectors.
    Grow(u64),
    /// The top is frozen, to become a layer with this uuid.
    Freeze([u8; 16]),
    /// The next piece of the file of the commit with this uuid is written.
    Copy([u8; 16]),
    /// The file of the commit with this uuid becomes a layer.
    Seal([u8; 16]),
    /// The files of tops that became layers are emptied.
    Sweep,
    /// What the image says of itself.
    Status,
}

/// A step with its caller's number.
#[derive(Debug, Drop)]
pub struct Numbered {
    pub number: u32,
    pub step: Step,
}

/// Steps in order.
pub type StepList = ListOf<Numbered>;

/// What a step answered.
#[derive(Debug, Drop)]
pub enum Reply {
    /// The sectors of the extent, in which the top's are put over zeros, and the others as gaps.
    Planned {
        outcome: Result<(), ReadFault>,
        bytes: Bytes,
        gaps: GapList,
    },
    Wrote(Result<(), WriteFault>),
    Zeroed(Result<(), WriteFault>),
    Flushed(Result<(), DiskFailed>),
    Grown(Result<(), GrowFault>),
    Frozen(Result<(), FreezeFault>),
    Copied(Result<CopyState, CopyFault>),
    /// The epoch of the layer.
    SealedAs(Result<u32, SealFault>),
    Swept(Result<u32, DiskFailed>),
    Now(Status),
}

/// Replies in order.
pub type ReplyList = ListOf<Reply>;

// The reply to a plan.
fn planned(outcome: Result<(), ReadFault>, bytes: Vec<u8>, gaps: GapList) -> Reply
    ensures { result ≡ Reply.Planned outcome bytes.items gaps }
{
    Reply::Planned {
        outcome,
        bytes: Bytes::from_vec(bytes),
        gaps,
    }
}

// The plan of an extent into bytes that are made for it.
fn plan_step<D: Disk>(alloc: Global, image: &mut Image<D>, extent: Extent) -> Result<Reply, Memory>
    requires standing { IsImage (seen D.Disk image.old) }
    requires within { extent.at + extent.count ≤ (view image.old).sectors }
    requires steps { (view image.old).steps < 2 ^ 62 }
    ensures goes { IfOk result (λ reply. Goes (seen D.Disk image.old) (seen D.Disk image.new)
        (noted_with (Step.Plan extent) reply)) }
    ensures reply { IfOk result (λ reply. (base : bases.Base) (history : History)
        → StandsFor (seen D.Disk image.old) base history
        → IsReply D.tells (now base history) (Step.Plan extent) reply) }
    ensures cause { IfOk result (λ reply. Charges (faults_in D.Disk) image.old image.new
        (NotesFault (noted_with (Step.Plan extent) reply))) }
    ensures err { OnErr result (image.new ≡ image.old) }
{
    let mut bytes = vec![in alloc; 0; 512 * extent.count as usize]?;
    let mut gaps = GapList::from_vec(Vec::new(alloc));
    match image.plan(alloc, extent, bytes.as_mut_slice(), &mut gaps) {
        Ok(_) => Ok(planned(Ok(()), bytes, gaps)),
        Err(fault) => Ok(planned(Err(fault), bytes, gaps)),
    }
}

// Makes a step. Without memory for its reply it is not made.
fn make_step<D: Disk>(alloc: Global, image: &mut Image<D>, step: &Step) -> Result<Reply, Memory>
    requires standing { IsImage (seen D.Disk image.old) }
    requires may { MayStep (view image.old).sectors step.now }
    requires steps { (view image.old).steps < 2 ^ 62 }
    ensures goes { IfOk result (λ reply. Goes (seen D.Disk image.old) (seen D.Disk image.new)
        (noted_with step.now reply)) }
    ensures reply { IfOk result (λ reply. (base : bases.Base) (history : History)
        → StandsFor (seen D.Disk image.old) base history → IsReply D.tells (now base history) step.now reply) }
    ensures cause { IfOk result (λ reply. Charges (faults_in D.Disk) image.old image.new
        (NotesFault (noted_with step.now reply))) }
    ensures pieces { IfOk result (CountsPieces (view image.old) (view image.new) step.now) }
    ensures err { OnErr result (image.new ≡ image.old) }
{
    match step {
        Step::Plan(extent) => plan_step(alloc, image, *extent),
        Step::Write(extent, bytes) => Ok(Reply::Wrote(image.write(*extent, bytes.as_slice()))),
        Step::Zero(extent) => Ok(Reply::Zeroed(image.zero(*extent))),
        Step::Flush => Ok(Reply::Flushed(image.flush())),
        Step::Grow(sectors) => Ok(Reply::Grown(image.grow(*sectors))),
        Step::Freeze(uuid) => Ok(Reply::Frozen(image.freeze(alloc, *uuid))),
        Step::Copy(uuid) => Ok(Reply::Copied(image.copy(*uuid))),
        Step::Seal(uuid) => Ok(Reply::SealedAs(image.seal(*uuid))),
        Step::Sweep => Ok(Reply::Swept(image.sweep())),
        Step::Status => Ok(Reply::Now(image.status())),
    }
}

// Makes a step, and adds its reply. Without memory for these it does neither.
fn make_next<D: Disk>(
    alloc: Global,
    image: &mut Image<D>,
    numbered: &Numbered,
    replies: &mut Vec<Reply>,
) -> Result<(), Memory>
    requires standing { IsImage (seen D.Disk image.old) }
    requires may { MayStep (view image.old).sectors numbered.now.step }
    requires steps { (view image.old).steps < 2 ^ 62 }
    ensures ok { OnOk result (MakesNext (seen D.Disk image.old) (seen D.Disk image.new)
        numbered.now replies.old.items replies.new.items) }
    ensures image { OnErr result (image.new ≡ image.old) }
    ensures replies { OnErr result (replies.new.items ≡ replies.old.items) }
{
    replies.reserve(1)?;
    let reply = make_step(alloc, image, &numbered.step)?;
    replies.push_reserved(reply);
    Ok(())
}

// Makes the steps in order.
fn make_all<D: Disk>(
    alloc: Global,
    image: &mut Image<D>,
    list: &[Numbered],
    replies: &mut Vec<Reply>,
) -> Result<(), Memory>
    requires standing { IsImage (seen D.Disk image.old) }
    requires may { MayRun (view image.old).sectors list.now }
    requires steps { (view image.old).steps + length list.now ≤ 2 ^ 62 }
    ensures replies { replies.new.items ≡ replies.old.items ++ added replies.old.items replies.new.items }
    ensures all { OnOk result (length (added replies.old.items replies.new.items) ≡ length list.now) }
    ensures some { OnErr result (length (added replies.old.items replies.new.items) < length list.now) }
    ensures goes { GoesBy D.Disk image.old image.new list.now (added replies.old.items replies.new.items) }
    ensures stands { (base : bases.Base) (history : History) → StandsFor (seen D.Disk image.old) base history
        → StandsFor (seen D.Disk image.new) base
        (history ++ noted_by list.now (added replies.old.items replies.new.items)) }
    ensures right { (base : bases.Base) (history : History) → StandsFor (seen D.Disk image.old) base history
        → AreReplies D.tells base history list.now (added replies.old.items replies.new.items) }
{
    for numbered in list {
        make_next(alloc, image, numbered, replies)?;
    }
    Ok(())
}

/// Makes the steps of a list in order, and adds a reply for each behind those that are there. Ranges lie
/// in the image as it is before the list. A step that is refused, or that the disk fails in, has that as
/// its reply, and the list goes on. Without memory for a plan's bytes or for a reply it stops before that
/// step.
pub fn run_steps<D: Disk>(
    alloc: Global,
    image: &mut Image<D>,
    list: &StepList,
    replies: &mut ReplyList,
) -> Result<(), Memory>
    requires standing { IsImage (seen D.Disk image.old) }
    requires may { MayRun (view image.old).sectors list.now }
    requires steps { (view image.old).steps + length list.now ≤ 2 ^ 62 }
    ensures replies { replies.new ≡ replies.old ++ added replies.old replies.new }
    ensures all { OnOk result (length (added replies.old replies.new) ≡ length list.now) }
    ensures some { OnErr result (length (added replies.old replies.new) < length list.now) }
    // each step from the image that the one before it left, with its own reply, fault and moments
    ensures goes { GoesBy D.Disk image.old image.new list.now (added replies.old replies.new) }
    ensures stands { (base : bases.Base) (history : History) → StandsFor (seen D.Disk image.old) base history
        → StandsFor (seen D.Disk image.new) base (history ++ noted_by list.now (added replies.old replies.new)) }
    ensures right { (base : bases.Base) (history : History) → StandsFor (seen D.Disk image.old) base history
        → AreReplies D.tells base history list.now (added replies.old replies.new) }
{
    let mut taken = replace(replies, ReplyList::from_vec(Vec::new(alloc))).into_vec();
    let outcome = make_all(alloc, image, list.as_slice(), &mut taken);
    *replies = ReplyList::from_vec(taken);
    outcome
}
