//! A commit of a shared image, turn by turn.
ghost use Rattle.std.specs.Prelude.{◌≡◌, ◌≢◌, IsTrue, ◌↔◌, OnOk, IfErr, IsErrOf, Some, MatchOption};
ghost use Rattle.sector_extent.specs.Causes.{Charges};
ghost use Rattle.lsmt_header.specs.Blocks.{nil};
ghost use Rattle.flat_image.specs.History.{pending};
ghost use Rattle.flat_image.specs.Ports.{IsWorn, fault_count};
ghost use Rattle.shared_image.specs.Turns.{AsPort, IsIdleSeat, IsSameSeat};
ghost use Rattle.control_session.specs.ControlTable.{CommitFits};
ghost use Rattle.image_control.specs.Committing.{Begins, Ends, GoesOn, IsAnswerTo};

use block_disk::Disk;
use control_session::CommitAnswer;
use image_core::CopyState;
use shared_image::{ImageSeat, SharedCopyFault, SharedFreezeFault, SharedImage, SharedSealFault};
use std::alloc::Global;
use std::sync::Wait;

fn is_same(one: &[u8; 16], other: &[u8; 16]) -> bool
    ensures { IsTrue result ↔ (one.now ≡ other.now) }
{
    one == other
}

// What the fault of a freeze is answered as. That the commit of this uuid is in progress is no refusal.
fn freeze_answer(fault: SharedFreezeFault, uuid: [u8; 16]) -> Result<(), CommitAnswer>
    ensures own { OnOk result (fault ≡ SharedFreezeFault.Busy uuid) }
    ensures refused { IfErr result (IsAnswerTo uuid fault) }
{
    match fault {
        SharedFreezeFault::Worn => Err(CommitAnswer::Worn),
        SharedFreezeFault::Busy(other) => {
            if is_same(&other, &uuid) {
                return Ok(());
            }
            Err(CommitAnswer::Busy(other))
        }
        SharedFreezeFault::TooMany => Err(CommitAnswer::TooMany),
        SharedFreezeFault::UuidTwice => Err(CommitAnswer::UuidTwice),
        SharedFreezeFault::Memory => Err(CommitAnswer::Memory),
        SharedFreezeFault::Failed => Err(CommitAnswer::Failed),
    }
}

// Freezes the top, or finds the commit of this uuid in progress.
fn begin<D: Disk, R: Wait>(
    rt: &R,
    alloc: Global,
    image: &SharedImage<D>,
    seat: &mut ImageSeat<D>,
    uuid: [u8; 16],
) -> Result<(), CommitAnswer>
    requires seat { IsIdleSeat image.now seat.old }
    requires uuid { uuid ≢ nil }
    ensures same { IsSameSeat seat.old seat.new }
    ensures begins { OnOk result (AsPort image.now seat.old seat.new (λ old new. Begins old new uuid)) }
    ensures refused { IfErr result (λ answer. AsPort image.now seat.old seat.new
        (λ old new. CommitFits old new uuid answer)) }
    ensures worn { AsPort image.now seat.old seat.new
        (λ old _. IsWorn old → IsErrOf result CommitAnswer.Worn) }
{
    match image.freeze(rt, alloc, seat, uuid) {
        Ok(()) => Ok(()),
        Err(fault) => freeze_answer(fault, uuid),
    }
}

// Seals the commit, of whose file no piece was left. None says that it is to be copied further.
fn seal_next<D: Disk, R: Wait>(
    rt: &R,
    image: &SharedImage<D>,
    seat: &mut ImageSeat<D>,
    uuid: [u8; 16],
) -> Option<CommitAnswer>
    requires seat { IsIdleSeat image.now seat.old }
    requires pending { pending image.now.base seat.old.seen ≡ Some uuid }
    ensures same { IsSameSeat seat.old seat.new }
    ensures next { AsPort image.now seat.old seat.new (λ old new. MatchOption result (GoesOn old new uuid)
        (Ends old new uuid)) }
{
    match image.seal(rt, seat, uuid) {
        Ok(_) => Some(CommitAnswer::Done),
        Err(SharedSealFault::Worn) => Some(CommitAnswer::Worn),
        // Only a seal of this uuid ends its commit.
        Err(SharedSealFault::NotPending(_)) => Some(CommitAnswer::Done),
        Err(SharedSealFault::NotWhole { .. }) => None,
        Err(SharedSealFault::Failed) => Some(CommitAnswer::Failed),
    }
}

// Copies the next piece of the commit's file, and seals it once there is none. None says that the commit is
// not yet at its end.
fn step_on<D: Disk, R: Wait>(
    rt: &R,
    image: &SharedImage<D>,
    seat: &mut ImageSeat<D>,
    uuid: [u8; 16],
) -> Option<CommitAnswer>
    requires seat { IsIdleSeat image.now seat.old }
    requires pending { pending image.now.base seat.old.seen ≡ Some uuid }
    ensures same { IsSameSeat seat.old seat.new }
    ensures next { AsPort image.now seat.old seat.new (λ old new. MatchOption result (GoesOn old new uuid)
        (Ends old new uuid)) }
{
    match image.copy(rt, seat, uuid) {
        Ok(CopyState::More) => None,
        Ok(CopyState::Whole) => seal_next(rt, image, seat, uuid),
        Err(SharedCopyFault::Worn) => Some(CommitAnswer::Worn),
        // Only a seal of this uuid ends its commit.
        Err(SharedCopyFault::NotPending(_)) => Some(CommitAnswer::Done),
        Err(SharedCopyFault::Failed) => Some(CommitAnswer::Failed),
    }
}

// Carries the commit that is in progress to its end. Each piece is a turn of its own.
fn carry_on<D: Disk, R: Wait>(
    rt: &R,
    image: &SharedImage<D>,
    seat: &mut ImageSeat<D>,
    uuid: [u8; 16],
) -> CommitAnswer
    requires seat { IsIdleSeat image.now seat.old }
    requires pending { pending image.now.base seat.old.seen ≡ Some uuid }
    ensures same { IsSameSeat seat.old seat.new }
    ensures ends { AsPort image.now seat.old seat.new (λ old new. Ends old new uuid result) }
{
    for _ in rt.forever() {
        match step_on(rt, image, seat, uuid) {
            Some(answer) => return answer,
            None => {}
        }
    }
    unreachable!()
}

/// Freezes the top for this uuid, or goes on where its commit is in progress, copies it piece by piece and
/// seals it. Each of these is a turn of its own, so that others read and write in between.
pub(crate) fn commit<D: Disk, R: Wait>(
    rt: &R,
    alloc: Global,
    image: &SharedImage<D>,
    seat: &mut ImageSeat<D>,
    uuid: [u8; 16],
) -> CommitAnswer
    requires seat { IsIdleSeat image.now seat.old }
    requires uuid { uuid ≢ nil }
    ensures same { IsSameSeat seat.old seat.new }
    ensures answer { AsPort image.now seat.old seat.new (λ old new. CommitFits old new uuid result) }
    ensures cause { AsPort image.now seat.old seat.new
        (λ old new. Charges fault_count old new (result ≡ CommitAnswer.Failed)) }
    ensures worn { AsPort image.now seat.old seat.new (λ old _. IsWorn old → result ≡ CommitAnswer.Worn) }
{
    match begin(rt, alloc, image, seat, uuid) {
        Ok(()) => carry_on(rt, image, seat, uuid),
        Err(answer) => answer,
    }
}
