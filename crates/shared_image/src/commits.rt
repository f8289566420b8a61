//! The steps of a commit as turns, and reads of committed files.
ghost use Rattle.std.specs.Prelude.{◌≡◌, ◌≢◌, ◌+◌, ◌*◌, ◌^◌, ◌<◌, ◌≤◌, [], IsTrue, length, take, drop, slice_index_or, MatchResult, OnOk, IsErrOf};
ghost use Rattle.sector_extent.specs.Causes.{Charges};
ghost use Rattle.lsmt_header.specs.Blocks.{nil};
ghost use Rattle.flat_image.specs.declared.act.Act.TheVariants as act;
ghost use Rattle.flat_image.specs.declared.act.Asked.TheVariants as asked;
ghost use Rattle.flat_image.specs.History.{committed};
ghost use Rattle.flat_image.specs.Ports.{IsWorn, ChargesPort, fault_count};
ghost use Rattle.shared_image.specs.Closed.{AreKept};
ghost use Rattle.shared_image.specs.Commits.{NotesNone, NotesAllowed, FreezeFails, Copies, CopyFails, Seals, SealFails, PeekFails};
ghost use Rattle.shared_image.specs.Turns.{AsPort, IsIdleSeat, IsSameSeat};

use crate::faults::{SharedCopyFault, SharedFreezeFault, SharedSealFault};
use crate::shared::{ImageSeat, OfFault, SharedImage};
use block_disk::{Disk, DiskFailed};
use flat_image::{Act, Named, PortFault, Stands};
use image_core::{CopyFault, CopyState, FreezeFault, SealFault};
use std::alloc::Global;
use std::marker::Brand;
use std::sync::Wait;
use turn_lock::Worn;

impl<D: Disk> SharedImage<D> {
    /// Freezes the top for the commit of this uuid, and puts an empty top over it. All that the seat
    /// has seen is kept from then on. It takes all memory that the commit needs.
    pub fn freeze<R: Wait>(
        &self,
        rt: &R,
        alloc: Global,
        seat: &mut ImageSeat<D>,
        uuid: [u8; 16],
    ) -> Result<(), SharedFreezeFault>
        requires seat { IsIdleSeat self.now seat.old }
        requires uuid { uuid ≢ nil }
        ensures same { IsSameSeat seat.old seat.new }
        ensures freeze { AsPort self.now seat.old seat.new (λ old new. MatchResult result
            (λ _. NotesAllowed old new (act.Freeze uuid) (act.Freeze uuid)) (FreezeFails old new uuid)) }
        ensures kept { OnOk result (AreKept seat.new.seen) }
        ensures cause { AsPort self.now seat.old seat.new
            (λ old new. Charges fault_count old new (IsErrOf result SharedFreezeFault.Failed)) }
        ensures worn { AsPort self.now seat.old seat.new
            (λ old _. IsWorn old → IsErrOf result SharedFreezeFault.Worn) }
    {
        self.freeze_as::<Brand, Brand, R>(rt, alloc, seat, uuid)
    }

    // A freeze whose entry has that act, and where it fails the other one.
    fn freeze_as<N: Named<Act>, F: Named<Act>, R: Wait>(
        &self,
        rt: &R,
        alloc: Global,
        seat: &mut ImageSeat<D>,
        uuid: [u8; 16],
    ) -> Result<(), SharedFreezeFault>
        requires act { N.it ≡ act.Freeze uuid }
        requires fault { F.it ≡ act.Fault (asked.Uuid uuid) }
        requires seat { IsIdleSeat self.now seat.old }
        requires uuid { uuid ≢ nil }
        ensures same { IsSameSeat seat.old seat.new }
        ensures freeze { AsPort self.now seat.old seat.new (λ old new. MatchResult result
            (λ _. NotesAllowed old new (act.Freeze uuid) (act.Freeze uuid)) (FreezeFails old new uuid)) }
        ensures kept { OnOk result (AreKept seat.new.seen) }
        ensures worn { AsPort self.now seat.old seat.new
            (λ old _. IsWorn old → IsErrOf result SharedFreezeFault.Worn) }
    {
        let mut held = match self.turn.hold(rt, seat) {
            Ok(held) => held,
            Err(Worn) => return Err(SharedFreezeFault::Worn),
        };
        held.value.standing_law();
        match held.value.freeze(alloc, uuid) {
            Ok(()) => {
                self.turn.note::<N>(seat, held);
                Ok(())
            }
            Err(FreezeFault::Busy(other)) => {
                self.turn.give(seat, held);
                Err(SharedFreezeFault::Busy(other))
            }
            Err(FreezeFault::TooMany) => {
                self.turn.give(seat, held);
                Err(SharedFreezeFault::TooMany)
            }
            Err(FreezeFault::UuidTwice) => {
                self.turn.give(seat, held);
                Err(SharedFreezeFault::UuidTwice)
            }
            Err(FreezeFault::Memory) => {
                self.turn.give(seat, held);
                Err(SharedFreezeFault::Memory)
            }
            Err(FreezeFault::Failed) => {
                self.turn.note::<F>(seat, held);
                Err(SharedFreezeFault::Failed)
            }
        }
    }

    /// Copies the next piece of the commit of this uuid, and answers whether that was the last one. It
    /// notes nothing, and takes no memory.
    pub fn copy<R: Wait>(
        &self,
        rt: &R,
        seat: &mut ImageSeat<D>,
        uuid: [u8; 16],
    ) -> Result<CopyState, SharedCopyFault>
        requires seat { IsIdleSeat self.now seat.old }
        ensures same { IsSameSeat seat.old seat.new }
        ensures copy { AsPort self.now seat.old seat.new (λ old new. MatchResult result
            (λ _. Copies old new uuid) (CopyFails old new uuid)) }
        ensures cause { AsPort self.now seat.old seat.new
            (λ old new. Charges fault_count old new (IsErrOf result SharedCopyFault.Failed)) }
        ensures worn { AsPort self.now seat.old seat.new
            (λ old _. IsWorn old → IsErrOf result SharedCopyFault.Worn) }
    {
        let mut held = match self.turn.hold(rt, seat) {
            Ok(held) => held,
            Err(Worn) => return Err(SharedCopyFault::Worn),
        };
        held.value.standing_law();
        match held.value.copy(uuid) {
            Ok(state) => {
                self.turn.give(seat, held);
                Ok(state)
            }
            Err(CopyFault::NotPending(other)) => {
                self.turn.give(seat, held);
                Err(SharedCopyFault::NotPending(other))
            }
            Err(CopyFault::Failed) => {
                self.turn.note::<OfFault>(seat, held);
                Err(SharedCopyFault::Failed)
            }
        }
    }

    /// Ends the commit of this uuid, whose file is then the uppermost layer, and answers the file's
    /// epoch. It takes no memory.
    pub fn seal<R: Wait>(
        &self,
        rt: &R,
        seat: &mut ImageSeat<D>,
        uuid: [u8; 16],
    ) -> Result<u32, SharedSealFault>
        requires seat { IsIdleSeat self.now seat.old }
        ensures same { IsSameSeat seat.old seat.new }
        ensures seal { AsPort self.now seat.old seat.new (λ old new. MatchResult result
            (Seals old new uuid) (SealFails old new uuid)) }
        ensures cause { AsPort self.now seat.old seat.new
            (λ old new. Charges fault_count old new (IsErrOf result SharedSealFault.Failed)) }
        ensures worn { AsPort self.now seat.old seat.new
            (λ old _. IsWorn old → IsErrOf result SharedSealFault.Worn) }
    {
        self.seal_as::<Brand, Brand, R>(rt, seat, uuid)
    }

    // A seal whose entry has that act, and where it fails the other one.
    fn seal_as<N: Named<Act>, F: Named<Act>, R: Wait>(
        &self,
        rt: &R,
        seat: &mut ImageSeat<D>,
        uuid: [u8; 16],
    ) -> Result<u32, SharedSealFault>
        requires act { N.it ≡ act.Seal uuid }
        requires fault { F.it ≡ act.Fault (asked.Uuid uuid) }
        requires seat { IsIdleSeat self.now seat.old }
        ensures same { IsSameSeat seat.old seat.new }
        ensures seal { AsPort self.now seat.old seat.new (λ old new. MatchResult result
            (Seals old new uuid) (SealFails old new uuid)) }
        ensures worn { AsPort self.now seat.old seat.new
            (λ old _. IsWorn old → IsErrOf result SharedSealFault.Worn) }
    {
        let mut held = match self.turn.hold(rt, seat) {
            Ok(held) => held,
            Err(Worn) => return Err(SharedSealFault::Worn),
        };
        held.value.standing_law();
        match held.value.seal(uuid) {
            Ok(epoch) => {
                self.turn.note::<N>(seat, held);
                Ok(epoch)
            }
            Err(SealFault::NotPending(other)) => {
                self.turn.give(seat, held);
                Err(SharedSealFault::NotPending(other))
            }
            Err(SealFault::NotWhole { done, total }) => {
                self.turn.give(seat, held);
                Err(SharedSealFault::NotWhole { done, total })
            }
            Err(SealFault::Failed) => {
                self.turn.note::<F>(seat, held);
                Err(SharedSealFault::Failed)
            }
        }
    }

    /// Reads sectors of the committed file of that epoch. The seat has seen its commit. It notes
    /// nothing but a fault, and takes no memory. After a refusal `out` may hold anything.
    pub fn peek<R: Wait>(
        &self,
        rt: &R,
        seat: &mut ImageSeat<D>,
        epoch: u32,
        place: u64,
        out: &mut [u8],
    ) -> Result<(), PortFault>
        requires seat { IsIdleSeat self.now seat.old }
        requires committed { epoch < length (committed self.now.base seat.old.seen) }
        requires range { 512 * place + length out.old ≤ 2 ^ 50 }
        ensures same { IsSameSeat seat.old seat.new }
        ensures bytes { OnOk result (IsTrue D.tells → out.new ≡ take (length out.old)
            (drop (512 * place) (slice_index_or (committed self.now.base seat.old.seen) epoch []))) }
        ensures peek { AsPort self.now seat.old seat.new (λ old new. MatchResult result
            (λ _. NotesNone old new) (PeekFails old new)) }
        ensures cause { AsPort self.now seat.old seat.new (λ old new. ChargesPort old new result) }
        ensures worn { AsPort self.now seat.old seat.new (λ old _. IsWorn old → IsErrOf result PortFault.Worn) }
    {
        let mut held = match self.turn.hold(rt, seat) {
            Ok(held) => held,
            Err(Worn) => return Err(PortFault::Worn),
        };
        held.value.standing_law();
        match held.value.peek(epoch, place, out) {
            Ok(()) => {
                self.turn.give(seat, held);
                Ok(())
            }
            Err(DiskFailed) => {
                self.turn.note::<OfFault>(seat, held);
                Err(PortFault::Failed)
            }
        }
    }
}
