//! The image behind the lock.
ghost use Rattle.std.specs.Prelude.{◌≡◌, ℕ, ◌+◌, ◌*◌, ◌^◌, ◌<◌, ◌≤◌, List, [], length, false, All, Ok, IfOk, IfErr, IsErr, OnOk, MatchResult, IsErrOf};
ghost use Rattle.std.specs.Arc.{arc_value};
ghost use Rattle.flat_image.specs.declared.act.Act.TheVariants as act;
ghost use Rattle.flat_image.specs.Entries.{StartsWith};
ghost use Rattle.flat_image.specs.Ports.{IsWorn, ChargesPort, Makes, ChangeFails, Flushes, FlushFails};
ghost use Rattle.turn_lock.specs.Locks.{IsLater, AreSeats};
ghost use Rattle.image_core.specs.Seen.{seen, StandsFor};
ghost use Rattle.shared_image.specs.Closed.{AreKept, IsClosed};
ghost use Rattle.shared_image.specs.Turns.{AsPort, IsIdleSeat, IsSameSeat, Plans, PlanFails, Tells, TellFails};

use block_disk::{Disk, DiskFailed};
use flat_image::{Act, Base, Named, PortFault, Stands};
use image_core::{Image, Snapshot, Status};
use sector_extent::{Extent, GapList, Memory};
use std::alloc::Global;
use std::marker::{Brand, Model};
use std::sync::{Arc, Wait};
use top_writer::{ReadFault, WriteFault};
use turn_lock::{Seat, SeatList, Turn, Worn};

/// A seat of a shared image. A caller has one of its own.
pub type ImageSeat<D> = Seat<Image<D>>;

/// An image behind a lock. Contracts see the lock. Each call of its steps waits for the turn, makes one
/// step of the image, and gives the turn back before it returns.
#[derive(Drop)]
pub struct SharedImage<D: Disk> {
    pub(crate) turn: Turn<Image<D>>,
    sectors: u64,
    first: u64,
}

impl<D: Disk> Model for SharedImage<D> {
    ghost use Rattle.std.specs.Prelude.{◌≡◌, ◌≤◌, ◌^◌};
    ghost use Rattle.turn_lock.specs.Locks.{Lock};
    ghost use Rattle.flat_image.specs.declared.base.Base.{Base};

    ghost Value = { Lock Base };

    ghost view = { λ s. s.turn };

    ghost invariant = { λ s. (s.sectors ≡ s.turn.base.sectors) × (1 ≤ s.sectors) × (s.sectors ≤ 2 ^ 31)
        × (s.first ≡ s.turn.first) × (s.first ≤ 2 ^ 62) };
}

// A step that failed and has no uuid.
pub(crate) struct OfFault;

impl Named<Act> for OfFault {
    ghost use Rattle.flat_image.specs.declared.act.Act.TheVariants.{Fault};
    ghost use Rattle.flat_image.specs.declared.act.Asked.TheVariants.{Nothing};

    ghost it = { Fault Nothing };
}

// A flush.
struct OfFlush;

impl Named<Act> for OfFlush {
    ghost use Rattle.flat_image.specs.declared.act.Act.TheVariants.{Flush};

    ghost it = { Flush };
}

impl<D: Disk> SharedImage<D> {
    /// Shares an image that stands for the base that `N` names and for nothing done. It has so many
    /// seats, and its first entry will have the number `first`. Without memory the image comes back.
    pub fn start<N: Named<Base>>(
        alloc: Global,
        image: Image<D>,
        seats: u32,
        first: u64,
    ) -> Result<(SharedImage<D>, SeatList<Image<D>>), (Image<D>, Memory)>
        requires seats { 0 < seats }
        requires first { first ≤ 2 ^ 62 }
        requires stands { StandsFor (seen D.Disk image) N.it [] }
        ensures lock { IfOk result (λ made. (made.0.base ≡ N.it) × (made.0.first ≡ first)
            × (made.0.seats ≡ seats)) }
        ensures seats { IfOk result (λ made. AreSeats made.0.id seats made.1 × All (λ s. s.seen ≡ []) made.1) }
        ensures err { IfErr result (λ back. back.0 ≡ image) }
    {
        image.standing_law();
        let sectors = image.sectors();
        match Turn::start::<N>(alloc, image, seats, first) {
            Ok((turn, seats)) => Ok((
                SharedImage {
                    turn,
                    sectors,
                    first,
                },
                seats,
            )),
            Err(back) => Err(back),
        }
    }

    /// The sectors of the image. It waits for nobody.
    pub fn sectors(&self) -> u64
        ensures sectors { result ≡ self.now.base.sectors }
        ensures some { 1 ≤ result }
        ensures few { result ≤ 2 ^ 31 }
    {
        self.sectors
    }

    /// The part of a read that the image has above its layers, at the read's place in the history: its
    /// sectors in `out`, the others as `gaps`, and the layers in which these are to be searched. After a
    /// refusal `out` and `gaps` may hold anything.
    pub fn plan<R: Wait>(
        &self,
        rt: &R,
        alloc: Global,
        seat: &mut ImageSeat<D>,
        extent: Extent,
        out: &mut [u8],
        gaps: &mut GapList,
    ) -> Result<Arc<Snapshot>, PortFault>
        requires seat { IsIdleSeat self.now seat.old }
        requires size { length out.old ≡ 512 * extent.count }
        requires within { extent.at + extent.count ≤ self.now.base.sectors }
        ensures same { IsSameSeat seat.old seat.new }
        ensures plan { AsPort self.now seat.old seat.new (λ old new. MatchResult result
            (λ snapshot. Plans D.tells old new extent out.old out.new gaps.new (arc_value snapshot))
            (PlanFails old new)) }
        ensures cause { AsPort self.now seat.old seat.new (λ old new. ChargesPort old new result) }
        ensures worn { AsPort self.now seat.old seat.new (λ old _. IsWorn old → IsErrOf result PortFault.Worn) }
    {
        self.plan_as::<Brand, R>(rt, alloc, seat, extent, out, gaps)
    }

    // A plan whose entry has that act.
    fn plan_as<N: Named<Act>, R: Wait>(
        &self,
        rt: &R,
        alloc: Global,
        seat: &mut ImageSeat<D>,
        extent: Extent,
        out: &mut [u8],
        gaps: &mut GapList,
    ) -> Result<Arc<Snapshot>, PortFault>
        requires act { N.it ≡ act.Read extent.at extent.count }
        requires seat { IsIdleSeat self.now seat.old }
        requires size { length out.old ≡ 512 * extent.count }
        requires within { extent.at + extent.count ≤ self.now.base.sectors }
        ensures same { IsSameSeat seat.old seat.new }
        ensures plan { AsPort self.now seat.old seat.new (λ old new. MatchResult result
            (λ snapshot. Plans D.tells old new extent out.old out.new gaps.new (arc_value snapshot))
            (PlanFails old new)) }
        ensures worn { AsPort self.now seat.old seat.new (λ old _. IsWorn old → IsErrOf result PortFault.Worn) }
    {
        let mut held = match self.turn.hold(rt, seat) {
            Ok(held) => held,
            Err(Worn) => return Err(PortFault::Worn),
        };
        held.value.standing_law();
        held.value.below_law();
        match held.value.plan(alloc, extent, out, gaps) {
            Ok(snapshot) => {
                self.turn.note::<N>(seat, held);
                Ok(snapshot)
            }
            Err(ReadFault::Memory) => {
                self.turn.give(seat, held);
                Err(PortFault::Memory)
            }
            Err(ReadFault::Failed) => {
                self.turn.note::<OfFault>(seat, held);
                Err(PortFault::Failed)
            }
        }
    }

    /// Writes the sectors of an extent. They are kept from the next flush on, whoever's it is.
    pub fn write<R: Wait>(
        &self,
        rt: &R,
        seat: &mut ImageSeat<D>,
        extent: Extent,
        bytes: &[u8],
    ) -> Result<(), PortFault>
        requires seat { IsIdleSeat self.now seat.old }
        requires size { length bytes.now ≡ 512 * extent.count }
        requires within { extent.at + extent.count ≤ self.now.base.sectors }
        ensures same { IsSameSeat seat.old seat.new }
        ensures write { AsPort self.now seat.old seat.new (λ old new. MatchResult result
            (λ _. Makes old new (act.Write extent.at bytes.now))
            (ChangeFails old new (act.Write extent.at bytes.now))) }
        ensures cause { AsPort self.now seat.old seat.new (λ old new. ChargesPort old new result) }
        ensures worn { AsPort self.now seat.old seat.new (λ old _. IsWorn old → IsErrOf result PortFault.Worn) }
    {
        self.write_as::<Brand, R>(rt, seat, extent, bytes)
    }

    // A write whose entry has that act.
    fn write_as<N: Named<Act>, R: Wait>(
        &self,
        rt: &R,
        seat: &mut ImageSeat<D>,
        extent: Extent,
        bytes: &[u8],
    ) -> Result<(), PortFault>
        requires act { N.it ≡ act.Write extent.at bytes.now }
        requires seat { IsIdleSeat self.now seat.old }
        requires size { length bytes.now ≡ 512 * extent.count }
        requires within { extent.at + extent.count ≤ self.now.base.sectors }
        ensures same { IsSameSeat seat.old seat.new }
        ensures write { AsPort self.now seat.old seat.new (λ old new. MatchResult result
            (λ _. Makes old new N.it) (ChangeFails old new N.it)) }
        ensures worn { AsPort self.now seat.old seat.new (λ old _. IsWorn old → IsErrOf result PortFault.Worn) }
    {
        let mut held = match self.turn.hold(rt, seat) {
            Ok(held) => held,
            Err(Worn) => return Err(PortFault::Worn),
        };
        held.value.standing_law();
        match held.value.write(extent, bytes) {
            Ok(()) => {
                self.turn.note::<N>(seat, held);
                Ok(())
            }
            Err(WriteFault::Full { rows, sectors }) => {
                self.turn.give(seat, held);
                Err(PortFault::Full { rows, sectors })
            }
            Err(WriteFault::Memory) => {
                self.turn.give(seat, held);
                Err(PortFault::Memory)
            }
            Err(WriteFault::Failed) => {
                self.turn.note::<OfFault>(seat, held);
                Err(PortFault::Failed)
            }
        }
    }

    /// Makes the sectors of an extent zeros.
    pub fn zero<R: Wait>(
        &self,
        rt: &R,
        seat: &mut ImageSeat<D>,
        extent: Extent,
    ) -> Result<(), PortFault>
        requires seat { IsIdleSeat self.now seat.old }
        requires within { extent.at + extent.count ≤ self.now.base.sectors }
        ensures same { IsSameSeat seat.old seat.new }
        ensures zero { AsPort self.now seat.old seat.new (λ old new. MatchResult result
            (λ _. Makes old new (act.Zero extent.at extent.count))
            (ChangeFails old new (act.Zero extent.at extent.count))) }
        ensures cause { AsPort self.now seat.old seat.new (λ old new. ChargesPort old new result) }
        ensures worn { AsPort self.now seat.old seat.new (λ old _. IsWorn old → IsErrOf result PortFault.Worn) }
    {
        self.zero_as::<Brand, R>(rt, seat, extent)
    }

    // A zero whose entry has that act.
    fn zero_as<N: Named<Act>, R: Wait>(
        &self,
        rt: &R,
        seat: &mut ImageSeat<D>,
        extent: Extent,
    ) -> Result<(), PortFault>
        requires act { N.it ≡ act.Zero extent.at extent.count }
        requires seat { IsIdleSeat self.now seat.old }
        requires within { extent.at + extent.count ≤ self.now.base.sectors }
        ensures same { IsSameSeat seat.old seat.new }
        ensures zero { AsPort self.now seat.old seat.new (λ old new. MatchResult result
            (λ _. Makes old new N.it) (ChangeFails old new N.it)) }
        ensures worn { AsPort self.now seat.old seat.new (λ old _. IsWorn old → IsErrOf result PortFault.Worn) }
    {
        let mut held = match self.turn.hold(rt, seat) {
            Ok(held) => held,
            Err(Worn) => return Err(PortFault::Worn),
        };
        held.value.standing_law();
        match held.value.zero(extent) {
            Ok(()) => {
                self.turn.note::<N>(seat, held);
                Ok(())
            }
            Err(WriteFault::Full { rows, sectors }) => {
                self.turn.give(seat, held);
                Err(PortFault::Full { rows, sectors })
            }
            Err(WriteFault::Memory) => {
                self.turn.give(seat, held);
                Err(PortFault::Memory)
            }
            // a zero makes no call of the disk
            Err(WriteFault::Failed) => unreachable!(),
        }
    }

    /// Puts all that was written and zeroed onto the disk. After it every crash leaves all that the seat
    /// has seen. It takes no memory.
    pub fn flush<R: Wait>(&self, rt: &R, seat: &mut ImageSeat<D>) -> Result<(), PortFault>
        requires seat { IsIdleSeat self.now seat.old }
        ensures same { IsSameSeat seat.old seat.new }
        ensures flush { AsPort self.now seat.old seat.new (λ old new. MatchResult result
            (λ _. Flushes old new) (FlushFails false old new)) }
        ensures kept { OnOk result (AreKept seat.new.seen) }
        ensures cause { AsPort self.now seat.old seat.new (λ old new. ChargesPort old new result) }
        ensures worn { AsPort self.now seat.old seat.new (λ old _. IsWorn old → IsErrOf result PortFault.Worn) }
    {
        let mut held = match self.turn.hold(rt, seat) {
            Ok(held) => held,
            Err(Worn) => return Err(PortFault::Worn),
        };
        match held.value.flush() {
            Ok(()) => {
                self.turn.note::<OfFlush>(seat, held);
                Ok(())
            }
            Err(DiskFailed) => {
                self.turn.note::<OfFault>(seat, held);
                Err(PortFault::Failed)
            }
        }
    }

    /// What the image says of itself, and the number of the entry that comes next. It notes nothing.
    pub fn status<R: Wait>(&self, rt: &R, seat: &mut ImageSeat<D>) -> Result<(Status, u64), Worn>
        requires seat { IsIdleSeat self.now seat.old }
        ensures same { IsSameSeat seat.old seat.new }
        ensures status { AsPort self.now seat.old seat.new (λ old new. MatchResult result
            (λ answer. Tells old new answer.0 answer.1) (λ _. TellFails old new)) }
        ensures worn { AsPort self.now seat.old seat.new (λ old _. IsWorn old → IsErr result) }
    {
        let held = match self.turn.hold(rt, seat) {
            Ok(held) => held,
            Err(Worn) => return Err(Worn),
        };
        held.value.standing_law();
        let status = held.value.status();
        let count = self.first + held.value.steps();
        self.turn.give(seat, held);
        Ok((status, count))
    }

    /// Lets `to` see what `from` has seen. It waits for nobody and takes no memory.
    pub fn meet(&self, from: &mut ImageSeat<D>, to: &mut ImageSeat<D>) -> Result<(), Memory>
        requires lock { (from.old.lock ≡ self.now.id) × (to.old.lock ≡ self.now.id) }
        ensures from { from.new ≡ from.old }
        ensures later { IsLater to.old to.new }
        ensures turn { to.new.holds ≡ to.old.holds }
        ensures seen { StartsWith to.new.seen from.old.seen }
        ensures room { self.now.first + length to.new.seen ≤ 2 ^ 62 }
        ensures ok { result ≡ Ok tt }
    {
        self.turn.meet(from, to)
    }

    /// The image, once all seats are given back. It stands for the one history.
    pub fn close(self, seats: SeatList<Image<D>>) -> Image<D>
        requires { AreSeats self.id self.seats seats }
        ensures { IsClosed self seats (seen D.Disk result) }
    {
        let SharedImage {
            turn,
            sectors: _,
            first: _,
        } = self;
        turn.close(seats)
    }
}
