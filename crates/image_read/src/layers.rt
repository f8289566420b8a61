//! A seat of a shared image beside a shelf, and the layers as it reads them.
ghost use Rattle.std.specs.Prelude.{◌≡◌, ℕ, ◌+◌, ◌*◌, ◌^◌, ◌<◌, ◌≤◌, ◌&&◌, false, length, is_some, MatchResult, IsErrOf};
ghost use Rattle.std.specs.Arc.{arc_value};
ghost use Rattle.std.specs.Option.{ForSome};
ghost use Rattle.flat_image.specs.declared.act.Act.TheVariants as act;
ghost use Rattle.flat_image.specs.History.{committed};
ghost use Rattle.flat_image.specs.Ports.{IsWorn, ChargesPort, Makes, ChangeFails, Flushes, FlushFails};
ghost use Rattle.shared_image.specs.Turns.{IsIdleSeat, Plans, PlanFails};
ghost use Rattle.image_read.specs.Reading.{reader_port, StillThere};

use block_disk::Disk;
use flat_image::PortFault;
use image_core::{LayerSource, Snapshot};
use layer_shelf::{Shelf, ShelfFailed};
use sector_extent::{Extent, FileTexts, GapList, SECTOR};
use shared_image::{ImageSeat, SharedImage};
use std::alloc::Global;
use std::sync::{Arc, Wait};
use turn_lock::{Property, Said};

/// A seat of a shared image, beside a shelf with the image's lower layers.
#[derive(Drop)]
pub(crate) struct Layers<'a, D: Disk, S: Shelf, R> {
    rt: &'a R,
    image: &'a SharedImage<D>,
    seat: ImageSeat<D>,
    shelf: S,
    // the files that were committed by the last plan
    done: Said<FileTexts>,
    ghost seat_is: { IsIdleSeat image.now seat },
    ghost count_is: { S.count shelf ≡ length image.now.base.lowers },
    ghost files_are: { ForSome (S.files shelf) (λ files. files ≡ image.now.base.lowers) },
    ghost counted: { image.now.first + length seat.seen ≤ 2 ^ 62 },
    ghost still_there: { StillThere (committed image.now.base seat.seen) done.value },
}

// A seat, and the image it belongs to.
#[derive(Drop)]
struct Beside<'a, D: Disk> {
    image: &'a SharedImage<D>,
    seat: &'a ImageSeat<D>,
}

// The files that are committed by what the seat has seen.
struct Committed;

impl<'a, D: Disk> Property<Beside<'a, D>, FileTexts> for Committed {
    ghost use Rattle.std.specs.Prelude.{◌≡◌};
    ghost use Rattle.flat_image.specs.History.{committed};

    ghost holds = { λ beside files. files ≡ committed beside.image.now.base beside.seat.now.seen };
}

// Those files, which only contracts read.
fn committed_by<D: Disk>(image: &SharedImage<D>, seat: &ImageSeat<D>) -> Said<FileTexts>
    ensures { result.value ≡ committed image.now.base seat.now.seen }
{
    Said::such::<Beside<D>, Committed>(&Beside { image, seat })
}

impl<'a, D: Disk, S: Shelf, R: Wait> Layers<'a, D, S, R> {
    /// The shelf has the lower layers of the image.
    pub(crate) fn new(
        rt: &'a R,
        image: &'a SharedImage<D>,
        seat: ImageSeat<D>,
        shelf: S,
    ) -> Layers<'a, D, S, R>
        requires seat { IsIdleSeat image.now seat }
        requires count { S.count shelf ≡ length image.now.base.lowers }
        requires told { ForSome (S.files shelf) (λ files. files ≡ image.now.base.lowers) }
        requires counted { image.now.first + length seat.seen ≤ 2 ^ 62 }
        ensures image { result.image.now ≡ image.now }
        ensures seat { result.seat ≡ seat }
        ensures shelf { result.shelf ≡ shelf }
    {
        let done = committed_by(image, &seat);
        Layers {
            rt,
            image,
            seat,
            shelf,
            done,
        }
    }

    /// The seat and the shelf.
    pub(crate) fn into_parts(self) -> (ImageSeat<D>, S)
        ensures seat { result.0 ≡ self.entry.seat }
        ensures shelf { result.1 ≡ self.entry.shelf }
        ensures idle { IsIdleSeat self.entry.image.now result.0 }
        ensures count { S.count result.1 ≡ length self.entry.image.now.base.lowers }
        ensures told { ForSome (S.files result.1) (λ files. files ≡ self.entry.image.now.base.lowers) }
        ensures counted { self.entry.image.now.first + length result.0.seen ≤ 2 ^ 62 }
    {
        let Layers {
            rt: _,
            image: _,
            seat,
            shelf,
            done: _,
        } = self;
        (seat, shelf)
    }

    /// The sectors of the image.
    pub(crate) fn sectors(&self) -> u64
        ensures sectors { result ≡ self.now.image.now.base.sectors }
        ensures some { 1 ≤ result }
        ensures few { result ≤ 2 ^ 31 }
        ensures counted { self.now.image.now.first + length self.now.seat.seen ≤ 2 ^ 62 }
    {
        self.image.sectors()
    }

    /// The plan of the image. From then on the layers are those of the plan.
    pub(crate) fn plan(
        &mut self,
        alloc: Global,
        extent: Extent,
        out: &mut [u8],
        gaps: &mut GapList,
    ) -> Result<Arc<Snapshot>, PortFault>
        requires size { length out.old ≡ 512 * extent.count }
        requires within { extent.at + extent.count ≤ self.old.image.now.base.sectors }
        ensures plan { let old = reader_port D.tells (S.files self.old.shelf) self.old.image.now self.old.seat
            (S.faults self.old.shelf) in
            let new = reader_port D.tells (S.files self.new.shelf) self.new.image.now self.new.seat
            (S.faults self.new.shelf) in
            MatchResult result
            (λ snapshot. Plans D.tells old new extent out.old out.new gaps.new (arc_value snapshot))
            (PlanFails old new) }
        ensures cause { let old = reader_port D.tells (S.files self.old.shelf) self.old.image.now self.old.seat
            (S.faults self.old.shelf) in
            let new = reader_port D.tells (S.files self.new.shelf) self.new.image.now self.new.seat
            (S.faults self.new.shelf) in
            ChargesPort old new result }
        ensures worn { let old = reader_port D.tells (S.files self.old.shelf) self.old.image.now self.old.seat
            (S.faults self.old.shelf) in
            IsWorn old → IsErrOf result PortFault.Worn }
        ensures done { self.new.done.value ≡ committed self.new.image.now.base self.new.seat.seen }
    {
        let planned = self
            .image
            .plan(self.rt, alloc, &mut self.seat, extent, out, gaps);
        self.done = committed_by(self.image, &self.seat);
        planned
    }

    /// The write of the image.
    pub(crate) fn write(&mut self, extent: Extent, bytes: &[u8]) -> Result<(), PortFault>
        requires size { length bytes.now ≡ 512 * extent.count }
        requires within { extent.at + extent.count ≤ self.old.image.now.base.sectors }
        ensures write { let old = reader_port D.tells (S.files self.old.shelf) self.old.image.now self.old.seat
            (S.faults self.old.shelf) in
            let new = reader_port D.tells (S.files self.new.shelf) self.new.image.now self.new.seat
            (S.faults self.new.shelf) in
            MatchResult result (λ _. Makes old new (act.Write extent.at bytes.now))
            (ChangeFails old new (act.Write extent.at bytes.now)) }
        ensures cause { let old = reader_port D.tells (S.files self.old.shelf) self.old.image.now self.old.seat
            (S.faults self.old.shelf) in
            let new = reader_port D.tells (S.files self.new.shelf) self.new.image.now self.new.seat
            (S.faults self.new.shelf) in
            ChargesPort old new result }
        ensures worn { let old = reader_port D.tells (S.files self.old.shelf) self.old.image.now self.old.seat
            (S.faults self.old.shelf) in
            IsWorn old → IsErrOf result PortFault.Worn }
    {
        self.image.write(self.rt, &mut self.seat, extent, bytes)
    }

    /// The zero of the image.
    pub(crate) fn zero(&mut self, extent: Extent) -> Result<(), PortFault>
        requires within { extent.at + extent.count ≤ self.old.image.now.base.sectors }
        ensures zero { let old = reader_port D.tells (S.files self.old.shelf) self.old.image.now self.old.seat
            (S.faults self.old.shelf) in
            let new = reader_port D.tells (S.files self.new.shelf) self.new.image.now self.new.seat
            (S.faults self.new.shelf) in
            MatchResult result (λ _. Makes old new (act.Zero extent.at extent.count))
            (ChangeFails old new (act.Zero extent.at extent.count)) }
        ensures cause { let old = reader_port D.tells (S.files self.old.shelf) self.old.image.now self.old.seat
            (S.faults self.old.shelf) in
            let new = reader_port D.tells (S.files self.new.shelf) self.new.image.now self.new.seat
            (S.faults self.new.shelf) in
            ChargesPort old new result }
        ensures worn { let old = reader_port D.tells (S.files self.old.shelf) self.old.image.now self.old.seat
            (S.faults self.old.shelf) in
            IsWorn old → IsErrOf result PortFault.Worn }
    {
        self.image.zero(self.rt, &mut self.seat, extent)
    }

    /// The flush of the image.
    pub(crate) fn flush(&mut self) -> Result<(), PortFault>
        ensures flush { let old = reader_port D.tells (S.files self.old.shelf) self.old.image.now self.old.seat
            (S.faults self.old.shelf) in
            let new = reader_port D.tells (S.files self.new.shelf) self.new.image.now self.new.seat
            (S.faults self.new.shelf) in
            MatchResult result (λ _. Flushes old new) (FlushFails false old new) }
        ensures cause { let old = reader_port D.tells (S.files self.old.shelf) self.old.image.now self.old.seat
            (S.faults self.old.shelf) in
            let new = reader_port D.tells (S.files self.new.shelf) self.new.image.now self.new.seat
            (S.faults self.new.shelf) in
            ChargesPort old new result }
        ensures worn { let old = reader_port D.tells (S.files self.old.shelf) self.old.image.now self.old.seat
            (S.faults self.old.shelf) in
            IsWorn old → IsErrOf result PortFault.Worn }
    {
        self.image.flush(self.rt, &mut self.seat)
    }
}

impl<'a, D: Disk, S: Shelf, R: Wait> LayerSource for Layers<'a, D, S, R> {
    ghost use Rattle.std.specs.Prelude.{ℕ, ◌+◌, length};
    ghost use Rattle.flat_image.specs.Ports.{PortState};
    ghost use Rattle.image_core.specs.Sources.{files_told};
    ghost use Rattle.image_read.specs.Reading.{reader_port, ReadsOn, FailsOn};
    ghost use Rattle.image_read.specs.ReadingLaws.{reads-none, reads-joined, reads-failed};

    type Fault = PortFault;

    ghost files = { λ s. files_told D.tells (S.files s.shelf) s.done.value };

    ghost layers = { λ s. length s.image.now.base.lowers + length s.done.value };

    ghost reads = { λ old new.
        ReadsOn (reader_port D.tells (S.files old.shelf) old.image.now old.seat (S.faults old.shelf))
        (reader_port D.tells (S.files new.shelf) new.image.now new.seat (S.faults new.shelf)) };

    ghost fails = { λ old new fault.
        FailsOn (reader_port D.tells (S.files old.shelf) old.image.now old.seat (S.faults old.shelf))
        (reader_port D.tells (S.files new.shelf) new.image.now new.seat (S.faults new.shelf)) fault };

    // A lower layer is read outside of any turn, and a committed one in a turn of its own.
    fn read_sectors(&mut self, layer: u32, place: u64, out: &mut [u8]) -> Result<(), PortFault> {
        let lowers = self.shelf.count();
        if layer >= lowers {
            return self
                .image
                .peek(self.rt, &mut self.seat, layer - lowers, place, out);
        }
        match self.shelf.read(layer, SECTOR as u64 * place, out) {
            Ok(()) => Ok(()),
            Err(ShelfFailed) => Err(PortFault::Failed),
        }
    }

    ghost none = { λ source. reads-none _ };

    ghost joined = { λ old mid new first second. reads-joined _ _ _ first second };

    ghost failed = { λ old mid new fault first behind. reads-failed _ _ _ fault first behind };
}
