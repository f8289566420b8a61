ghost use Rattle.std.specs.Prelude.{◌≡◌, ℕ, ◌+◌, ◌*◌, ◌/◌, ◌^◌, ◌≤◌, ◌&&◌, false, is_some, length, MatchResult, IsErrOf};
ghost use Rattle.std.specs.Option.{ForSome};
ghost use Rattle.flat_image.specs.Ports.{IsWorn, ChargesPort, Reads, ReadFails};
ghost use Rattle.shared_image.specs.Turns.{seat_port, IsIdleSeat};
ghost use Rattle.image_read.specs.Reading.{IsSeatOf, reader_port};

use crate::layers::Layers;
use block_disk::Disk;
use flat_image::{ImagePort, PortFault};
use layer_shelf::Shelf;
use sector_extent::{Extent, GapList, SECTOR};
use shared_image::{ImageSeat, SharedImage};
use std::alloc::Global;
use std::sync::Wait;

/// A port over a shared image, with a seat and a shelf of its own. A read takes its place in the history
/// by one turn. What the image has not above its layers is read outside of that turn: lower layers from
/// the shelf, and committed ones by a turn for each run of sectors.
#[derive(Drop)]
pub struct Reader<'a, D: Disk, S: Shelf, R> {
    alloc: Global,
    layers: Layers<'a, D, S, R>,
    gaps: GapList,
}

impl<'a, D: Disk, S: Shelf, R: Wait> Reader<'a, D, S, R> {
    /// The shelf has the lower layers of the image.
    pub fn new(
        rt: &'a R,
        alloc: Global,
        image: &'a SharedImage<D>,
        seat: ImageSeat<D>,
        shelf: S,
    ) -> Reader<'a, D, S, R>
        requires seat { IsIdleSeat image.now seat }
        requires count { S.count shelf ≡ length image.now.base.lowers }
        requires told { ForSome (S.files shelf) (λ files. files ≡ image.now.base.lowers) }
        requires counted { image.now.first + length seat.seen ≤ 2 ^ 62 }
        ensures { ⟦<Reader<'a, D, S, R> as ImagePort>⟧.state result
            ≡ seat_port (D.tells && is_some (S.files shelf)) image.now seat (S.faults shelf) }
    {
        Reader {
            alloc,
            layers: Layers::new(rt, image, seat, shelf),
            gaps: GapList::from_vec(Vec::new(alloc)),
        }
    }

    /// The seat and the shelf.
    pub fn into_parts(self) -> (ImageSeat<D>, S)
        ensures seat { IsSeatOf (⟦<Reader<'a, D, S, R> as ImagePort>⟧.state self.entry) result.0 (S.faults result.1) }
        ensures count { S.count result.1 ≡ length (⟦<Reader<'a, D, S, R> as ImagePort>⟧.state self.entry).base.lowers }
        ensures told { ForSome (S.files result.1) (λ files.
            files ≡ (⟦<Reader<'a, D, S, R> as ImagePort>⟧.state self.entry).base.lowers) }
        ensures tells { (⟦<Reader<'a, D, S, R> as ImagePort>⟧.state self.entry).tells
            ≡ (D.tells && is_some (S.files result.1)) }
    {
        let Reader {
            alloc: _,
            layers,
            gaps: _,
        } = self;
        layers.into_parts()
    }
}

// Reads by one plan, and what the tops have not from the layers, outside of the plan's turn.
fn read_planned<'a, D: Disk, S: Shelf, R: Wait>(
    alloc: Global,
    layers: &mut Layers<'a, D, S, R>,
    gaps: &mut GapList,
    extent: Extent,
    out: &mut [u8],
) -> Result<(), PortFault>
    requires size { length out.old ≡ 512 * extent.count }
    requires within { extent.at + extent.count ≤ layers.old.image.now.base.sectors }
    ensures read { let old = reader_port D.tells (S.files layers.old.shelf) layers.old.image.now layers.old.seat
        (S.faults layers.old.shelf) in
        let new = reader_port D.tells (S.files layers.new.shelf) layers.new.image.now layers.new.seat
        (S.faults layers.new.shelf) in
        MatchResult result (λ _. Reads old new extent.at extent.count out.new)
        (ReadFails old new extent.at extent.count) }
    ensures cause { let old = reader_port D.tells (S.files layers.old.shelf) layers.old.image.now layers.old.seat
        (S.faults layers.old.shelf) in
        let new = reader_port D.tells (S.files layers.new.shelf) layers.new.image.now layers.new.seat
        (S.faults layers.new.shelf) in
        ChargesPort old new result }
    ensures worn { let old = reader_port D.tells (S.files layers.old.shelf) layers.old.image.now layers.old.seat
        (S.faults layers.old.shelf) in
        IsWorn old → IsErrOf result PortFault.Worn }
{
    let snapshot = match layers.plan(alloc, extent, out, gaps) {
        Ok(snapshot) => snapshot,
        Err(fault) => return Err(fault),
    };
    snapshot.fill(layers, gaps.as_slice(), extent.at, out)
}

// The extent of `count` sectors from `at` on, within an image of `sectors` sectors.
fn part(sectors: u64, at: u64, count: u64) -> Extent
    requires within { at + count ≤ sectors }
    requires few { sectors ≤ 2 ^ 31 }
    ensures at { result.at ≡ at }
    ensures count { result.count ≡ count }
{
    Extent {
        at,
        count: count as u32,
    }
}

impl<'a, D: Disk, S: Shelf, R: Wait> ImagePort for Reader<'a, D, S, R> {
    ghost use Rattle.std.specs.Prelude.{false};
    ghost use Rattle.image_read.specs.Reading.{reader_port};

    ghost state = { λ r. reader_port D.tells (S.files r.layers.shelf) r.layers.image.now r.layers.seat
        (S.faults r.layers.shelf) };

    ghost flush_takes_memory = { false };

    fn sectors(&self) -> u64 {
        self.layers.sectors()
    }

    fn read(&mut self, at: u64, out: &mut [u8]) -> Result<(), PortFault> {
        let extent = part(self.layers.sectors(), at, (out.len() / SECTOR) as u64);
        read_planned(self.alloc, &mut self.layers, &mut self.gaps, extent, out)
    }

    fn write(&mut self, at: u64, bytes: &[u8]) -> Result<(), PortFault> {
        let extent = part(self.layers.sectors(), at, (bytes.len() / SECTOR) as u64);
        self.layers.write(extent, bytes)
    }

    fn zero(&mut self, at: u64, count: u64) -> Result<(), PortFault> {
        let extent = part(self.layers.sectors(), at, count);
        self.layers.zero(extent)
    }

    fn flush(&mut self) -> Result<(), PortFault> {
        self.layers.flush()
    }
}
