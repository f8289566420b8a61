//! Writes sectors of an image to a sink.
ghost use Rattle.std.specs.Prelude.{◌≡◌, ℕ, ◌+◌, ◌*◌, ◌^◌, ◌<◌, ◌≤◌, [], length, IfErr, OnErr, OnOk, IsErrOf};
ghost use Rattle.std.specs.Option.{ForSome};
ghost use Rattle.image_core.specs.View.{AreLayersOf};
ghost use Rattle.image_core.specs.Seen.{seen, view, faults_in, IsImage};
ghost use Rattle.sector_extent.specs.Causes.{Charges};
ghost use Rattle.layer_shelf.specs.Shelves.{SameFiles};
ghost use Rattle.image_commands.specs.ImageSteps.{Adds, WritesSectors, WritesFront, ReadCause, whole_cause};

use block_disk::Disk;
use byte_ports::Sink;
use image_core::{Image, WholeFault};
use layer_commands::Refusal;
use layer_shelf::Shelf;
use sector_extent::{Extent, SECTOR};
use std::alloc::Global;

/// Sectors of a piece, 1 MiB of them.
const PIECE_SECTORS: u64 = 2048;

/// The extent of these sectors of an image.
pub fn extent_of(at: u64, count: u64) -> Extent
    requires { at + count ≤ 2 ^ 31 }
    ensures place { result.at ≡ at }
    ensures count { result.count ≡ count }
{
    match Extent::new(at, count) {
        Some(extent) => extent,
        None => unreachable!(),
    }
}

/// What the fault of a whole read is refused as.
fn whole_refusal(fault: WholeFault) -> Refusal
    ensures { result ≡ whole_cause fault }
{
    match fault {
        WholeFault::Memory => Refusal::Memory,
        WholeFault::DiskFault => Refusal::DiskFault,
        WholeFault::ShelfFault => Refusal::ShelfFault,
    }
}

/// Reads `count` sectors from `at` on into `piece`, and writes them with one call.
fn copy_piece<B: Sink, S: Shelf, D: Disk>(
    alloc: Global,
    image: &mut Image<D>,
    shelf: &mut S,
    at: u64,
    count: u64,
    piece: &mut [u8],
    out: &mut B,
) -> Result<(), Refusal>
    requires standing { IsImage (seen D.Disk image.old) }
    requires size { length piece.old ≡ 512 * count }
    requires within { at + count ≤ (view image.old).sectors }
    requires limit { at + count ≤ 2 ^ 31 }
    requires steps { (view image.old).steps < 2 ^ 62 }
    requires count { S.count shelf.old ≡ length (view image.old).lowers }
    requires told { ForSome (S.files shelf.old) (λ files. AreLayersOf files (view image.old).lowers) }
    ensures adds { OnOk result (Adds [] (seen D.Disk image.old) (seen D.Disk image.new)) }
    ensures done { OnOk result (WritesSectors (seen D.Disk image.old)
        (S.files shelf.old) at count (B.written out.old) (B.written out.new)) }
    ensures front { OnErr result (WritesFront (seen D.Disk image.old)
        (S.files shelf.old) at count (B.written out.old) (B.written out.new)) }
    ensures refused { IfErr result (ReadCause (seen D.Disk image.old) (seen D.Disk image.new)
        (S.faults shelf.old) (S.faults shelf.new) (B.faults out.old) (B.faults out.new)) }
    ensures lowers { (view image.new).lowers ≡ (view image.old).lowers }
    ensures sectors { (view image.new).sectors ≡ (view image.old).sectors }
    ensures stepped { (view image.new).steps ≤ (view image.old).steps + 1 }
    ensures cause { Charges (faults_in D.Disk) image.old image.new (IsErrOf result Refusal.DiskFault) }
    ensures shelf_cause { Charges S.faults shelf.old shelf.new (IsErrOf result Refusal.ShelfFault) }
    ensures sink_cause { Charges B.faults out.old out.new (IsErrOf result Refusal.SinkFault) }
    ensures same { SameFiles S.files S.count shelf.old shelf.new }
{
    match image.read_whole(alloc, shelf, extent_of(at, count), piece) {
        Ok(()) => {}
        Err(fault) => return Err(whole_refusal(fault)),
    }
    match out.write_all(piece) {
        Ok(()) => Ok(()),
        Err(_) => Err(Refusal::SinkFault),
    }
}

/// Writes `count` sectors of the image from `at` on, piece by piece: each is read into one buffer, and
/// written with one call.
pub fn copy_sectors<B: Sink, S: Shelf, D: Disk>(
    alloc: Global,
    image: &mut Image<D>,
    shelf: &mut S,
    at: u64,
    count: u64,
    out: &mut B,
) -> Result<(), Refusal>
    requires standing { IsImage (seen D.Disk image.old) }
    requires within { at + count ≤ (view image.old).sectors }
    requires limit { at + count ≤ 2 ^ 31 }
    requires steps { (view image.old).steps < 2 ^ 61 }
    requires count { S.count shelf.old ≡ length (view image.old).lowers }
    requires told { ForSome (S.files shelf.old) (λ files. AreLayersOf files (view image.old).lowers) }
    ensures adds { OnOk result (Adds [] (seen D.Disk image.old) (seen D.Disk image.new)) }
    ensures done { OnOk result (WritesSectors (seen D.Disk image.old)
        (S.files shelf.old) at count (B.written out.old) (B.written out.new)) }
    ensures front { OnErr result (WritesFront (seen D.Disk image.old)
        (S.files shelf.old) at count (B.written out.old) (B.written out.new)) }
    ensures refused { IfErr result (ReadCause (seen D.Disk image.old) (seen D.Disk image.new)
        (S.faults shelf.old) (S.faults shelf.new) (B.faults out.old) (B.faults out.new)) }
    ensures cause { Charges (faults_in D.Disk) image.old image.new (IsErrOf result Refusal.DiskFault) }
    ensures shelf_cause { Charges S.faults shelf.old shelf.new (IsErrOf result Refusal.ShelfFault) }
    ensures sink_cause { Charges B.faults out.old out.new (IsErrOf result Refusal.SinkFault) }
{
    let room = count.min(PIECE_SECTORS) as usize * SECTOR;
    let mut buffer = vec![in alloc; 0; room]?;
    let mut done = 0;
    while done < count {
        let part = (count - done).min(PIECE_SECTORS);
        let size = part as usize * SECTOR;
        copy_piece(
            alloc,
            image,
            shelf,
            at + done,
            part,
            &mut buffer[..size],
            out,
        )?;
        done += part;
    }
    Ok(())
}
