//! The commands on an image.
ghost use Rattle.std.specs.Prelude.{◌≡◌, ◌≢◌, ℕ, ◌+◌, ◌≤◌, ◌↔◌, List, Option, IsTrue, IfSome, IfErr, IsErrOf, OnOk};
ghost use Rattle.sector_extent.specs.Causes.{Charges};
ghost use Rattle.lsmt_header.specs.Blocks.{IsSize, nil};
ghost use Rattle.tool_setup.specs.declared.command.Command.TheVariants.{Commit, Create, Grow, Read, Sweep, Write, Zero};
ghost use Rattle.layer_commands.specs.declared.refusal.Refusal.TheVariants as refused;
ghost use Rattle.layer_commands.specs.Input.{TakesSectors};
ghost use Rattle.layer_commands.specs.Ports.{TakesAtMost, ports_of};
ghost use Rattle.image_commands.specs.declared.refusal.ImageRefusal.TheVariants.{Other};
ghost use Rattle.image_commands.specs.Images.{Does, IsInput, beside, disk_port};
ghost use Rattle.image_commands.specs.ImageCauses.{CommandCause};

use crate::changing::{write_told, zero_told};
use crate::committing::commit_told;
use crate::copying::{copy_sectors, extent_of};
use crate::growing::grow_told;
use crate::making::make_image;
use crate::opening::open_image;
use crate::reading::read_sectors;
use crate::refusal::{ImageRefusal, as_command};
use crate::sweeping::sweep_told;
use block_disk::Disk;
use byte_ports::{Sink, Source};
use layer_commands::{Refusal, write_text};
use layer_shelf::Shelf;
use sector_extent::SECTOR;
use std::alloc::Global;

/// Whether `at..at + count` lies within an image of `sectors` sectors.
fn is_within(sectors: u64, at: u64, count: u64) -> bool
    ensures { IsTrue result ↔ (at + count ≤ sectors) }
{
    count <= sectors && at <= sectors - count
}

/// Writes `count` sectors of the image from `at` on to the sink.
pub fn read_image<B: Sink, S: Shelf, D: Disk>(
    alloc: Global,
    at: u64,
    count: u64,
    shelf: &mut S,
    disk: D,
    out: &mut B,
) -> (Result<(), ImageRefusal>, D)
    ensures done { (left left_now : Option (List ℕ)) (source source_now : ℕ)
        → OnOk result.0 (Does (Read at count)
        (beside left source B.Sink S.Shelf out.old shelf.old)
        (beside left_now source_now B.Sink S.Shelf out.new shelf.new)
        (disk_port D.Disk disk) (disk_port D.Disk result.1)) }
    ensures refused { (left left_now : Option (List ℕ)) (source source_now : ℕ)
        → IfErr result.0 (CommandCause (Read at count)
        (beside left source B.Sink S.Shelf out.old shelf.old)
        (beside left_now source_now B.Sink S.Shelf out.new shelf.new)
        (disk_port D.Disk disk) (disk_port D.Disk result.1)) }
    ensures disk_cause { Charges D.faults disk result.1 (IsErrOf result.0 (Other refused.DiskFault)) }
    ensures shelf_cause { Charges S.faults shelf.old shelf.new (IsErrOf result.0 (Other refused.ShelfFault)) }
    ensures sink_cause { Charges B.faults out.old out.new (IsErrOf result.0 (Other refused.SinkFault)) }
{
    let mut image = match open_image(alloc, shelf, disk) {
        Ok(image) => image,
        Err((disk, refusal)) => return (Err(refusal), disk),
    };
    if !is_within(image.sectors(), at, count) {
        return (
            Err(ImageRefusal::Other(Refusal::OutOfRange)),
            image.into_disk(),
        );
    }
    let result = copy_sectors(alloc, &mut image, shelf, at, count, out);
    (as_command(result), image.into_disk())
}

/// Makes `count` sectors of the image from `at` on zeros.
pub fn zero_image<B: Sink, S: Shelf, D: Disk>(
    alloc: Global,
    at: u64,
    count: u64,
    shelf: &mut S,
    disk: D,
    out: &mut B,
) -> (Result<(), ImageRefusal>, D)
    ensures done { (left left_now : Option (List ℕ)) (source source_now : ℕ)
        → OnOk result.0 (Does (Zero at count)
        (beside left source B.Sink S.Shelf out.old shelf.old)
        (beside left_now source_now B.Sink S.Shelf out.new shelf.new)
        (disk_port D.Disk disk) (disk_port D.Disk result.1)) }
    ensures refused { (left left_now : Option (List ℕ)) (source source_now : ℕ)
        → IfErr result.0 (CommandCause (Zero at count)
        (beside left source B.Sink S.Shelf out.old shelf.old)
        (beside left_now source_now B.Sink S.Shelf out.new shelf.new)
        (disk_port D.Disk disk) (disk_port D.Disk result.1)) }
    ensures disk_cause { Charges D.faults disk result.1 (IsErrOf result.0 (Other refused.DiskFault)) }
    ensures shelf_cause { Charges S.faults shelf.old shelf.new (IsErrOf result.0 (Other refused.ShelfFault)) }
    ensures sink_cause { Charges B.faults out.old out.new (IsErrOf result.0 (Other refused.SinkFault)) }
{
    let mut image = match open_image(alloc, shelf, disk) {
        Ok(image) => image,
        Err((disk, refusal)) => return (Err(refusal), disk),
    };
    if !is_within(image.sectors(), at, count) {
        return (
            Err(ImageRefusal::Other(Refusal::OutOfRange)),
            image.into_disk(),
        );
    }
    let result = zero_told(alloc, &mut image, extent_of(at, count), out);
    (as_command(result), image.into_disk())
}

/// Writes these sectors, which were read of the source, into the image from `at` on.
fn write_bytes<B: Sink, S: Shelf, D: Disk>(
    alloc: Global,
    at: u64,
    bytes: &[u8],
    shelf: &mut S,
    disk: D,
    out: &mut B,
) -> (Result<(), ImageRefusal>, D)
    requires { IsInput bytes.now }
    ensures done { (left left_now : Option (List ℕ)) (source source_now : ℕ)
        → IfSome left (λ all. bytes.now ≡ all) → TakesSectors left left_now 33554432
        → OnOk result.0 (Does (Write at)
        (beside left source B.Sink S.Shelf out.old shelf.old)
        (beside left_now source_now B.Sink S.Shelf out.new shelf.new)
        (disk_port D.Disk disk) (disk_port D.Disk result.1)) }
    ensures refused { (left left_now : Option (List ℕ)) (source source_now : ℕ)
        → IfSome left (λ all. bytes.now ≡ all) → TakesSectors left left_now 33554432
        → IfErr result.0 (CommandCause (Write at)
        (beside left source B.Sink S.Shelf out.old shelf.old)
        (beside left_now source_now B.Sink S.Shelf out.new shelf.new)
        (disk_port D.Disk disk) (disk_port D.Disk result.1)) }
    ensures disk_cause { Charges D.faults disk result.1 (IsErrOf result.0 (Other refused.DiskFault)) }
    ensures shelf_cause { Charges S.faults shelf.old shelf.new (IsErrOf result.0 (Other refused.ShelfFault)) }
    ensures sink_cause { Charges B.faults out.old out.new (IsErrOf result.0 (Other refused.SinkFault)) }
{
    let count = (bytes.len() / SECTOR) as u64;
    let mut image = match open_image(alloc, shelf, disk) {
        Ok(image) => image,
        Err((disk, refusal)) => return (Err(refusal), disk),
    };
    if !is_within(image.sectors(), at, count) {
        return (
            Err(ImageRefusal::Other(Refusal::OutOfRange)),
            image.into_disk(),
        );
    }
    let result = write_told(alloc, &mut image, extent_of(at, count), bytes, out);
    (as_command(result), image.into_disk())
}

/// Reads the source to its end, and writes its sectors into the image from `at` on.
pub fn write_image<A: Source, B: Sink, S: Shelf, D: Disk>(
    alloc: Global,
    at: u64,
    source: &mut A,
    shelf: &mut S,
    disk: D,
    out: &mut B,
) -> (Result<(), ImageRefusal>, D)
    ensures done { OnOk result.0 (Does (Write at)
        (ports_of A.Source B.Sink S.Shelf source.old out.old shelf.old)
        (ports_of A.Source B.Sink S.Shelf source.new out.new shelf.new)
        (disk_port D.Disk disk) (disk_port D.Disk result.1)) }
    ensures refused { IfErr result.0 (CommandCause (Write at)
        (ports_of A.Source B.Sink S.Shelf source.old out.old shelf.old)
        (ports_of A.Source B.Sink S.Shelf source.new out.new shelf.new)
        (disk_port D.Disk disk) (disk_port D.Disk result.1)) }
    ensures disk_cause { Charges D.faults disk result.1 (IsErrOf result.0 (Other refused.DiskFault)) }
    ensures shelf_cause { Charges S.faults shelf.old shelf.new (IsErrOf result.0 (Other refused.ShelfFault)) }
    ensures sink_cause { Charges B.faults out.old out.new (IsErrOf result.0 (Other refused.SinkFault)) }
    ensures source_cause { Charges A.faults source.old source.new (IsErrOf result.0 (Other refused.SourceFault)) }
    ensures within { TakesAtMost (A.left source.old) (A.left source.new) 33554433 }
{
    match read_sectors(alloc, source) {
        Ok(bytes) => write_bytes(alloc, at, bytes.as_slice(), shelf, disk, out),
        Err(refusal) => (Err(ImageRefusal::Other(refusal)), disk),
    }
}

/// Lets the image have so many sectors, and tells of it.
pub fn grow_image<B: Sink, S: Shelf, D: Disk>(
    alloc: Global,
    sectors: u64,
    shelf: &mut S,
    disk: D,
    out: &mut B,
) -> (Result<(), ImageRefusal>, D)
    requires { IsSize sectors }
    ensures done { (left left_now : Option (List ℕ)) (source source_now : ℕ)
        → OnOk result.0 (Does (Grow sectors)
        (beside left source B.Sink S.Shelf out.old shelf.old)
        (beside left_now source_now B.Sink S.Shelf out.new shelf.new)
        (disk_port D.Disk disk) (disk_port D.Disk result.1)) }
    ensures refused { (left left_now : Option (List ℕ)) (source source_now : ℕ)
        → IfErr result.0 (CommandCause (Grow sectors)
        (beside left source B.Sink S.Shelf out.old shelf.old)
        (beside left_now source_now B.Sink S.Shelf out.new shelf.new)
        (disk_port D.Disk disk) (disk_port D.Disk result.1)) }
    ensures disk_cause { Charges D.faults disk result.1 (IsErrOf result.0 (Other refused.DiskFault)) }
    ensures shelf_cause { Charges S.faults shelf.old shelf.new (IsErrOf result.0 (Other refused.ShelfFault)) }
    ensures sink_cause { Charges B.faults out.old out.new (IsErrOf result.0 (Other refused.SinkFault)) }
{
    let mut image = match open_image(alloc, shelf, disk) {
        Ok(image) => image,
        Err((disk, refusal)) => return (Err(refusal), disk),
    };
    let result = grow_told(alloc, &mut image, sectors, out);
    (as_command(result), image.into_disk())
}

/// Makes an image on the disk over the shelf's layers, and tells of it.
pub fn create_image<B: Sink, S: Shelf, D: Disk>(
    alloc: Global,
    asked: Option<u64>,
    shelf: &mut S,
    disk: D,
    out: &mut B,
) -> (Result<(), ImageRefusal>, D)
    requires { IfSome asked IsSize }
    ensures done { (left left_now : Option (List ℕ)) (source source_now : ℕ)
        → OnOk result.0 (Does (Create asked)
        (beside left source B.Sink S.Shelf out.old shelf.old)
        (beside left_now source_now B.Sink S.Shelf out.new shelf.new)
        (disk_port D.Disk disk) (disk_port D.Disk result.1)) }
    ensures refused { (left left_now : Option (List ℕ)) (source source_now : ℕ)
        → IfErr result.0 (CommandCause (Create asked)
        (beside left source B.Sink S.Shelf out.old shelf.old)
        (beside left_now source_now B.Sink S.Shelf out.new shelf.new)
        (disk_port D.Disk disk) (disk_port D.Disk result.1)) }
    ensures disk_cause { Charges D.faults disk result.1 (IsErrOf result.0 (Other refused.DiskFault)) }
    ensures shelf_cause { Charges S.faults shelf.old shelf.new (IsErrOf result.0 (Other refused.ShelfFault)) }
    ensures sink_cause { Charges B.faults out.old out.new (IsErrOf result.0 (Other refused.SinkFault)) }
{
    match make_image(alloc, asked, shelf, disk) {
        Ok((image, line)) => {
            let result = write_text(line.as_bytes(), out);
            (as_command(result), image.into_disk())
        }
        Err((disk, refusal)) => (Err(ImageRefusal::Other(refusal)), disk),
    }
}

/// Commits what was written since the last commit as a layer with this uuid, and tells of it. It goes on
/// where that commit is in progress.
pub fn commit_image<B: Sink, S: Shelf, D: Disk>(
    alloc: Global,
    uuid: [u8; 16],
    shelf: &mut S,
    disk: D,
    out: &mut B,
) -> (Result<(), ImageRefusal>, D)
    requires { uuid ≢ nil }
    ensures done { (left left_now : Option (List ℕ)) (source source_now : ℕ)
        → OnOk result.0 (Does (Commit uuid)
        (beside left source B.Sink S.Shelf out.old shelf.old)
        (beside left_now source_now B.Sink S.Shelf out.new shelf.new)
        (disk_port D.Disk disk) (disk_port D.Disk result.1)) }
    ensures refused { (left left_now : Option (List ℕ)) (source source_now : ℕ)
        → IfErr result.0 (CommandCause (Commit uuid)
        (beside left source B.Sink S.Shelf out.old shelf.old)
        (beside left_now source_now B.Sink S.Shelf out.new shelf.new)
        (disk_port D.Disk disk) (disk_port D.Disk result.1)) }
    ensures disk_cause { Charges D.faults disk result.1 (IsErrOf result.0 (Other refused.DiskFault)) }
    ensures shelf_cause { Charges S.faults shelf.old shelf.new (IsErrOf result.0 (Other refused.ShelfFault)) }
    ensures sink_cause { Charges B.faults out.old out.new (IsErrOf result.0 (Other refused.SinkFault)) }
{
    let mut image = match open_image(alloc, shelf, disk) {
        Ok(image) => image,
        Err((disk, refusal)) => return (Err(refusal), disk),
    };
    let result = commit_told(alloc, &mut image, uuid, out);
    (as_command(result), image.into_disk())
}

/// Empties the files of the tops that became layers of the image, and tells of it.
pub fn sweep_image<B: Sink, S: Shelf, D: Disk>(
    alloc: Global,
    shelf: &mut S,
    disk: D,
    out: &mut B,
) -> (Result<(), ImageRefusal>, D)
    ensures done { (left left_now : Option (List ℕ)) (source source_now : ℕ)
        → OnOk result.0 (Does Sweep
        (beside left source B.Sink S.Shelf out.old shelf.old)
        (beside left_now source_now B.Sink S.Shelf out.new shelf.new)
        (disk_port D.Disk disk) (disk_port D.Disk result.1)) }
    ensures refused { (left left_now : Option (List ℕ)) (source source_now : ℕ)
        → IfErr result.0 (CommandCause Sweep
        (beside left source B.Sink S.Shelf out.old shelf.old)
        (beside left_now source_now B.Sink S.Shelf out.new shelf.new)
        (disk_port D.Disk disk) (disk_port D.Disk result.1)) }
    ensures disk_cause { Charges D.faults disk result.1 (IsErrOf result.0 (Other refused.DiskFault)) }
    ensures shelf_cause { Charges S.faults shelf.old shelf.new (IsErrOf result.0 (Other refused.ShelfFault)) }
    ensures sink_cause { Charges B.faults out.old out.new (IsErrOf result.0 (Other refused.SinkFault)) }
{
    let mut image = match open_image(alloc, shelf, disk) {
        Ok(image) => image,
        Err((disk, refusal)) => return (Err(refusal), disk),
    };
    let result = sweep_told(&mut image, out);
    (as_command(result), image.into_disk())
}
