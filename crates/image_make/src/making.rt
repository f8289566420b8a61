//! Makes an image by acts that are drawn, and tells of it.
ghost use Rattle.std.specs.Prelude.{◌≡◌, ◌*◌, ◌^◌, ◌<◌, ◌≤◌, [], length, IfErr, IfOk, IsErrOf, OnOk};
ghost use Rattle.std.specs.Io.KnownBytes.{Appends};
ghost use Rattle.sector_extent.specs.Causes.{Charges};
ghost use Rattle.image_core.specs.Seen.{seen, view, faults_in, IsImage, StandsFor};
ghost use Rattle.image_commands.specs.Images.{disk_port};
ghost use Rattle.image_commands.specs.ImageSteps.{Adds};
ghost use Rattle.image_make.specs.Making.{all_entries, new_image, IsTold, MakeFails, MakesImage};
ghost use Rattle.image_make.specs.Steps.{AsksNothing, MakeStops, StopsIn, SumsUp, Tells};

use crate::acting::{make_all, make_block};
use crate::no_layers::NoLayers;
use crate::reports::made_report;
use crate::sums::{SECTORS, Sums, sum_sectors};
use block_disk::Disk;
use byte_ports::Sink;
use image_commands::{create_refusal, extent_of};
use image_core::{Image, LayerList, WholeFault};
use layer_commands::{Refusal, write_text};
use sector_extent::SECTOR;
use std::alloc::Global;

// What an image holds that lies over no layers, whose sectors are read into `out`.
fn sum_into<D: Disk>(alloc: Global, image: &mut Image<D>, out: &mut [u8]) -> Result<Sums, Refusal>
    requires standing { IsImage (seen D.Disk image.old) }
    requires steps { (view image.old).steps < 2 ^ 62 }
    requires sectors { (view image.old).sectors ≡ 4096 }
    requires bare { (view image.old).lowers ≡ [] }
    requires size { length out.old ≡ 512 * (view image.old).sectors }
    ensures adds { OnOk result (Adds [] (seen D.Disk image.old) (seen D.Disk image.new)) }
    ensures sums { IfOk result (SumsUp (seen D.Disk image.old)) }
    ensures refused { IfErr result (StopsIn [] AsksNothing (seen D.Disk image.old) (seen D.Disk image.new)) }
    ensures cause { Charges (faults_in D.Disk) image.old image.new (IsErrOf result Refusal.DiskFault) }
{
    let count = image.sectors();
    match image.read_whole(alloc, &mut NoLayers { count: 0 }, extent_of(0, count), out) {
        Ok(()) => Ok(sum_sectors(out)),
        Err(WholeFault::Memory) => Err(Refusal::Memory),
        Err(WholeFault::DiskFault) => Err(Refusal::DiskFault),
        Err(WholeFault::ShelfFault) => unreachable!(),
    }
}

// What an image holds that lies over no layers.
fn sum_image<D: Disk>(alloc: Global, image: &mut Image<D>) -> Result<Sums, Refusal>
    requires standing { IsImage (seen D.Disk image.old) }
    requires steps { (view image.old).steps < 2 ^ 62 }
    requires sectors { (view image.old).sectors ≡ 4096 }
    requires bare { (view image.old).lowers ≡ [] }
    ensures adds { OnOk result (Adds [] (seen D.Disk image.old) (seen D.Disk image.new)) }
    ensures sums { IfOk result (SumsUp (seen D.Disk image.old)) }
    ensures refused { IfErr result (StopsIn [] AsksNothing (seen D.Disk image.old) (seen D.Disk image.new)) }
    ensures cause { Charges (faults_in D.Disk) image.old image.new (IsErrOf result Refusal.DiskFault) }
{
    let room = image.sectors() as usize * SECTOR;
    let mut bytes = make_block(alloc, room)?;
    sum_into(alloc, image, bytes.as_mut_slice())
}

// Does so many acts that are drawn of the seed, to an image in which nothing was written, and tells of them.
fn make_told<B: Sink, D: Disk>(
    alloc: Global,
    image: &mut Image<D>,
    seed: u64,
    acts: u32,
    out: &mut B,
) -> Result<(), Refusal>
    requires fresh { StandsFor (seen D.Disk image.old) (new_image (faults_in D.Disk image.old)) [] }
    requires seed { seed < 2 ^ 31 }
    requires few { acts ≤ 100000 }
    ensures adds { OnOk result (Adds (all_entries seed acts) (seen D.Disk image.old) (seen D.Disk image.new)) }
    ensures told { OnOk result (Tells seed acts D.tells (B.written out.old) (B.written out.new)) }
    ensures refused { IfErr result (MakeStops seed acts (seen D.Disk image.old) (seen D.Disk image.new)
        (B.faults out.old) (B.faults out.new) (B.written out.old) (B.written out.new)) }
    ensures cause { Charges (faults_in D.Disk) image.old image.new (IsErrOf result Refusal.DiskFault) }
    ensures sink_cause { Charges B.faults out.old out.new (IsErrOf result Refusal.SinkFault) }
{
    let tally = make_all(alloc, image, seed, acts)?;
    let sums = sum_image(alloc, image)?;
    let text = made_report(alloc, acts, tally, sums)?;
    write_text(text.as_bytes(), out)
}

fn no_lowers(alloc: Global) -> LayerList
    ensures { result ≡ [] }
{
    LayerList::from_vec(Vec::new(alloc))
}

/// Makes an image of 4,096 sectors on the disk, over no layers, by so many acts that are drawn of the
/// seed, and tells of it.
pub fn make_drawn<B: Sink, D: Disk>(
    alloc: Global,
    seed: u64,
    acts: u64,
    disk: D,
    out: &mut B,
) -> (Result<(), Refusal>, D)
    requires seed { seed < 2 ^ 31 }
    requires acts { acts ≤ 100000 }
    ensures done { OnOk result.0 (MakesImage seed acts (B.written out.old) (B.written out.new)
        (disk_port D.Disk disk) (disk_port D.Disk result.1)) }
    ensures refused { IfErr result.0 (MakeFails seed acts (B.faults out.old) (B.faults out.new)
        (B.written out.old) (B.written out.new) (disk_port D.Disk disk) (disk_port D.Disk result.1)) }
    ensures disk_cause { Charges D.faults disk result.1 (IsErrOf result.0 Refusal.DiskFault) }
    ensures sink_cause { Charges B.faults out.old out.new (IsErrOf result.0 Refusal.SinkFault) }
{
    let mut image = match Image::create(alloc, disk, no_lowers(alloc), SECTORS) {
        Ok(image) => image,
        Err((disk, fault)) => return (Err(create_refusal(fault)), disk),
    };
    let result = make_told(alloc, &mut image, seed, acts as u32, out);
    (result, image.into_disk())
}
