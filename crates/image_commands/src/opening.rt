//! Opens the image on a disk over the layers of a shelf.
ghost use Rattle.std.specs.Prelude.{◌≡◌, ◌<◌, ◌≤◌, ◌^◌, length, All, IfOk, IfErr, IfSome, IsErrOf, OnErr, MatchResult};
ghost use Rattle.sector_extent.specs.Causes.{Charges};
ghost use Rattle.block_disk.specs.Claims.{Quiet};
ghost use Rattle.layer_shelf.specs.Shelves.{SameFiles};
ghost use Rattle.sealed_layer.specs.Layers.{IsLayerIndex};
ghost use Rattle.image_core.specs.Loading.{AreStackOrNone};
ghost use Rattle.image_core.specs.Seen.{seen, faults_in, disk_of};
ghost use Rattle.layer_commands.specs.declared.refusal.Refusal.TheVariants as refused;
ghost use Rattle.layer_commands.specs.Flattening.{AreTold};
ghost use Rattle.layer_commands.specs.Reading.{IsStackRefusal};
ghost use Rattle.image_commands.specs.declared.refusal.ImageRefusal.TheVariants.{Other};
ghost use Rattle.image_commands.specs.Images.{disk_port};
ghost use Rattle.image_commands.specs.ImageSteps.{IsOpened, OpenCause};

use crate::refusal::{ImageRefusal, load_refusal};
use block_disk::Disk;
use image_core::{Image, LayerList};
use layer_commands::{Refusal, read_stack};
use layer_shelf::Shelf;
use sealed_layer::Layer;
use std::alloc::Global;

/// Reads all files of the shelf as layers, and checks that they are a stack where there is one.
pub fn read_lowers<S: Shelf>(alloc: Global, shelf: &mut S) -> Result<Vec<Layer>, Refusal>
    ensures count { IfOk result (λ layers. length layers.items ≡ S.count shelf.old) }
    ensures few { IfOk result (λ layers. length layers.items ≤ 255) }
    ensures told { IfOk result (λ layers. IfSome (S.files shelf.old) (λ files. AreTold files layers.items)) }
    ensures legal { IfOk result (λ layers. AreStackOrNone layers.items) }
    ensures sound { IfOk result (λ layers. All (λ layer. IsLayerIndex layer.head layer.rows) layers.items) }
    ensures refused { IfErr result (IsStackRefusal (S.files shelf.old) (S.count shelf.old)) }
    ensures some { OnErr result (0 < S.count shelf.old) }
    ensures same { SameFiles S.files S.count shelf.old shelf.new }
    ensures cause { Charges S.faults shelf.old shelf.new (IsErrOf result Refusal.ShelfFault) }
{
    if shelf.count() == 0 {
        return Ok(Vec::new(alloc));
    }
    read_stack(alloc, shelf)
}

/// Opens the image on the disk over the shelf's layers. It changes nothing of the disk.
pub fn open_image<S: Shelf, D: Disk>(
    alloc: Global,
    shelf: &mut S,
    disk: D,
) -> Result<Image<D>, (D, ImageRefusal)>
    ensures opened { IfOk result (λ image. IsOpened (S.files shelf.old) (S.count shelf.old)
        (disk_port D.Disk disk) (seen D.Disk image)) }
    ensures refused { IfErr result (λ refusal. OpenCause (S.files shelf.old) (S.count shelf.old)
        (S.faults shelf.old) (S.faults shelf.new) (disk_port D.Disk disk) (disk_port D.Disk refusal.0) refusal.1) }
    ensures quiet { MatchResult result (λ image. Quiet (D.state disk) (D.state (disk_of image)))
        (λ refusal. Quiet (D.state disk) (D.state refusal.0)) }
    ensures cause { MatchResult result (λ image. faults_in D.Disk image ≡ D.faults disk)
        (λ refusal. Charges D.faults disk refusal.0 (refusal.1 ≡ Other refused.DiskFault)) }
    ensures shelf_cause { MatchResult result (λ image. S.faults shelf.new ≡ S.faults shelf.old)
        (λ refusal. Charges S.faults shelf.old shelf.new (refusal.1 ≡ Other refused.ShelfFault)) }
    ensures same { SameFiles S.files S.count shelf.old shelf.new }
{
    let lowers = match read_lowers(alloc, shelf) {
        Ok(layers) => LayerList::from_vec(layers),
        Err(refusal) => return Err((disk, ImageRefusal::Other(refusal))),
    };
    match Image::load(alloc, disk, lowers) {
        Ok(image) => Ok(image),
        Err((disk, fault)) => Err((disk, load_refusal(fault))),
    }
}
