//! Makes an image over the layers of a shelf.
ghost use Rattle.std.specs.Prelude.{◌≡◌, ℕ, ◌≤◌, length, All, string_bytes, IfOk, IfErr, IfSome, MatchResult};
ghost use Rattle.lsmt_header.specs.Blocks.{IsSize};
ghost use Rattle.sealed_layer.specs.Layers.{IsLayerIndex};
ghost use Rattle.image_core.specs.Loading.{AreStackOrNone};
ghost use Rattle.image_core.specs.Creating.{AreLegal};
ghost use Rattle.image_core.specs.Seen.{seen, view, faults_in};
ghost use Rattle.sector_extent.specs.Causes.{Charges};
ghost use Rattle.layer_shelf.specs.Shelves.{SameFiles};
ghost use Rattle.layer_commands.specs.Flattening.{upper_sectors};
ghost use Rattle.image_commands.specs.ImageReports.{created_line};
ghost use Rattle.image_commands.specs.Images.{IsSizeFor, disk_port};
ghost use Rattle.image_commands.specs.ImageSteps.{IsMade, SizeCause, MakeCause, create_refused_as};

use crate::image_reports::created_report;
use crate::opening::read_lowers;
use block_disk::Disk;
use image_core::{CreateFault, Image, LayerList};
use layer_commands::Refusal;
use layer_shelf::Shelf;
use sealed_layer::Layer;
use std::alloc::Global;

/// The sectors of a layer.
fn layer_size(layer: &Layer) -> u64
    ensures is { result ≡ layer.now.head.sectors }
    ensures size { IsSize result }
{
    let _rows = layer.rows();
    layer.head().sectors
}

/// The size of a new image over these layers: the one that was asked for, or that of the uppermost.
fn size_over(asked: Option<u64>, layers: &[Layer]) -> Result<u64, Refusal>
    requires stack { AreStackOrNone layers.now }
    requires sound { All (λ layer. IsLayerIndex layer.head layer.rows) layers.now }
    requires size { IfSome asked IsSize }
    ensures size { IfOk result IsSize }
    ensures legal { IfOk result (λ sectors. AreLegal sectors layers.now) }
    ensures asked { IfOk result (λ sectors.
        IsSizeFor asked (length layers.now) (upper_sectors layers.now) sectors) }
    ensures refused { IfErr result (SizeCause asked layers.now) }
{
    let Some(upper) = layers.last() else {
        return match asked {
            Some(sectors) => Ok(sectors),
            None => Err(Refusal::NoSize),
        };
    };
    let own = layer_size(upper);
    match asked {
        Some(sectors) => {
            if sectors < own {
                return Err(Refusal::OtherSize);
            }
            Ok(sectors)
        }
        None => Ok(own),
    }
}

/// What a fault of a creation is refused as.
pub fn create_refusal(fault: CreateFault) -> Refusal
    ensures { result ≡ create_refused_as fault }
{
    match fault {
        CreateFault::Exists => Refusal::ImageExists,
        CreateFault::Memory => Refusal::Memory,
        CreateFault::Failed => Refusal::DiskFault,
    }
}

/// Makes an image on the disk over the shelf's layers. It answers the line that tells of it too, which
/// is made first, so that want of memory changes nothing.
pub fn make_image<S: Shelf, D: Disk>(
    alloc: Global,
    asked: Option<u64>,
    shelf: &mut S,
    disk: D,
) -> Result<(Image<D>, String), (D, Refusal)>
    requires { IfSome asked IsSize }
    ensures made { IfOk result (λ made. IsMade asked (S.files shelf.old) (S.count shelf.old)
        (disk_port D.Disk disk) (seen D.Disk made.0)) }
    ensures told { IfOk result (λ made.
        string_bytes made.1 ≡ created_line (view made.0).sectors (S.count shelf.old)) }
    ensures refused { IfErr result (λ refusal. MakeCause asked (S.files shelf.old) (S.count shelf.old)
        (S.faults shelf.old) (S.faults shelf.new) (disk_port D.Disk disk) (disk_port D.Disk refusal.0) refusal.1) }
    ensures cause { MatchResult result (λ made. faults_in D.Disk made.0 ≡ D.faults disk)
        (λ refusal. Charges D.faults disk refusal.0 (refusal.1 ≡ Refusal.DiskFault)) }
    ensures shelf_cause { MatchResult result (λ made. S.faults shelf.new ≡ S.faults shelf.old)
        (λ refusal. Charges S.faults shelf.old shelf.new (refusal.1 ≡ Refusal.ShelfFault)) }
    ensures same { SameFiles S.files S.count shelf.old shelf.new }
{
    let layers = match read_lowers(alloc, shelf) {
        Ok(layers) => layers,
        Err(refusal) => return Err((disk, refusal)),
    };
    let sectors = match size_over(asked, layers.as_slice()) {
        Ok(sectors) => sectors,
        Err(refusal) => return Err((disk, refusal)),
    };
    let line = match created_report(alloc, sectors, shelf.count() as u64) {
        Ok(line) => line,
        Err(_) => return Err((disk, Refusal::Memory)),
    };
    match Image::create(alloc, disk, LayerList::from_vec(layers), sectors) {
        Ok(image) => Ok((image, line)),
        Err((disk, fault)) => Err((disk, create_refusal(fault))),
    }
}
