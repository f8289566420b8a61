ghost use Rattle.std.specs.Prelude.{◌≡◌, IsTrue, IfOk, IfErr, OnOk, IsErrOf};
ghost use Rattle.sector_extent.specs.Causes.{Charges};
ghost use Rattle.block_disk.specs.Changes.{Only};
ghost use Rattle.block_disk.specs.Claims.{Quiet};
ghost use Rattle.flat_image.specs.LayerFiles.{LayerOf};
ghost use Rattle.sealed_layer.specs.LayerFaults.{IsLayerFault};
ghost use Rattle.sealed_layer.specs.declared.fault.LayerFault.TheVariants as layer_fault;

use crate::file_shelf::{FileShelf, Moment};
use block_disk::{Disk, DiskFailed};
use sealed_layer::{Layer, LayerFault, read_layer};
use std::alloc::Global;
use std::marker::Brand;

// Reads the layer of a file, on a disk of which nothing changed since the moment that `M` names.
fn read_synced<D: Disk, M: Moment>(
    alloc: Global,
    disk: D,
    file: u32,
) -> (D, Result<Layer, LayerFault>)
    requires quiet { Quiet M.was (D.state disk) }
    ensures found { IfOk result.1 (λ layer. IsTrue D.tells
        → LayerOf ((D.state disk).seen file) layer.head layer.rows) }
    ensures fault { IfErr result.1 (λ fault. IsTrue D.tells → IsLayerFault ((D.state disk).seen file) fault) }
    ensures quiet { Quiet M.was (D.state result.0) }
    ensures cause { Charges D.faults disk result.0 (IsErrOf result.1 layer_fault.Failed) }
{
    let mut shelf = FileShelf::<D, M>::new(disk, file);
    let result = read_layer(alloc, &mut shelf, 0);
    (shelf.into_disk(), result)
}

/// Reads the head and the rows of the layer in a file of the disk, after a sync of that file. Its data
/// is not read, and nothing is written.
pub fn read_layer_file<D: Disk>(alloc: Global, disk: D, file: u32) -> (D, Result<Layer, LayerFault>)
    ensures found { IfOk result.1 (λ layer. IsTrue D.tells
        → LayerOf ((D.state disk).seen file) layer.head layer.rows) }
    ensures fault { IfErr result.1 (λ fault. IsTrue D.tells → IsLayerFault ((D.state disk).seen file) fault) }
    // a crash leaves the file as it was read
    ensures durable { OnOk result.1 (Only ((D.state disk).seen file) ((D.state result.0).may_leave file)) }
    ensures quiet { Quiet (D.state disk) (D.state result.0) }
    ensures cause { Charges D.faults disk result.0 (IsErrOf result.1 layer_fault.Failed) }
{
    let mut disk = disk;
    match disk.sync(file) {
        Ok(()) => read_synced::<D, Brand>(alloc, disk, file),
        Err(DiskFailed) => (disk, Err(LayerFault::Failed)),
    }
}
