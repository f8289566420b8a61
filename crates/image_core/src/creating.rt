//! Making an image.
ghost use Rattle.std.specs.Prelude.{◌≡◌, ◌≢◌, ℕ, ◌+◌, ◌<◌, ◌≤◌, List, [], length, map, None, IsTrue, IfOk, OnOk, IsErrOf, slice_index_or};
ghost use Rattle.std.specs.Arc.{arc_value};
ghost use Rattle.sector_extent.specs.Causes.{Charges};
ghost use Rattle.lsmt_header.specs.Blocks.{IsSize, nil};
ghost use Rattle.gate_mark.specs.MarkFile.{mark_of};
ghost use Rattle.block_disk.specs.Claims.{Quiet};
ghost use Rattle.sealed_layer.specs.Layers.{LayerIndex};
ghost use Rattle.top_writer.specs.View.{sectors_of};
ghost use Rattle.image_core.specs.declared.creating.CreateFault.TheVariants as faults;
ghost use Rattle.image_core.specs.Loading.{upper_uuid};
ghost use Rattle.image_core.specs.Numbers.{manifest_file};
ghost use Rattle.image_core.specs.View.{AreLayersOf};
ghost use Rattle.image_core.specs.Pieces.{IsSnapshotOf};
ghost use Rattle.image_core.specs.Seen.{with_disk, StandsFor};
ghost use Rattle.image_core.specs.Creating.{AreLegal, fresh_at, TellsExists, IsNewManifest, IsMadeLast};

use crate::manifest::plain_body;
use crate::parts::{LayerList, Parts, Stack};
use crate::snapshot::Snapshot;
use block_disk::Disk;
use gate_mark::{Mark, MarkFault};
use merged_index::merge;
use sealed_layer::Layer;
use sector_extent::Memory;
use std::alloc::Global;
use std::sync::Arc;
use top_writer::{Top, TopMakeFault};

/// The number of the manifest.
const MANIFEST: u32 = 0;

/// Why an image was not made.
#[derive(Clone, Copy, Debug, PartialEq, Eq)]
pub enum CreateFault {
    /// The manifest holds a mark already.
    Exists,
    /// There was no memory.
    Memory,
    /// The disk failed.
    Failed,
}

// The uuid of the uppermost layer, or that of none.
pub(crate) fn parent_of(lowers: &[Layer]) -> [u8; 16]
    ensures { result ≡ upper_uuid lowers.now }
{
    if lowers.is_empty() {
        return [0; 16];
    }
    lowers[lowers.len() - 1].head().uuid
}

// The snapshot of lower layers alone.
pub(crate) fn snapshot_of(alloc: Global, lowers: &[Layer]) -> Result<Arc<Snapshot>, Memory>
    requires few { length lowers.now ≤ 255 }
    ensures { IfOk result (λ snapshot. IsSnapshotOf (arc_value snapshot) lowers.now []) }
{
    let index = merge(alloc, lowers)?;
    let snapshot = Arc::new(alloc, Snapshot::of(index, lowers.len() as u32))?;
    Ok(snapshot)
}

// Refuses a disk whose manifest holds a mark.
fn check_new<D: Disk>(disk: &mut D) -> Result<(), CreateFault>
    ensures exists { IsTrue D.tells → TellsExists ((D.state disk.old).seen manifest_file) result }
    ensures no_memory { IsErrOf result faults.Memory → ⊥ }
    ensures quiet { Quiet (D.state disk.old) (D.state disk.new) }
    ensures cause { Charges D.faults disk.old disk.new (IsErrOf result faults.Failed) }
{
    match Mark::load(disk, MANIFEST) {
        Ok(_) => Err(CreateFault::Exists),
        Err(MarkFault::Worn(_)) => Err(CreateFault::Exists),
        Err(MarkFault::NoMark) => Ok(()),
        Err(MarkFault::Failed) => Err(CreateFault::Failed),
    }
}

impl Parts {
    // Makes an image of so many sectors in which nothing was written: the files of its top, and then
    // the manifest.
    pub(crate) fn create<D: Disk>(
        alloc: Global,
        disk: &mut D,
        lowers: LayerList,
        sectors: u64,
    ) -> Result<Parts, CreateFault>
        requires lowers { AreLegal sectors lowers }
        requires size { IsSize sectors }
        ensures stands { IfOk result (λ parts. (files : List (List ℕ)) → AreLayersOf files lowers
            → StandsFor (with_disk D.Disk disk.new parts) (fresh_at sectors files (D.faults disk.new)) []) }
        ensures frame { IfOk result (λ parts.
            (parts.stack.lowers ≡ lowers) × (parts.steps ≡ 0) × (sectors_of parts.top ≡ sectors)) }
        ensures exists { IsTrue D.tells → TellsExists ((D.state disk.old).seen manifest_file) result }
        ensures cause { Charges D.faults disk.old disk.new (IsErrOf result faults.Failed) }
        ensures untouched { IsErrOf result faults.Exists → Quiet (D.state disk.old) (D.state disk.new) }
        ensures unbegun { IsErrOf result faults.Memory → Quiet (D.state disk.old) (D.state disk.new) }
        ensures manifest { IfOk result (λ parts. IsNewManifest sectors (with_disk D.Disk disk.new parts)) }
        ensures last { IsMadeLast sectors (upper_uuid lowers) (D.state disk.old) (D.state disk.new) }
        ensures kept { IsTrue D.tells → mark_of ((D.state disk.old).seen manifest_file) ≢ None
            → Quiet (D.state disk.old) (D.state disk.new) }
    {
        check_new(disk)?;
        let Ok(snapshot) = snapshot_of(alloc, lowers.as_slice()) else {
            return Err(CreateFault::Memory);
        };
        let parent = parent_of(lowers.as_slice());
        let top = match Top::create(alloc, disk, 0, sectors, parent) {
            Ok(top) => top,
            Err(TopMakeFault::Memory) => return Err(CreateFault::Memory),
            Err(TopMakeFault::Failed) => return Err(CreateFault::Failed),
        };
        match Mark::format(disk, MANIFEST, &plain_body(0, sectors)) {
            Ok(manifest) => Ok(Parts {
                manifest,
                stack: Stack::of(alloc, lowers, snapshot),
                top,
                steps: 0,
            }),
            Err(_) => Err(CreateFault::Failed),
        }
    }
}
