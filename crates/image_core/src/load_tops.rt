//! The tops of an image that is loaded.
ghost use Rattle.std.specs.Prelude.{◌≡◌, ℕ, ◌+◌, ◌^◌, ◌<◌, ◌≤◌, List, length, Option, Some, None, IsTrue, IfOk, IfErr, IsErrOf};
ghost use Rattle.sector_extent.specs.Causes.{Charges};
ghost use Rattle.block_disk.specs.Claims.{Quiet};
ghost use Rattle.lsmt_header.specs.Blocks.{IsSize, nil};
ghost use Rattle.flat_image.specs.Frozen.{Frozen};
ghost use Rattle.flat_image.specs.Left.{Stand};
ghost use Rattle.image_core.specs.declared.loading.LoadFault.TheVariants as why;
ghost use Rattle.image_core.specs.Numbers as numbers;
ghost use Rattle.image_core.specs.Pieces.{IsSnapshotOf};
ghost use Rattle.std.specs.Arc.{arc_value};
ghost use Rattle.image_core.specs.Loading.{parent_over};
ghost use Rattle.image_core.specs.Found.{IsTopRead, IsTopRefused, IsBegunAnew, IsCommitRead};
ghost use Rattle.std.specs.Prelude.{IfSome, ◌≢◌};

use crate::creating::parent_of;
use crate::loading::{LoadFault, Named};
use crate::parts::{Commit, Stack};
use block_disk::Disk;
use sealed_layer::Layer;
use std::alloc::Global;
use top_writer::{Top, TopFault};

// The parent that the head of a top has to name.
fn parent_for(epoch: u32, lowers: &[Layer]) -> Option<[u8; 16]>
    ensures { result ≡ parent_over epoch lowers.now }
{
    if epoch == 0 {
        return Some(parent_of(lowers));
    }
    None
}

// The top of an epoch, over these lower layers.
pub(crate) fn load_top<D: Disk>(
    alloc: Global,
    disk: &mut D,
    epoch: u32,
    named: &Named,
    lowers: &[Layer],
) -> Result<Top, LoadFault>
    requires epoch { epoch ≤ 255 }
    requires size { IsSize named.now.sectors }
    ensures top { IfOk result (λ top. (s : Stand)
        × IsTopRead D.tells (D.state disk.old) (D.state disk.new) epoch named.now lowers.now top s) }
    ensures reason { IfErr result (λ fault. IsTrue D.tells
        → IsTopRefused (D.state disk.old).seen epoch named.now lowers.now fault) }
    ensures quiet { Quiet (D.state disk.old) (D.state disk.new) }
    ensures cause { Charges D.faults disk.old disk.new (IsErrOf result why.Failed) }
{
    let parent = parent_for(epoch, lowers);
    match Top::load(alloc, disk, epoch, named.sectors, named.exact, parent) {
        Ok(top) => Ok(top),
        Err(TopFault::Memory) => Err(LoadFault::Memory),
        Err(TopFault::Failed) => Err(LoadFault::Failed),
        Err(TopFault::NoTop(reason)) => Err(LoadFault::NoTop { epoch, reason }),
    }
}

// Begins the commit with the uuid anew: none of its file is written.
fn begin_commit<D: Disk>(
    alloc: Global,
    disk: &mut D,
    stack: &mut Stack,
    named: &Named,
    uuid: [u8; 16],
) -> Result<Commit, LoadFault>
    requires few { length stack.old.lowers + length stack.old.committed.items < 255 }
    requires size { IsSize named.now.sectors }
    requires uuid { uuid ≢ nil }
    ensures begun { IfOk result (λ c. (frozen : Frozen) × (frozen.uuid ≡ uuid)
        × IsBegunAnew D.tells (D.state disk.old) (D.state disk.new) named.now stack.old stack.new c frozen) }
    ensures uuid { IfOk result (λ c. c.uuid ≡ uuid) }
    ensures reason { IfErr result (λ fault. IsTrue D.tells → IsTopRefused (D.state disk.old).seen
        (length stack.old.committed.items) named.now stack.old.lowers fault) }
    ensures quiet { Quiet (D.state disk.old) (D.state disk.new) }
    ensures cause { Charges D.faults disk.old disk.new (IsErrOf result why.Failed) }
{
    let top = load_top(alloc, disk, stack.count(), named, stack.lowers.as_slice())?;
    let Ok(ready) = stack.prepare(alloc, &top, uuid) else {
        return Err(LoadFault::Memory);
    };
    Ok(Commit {
        uuid,
        top,
        sealing: ready.sealing,
        snapshot: ready.snapshot,
    })
}

// The stack with this commit in progress.
fn with_commit(stack: Stack, commit: Commit) -> Stack
    ensures { result ≡ record stack { commit = Some commit } }
{
    let Stack {
        lowers,
        committed,
        snapshot,
        commit: _,
        next,
    } = stack;
    Stack {
        lowers,
        committed,
        snapshot,
        commit: Some(commit),
        next,
    }
}

// The stack with the commit in progress, where there is one.
pub(crate) fn load_commit<D: Disk>(
    alloc: Global,
    disk: &mut D,
    stack: Stack,
    named: &Named,
) -> Result<Stack, LoadFault>
    requires none { stack.commit ≡ None }
    requires few { length stack.committed.items ≤ 255 }
    requires room { numbers.with_pending (length stack.lowers + length stack.committed.items) named.now.pending ≤ 255 }
    requires uuid { IfSome named.now.pending (λ u. u ≢ nil) }
    requires size { IsSize named.now.sectors }
    requires snapshot { IsSnapshotOf (arc_value stack.snapshot) stack.lowers stack.committed.items }
    ensures read { IfOk result (λ t. (frozen : Option Frozen)
        × IsCommitRead D.tells (D.state disk.old) (D.state disk.new) named.now stack t frozen) }
    ensures reason { IfErr result (λ fault. IsTrue D.tells → (uuid : List ℕ) × (named.now.pending ≡ Some uuid)
        × IsTopRefused (D.state disk.old).seen (length stack.committed.items) named.now stack.lowers fault) }
    ensures quiet { Quiet (D.state disk.old) (D.state disk.new) }
    ensures cause { Charges D.faults disk.old disk.new (IsErrOf result why.Failed) }
{
    let Some(uuid) = named.pending else {
        return Ok(stack);
    };
    let mut stack = stack;
    let commit = begin_commit(alloc, disk, &mut stack, named, uuid)?;
    Ok(with_commit(stack, commit))
}
