//! The layers of an image that is loaded.
ghost use Rattle.std.specs.Prelude.{◌≡◌, ◌≢◌, ℕ, ◌+◌, ◌^◌, ◌<◌, ◌≤◌, ◌↔◌, ◌++◌, List, length, map, take, drop, Contains, Some, slice_get, IsTrue, IfOk, IfErr, IfSome, IfNone, OnOk, IsErrOf};
ghost use Rattle.sector_extent.specs.Causes.{Charges};
ghost use Rattle.block_disk.specs.Claims.{Quiet};
ghost use Rattle.lsmt_header.specs.declared.head.Head.{Head};
ghost use Rattle.sealed_layer.specs.Layers.{LayerIndex};
ghost use Rattle.layer_stack.specs.Faults.{IsStackFault};
ghost use Rattle.flat_image.specs.Stacks.{Legal};
ghost use Rattle.image_core.specs.declared.loading.LoadFault.TheVariants as why;
ghost use Rattle.block_disk.specs.DiskState.{Files};
ghost use Rattle.sealed_layer.specs.LayerFaults.{IsLayerFault};
ghost use Rattle.sealed_layer.specs.declared.fault.LayerFault.TheVariants as layer_fault;
ghost use Rattle.image_core.specs.Numbers.{sealed_file};
ghost use Rattle.image_core.specs.Shows.{HaveSize};
ghost use Rattle.image_core.specs.View.{AreLayersOf, sealed_read};
ghost use Rattle.image_core.specs.Loading.{heads_in, AreStackOrNone, IsUuidOf};
ghost use Rattle.image_core.specs.Found.{AreRead, StopsSealed, AreSound, HaveOtherUuid, IsUnsound, IsStackOf};

use crate::loading::{LoadFault, Named};
use crate::parts::{LayerList, Stack};
use crate::snapshot::Snapshot;
use crate::stack::{is_same, sealed_number};
use block_disk::Disk;
use disk_layer::read_layer_file;
use layer_stack::{StackFault, check};
use lsmt_header::Head;
use merged_index::merge;
use sealed_layer::{Layer, LayerFault};
use sector_extent::Memory;
use std::alloc::Global;
use std::sync::Arc;
use top_writer::is_size;

// All layers have sectors for the image.
pub(crate) fn have_size(layers: &[Layer], named: &Named) -> bool
    ensures { IsTrue result ↔ HaveSize named.now.exact named.now.sectors (heads_in layers.now) }
{
    for layer in layers {
        let fits = is_size(named.exact, named.sectors, layer.head().sectors);
        if !fits {
            return false;
        }
    }
    true
}

// Why a sealed file was refused.
fn sealed_fault(epoch: u32, fault: LayerFault) -> LoadFault
    ensures stops { (files : Files) (count : ℕ) (before : List LayerIndex) → length before ≡ epoch
        → AreLayersOf (sealed_read files epoch) before → epoch < count
        → IsLayerFault (files (sealed_file epoch)) fault → StopsSealed files count result }
    ensures failed { (result ≡ why.Failed) ↔ (fault ≡ layer_fault.Failed) }
{
    match fault {
        LayerFault::Failed => LoadFault::Failed,
        LayerFault::Memory => LoadFault::Memory,
        LayerFault::Short
        | LayerFault::Head(_)
        | LayerFault::TrailerDiffers
        | LayerFault::TooManyRows(_)
        | LayerFault::BadIndexPlace
        | LayerFault::Row { .. }
        | LayerFault::RowOrder(_)
        | LayerFault::RowRange(_)
        | LayerFault::RowPlace(_) => LoadFault::Sealed { epoch, fault },
    }
}

// Reads the sealed files of the first epochs. Their layers stand behind those that are given.
pub(crate) fn read_sealed<D: Disk>(
    alloc: Global,
    disk: D,
    layers: Vec<Layer>,
    count: u32,
) -> (D, Result<Vec<Layer>, LoadFault>)
    requires few { count ≤ 255 }
    ensures found { IfOk result.1 (λ all. (sealed : List LayerIndex) × (all.items ≡ layers.items ++ sealed)
        × (length sealed ≡ count) × AreRead D.tells (D.state disk) (D.state result.0) sealed) }
    ensures reason { IfErr result.1 (λ fault. IsTrue D.tells → StopsSealed (D.state disk).seen count fault) }
    ensures quiet { Quiet (D.state disk) (D.state result.0) }
    ensures cause { Charges D.faults disk result.0 (IsErrOf result.1 why.Failed) }
{
    let mut disk = disk;
    let mut layers = layers;
    for epoch in 0..count {
        let (back, outcome) = read_layer_file(alloc, disk, sealed_number(epoch));
        disk = back;
        match outcome {
            Ok(layer) => {
                let Ok(()) = layers.push(layer) else {
                    return (disk, Err(LoadFault::Memory));
                };
            }
            Err(fault) => return (disk, Err(sealed_fault(epoch, fault))),
        }
    }
    (disk, Ok(layers))
}

// The heads of layers.
fn heads_of(alloc: Global, layers: &[Layer]) -> Result<Vec<Head>, Memory>
    ensures { IfOk result (λ heads. heads.items ≡ heads_in layers.now) }
{
    let mut heads = Vec::with_capacity(alloc, layers.len())?;
    for layer in layers {
        heads.push(*layer.head())?;
    }
    Ok(heads)
}

// Refuses heads that form no stack, if there are any.
fn check_stack(heads: &[Head]) -> Result<(), StackFault>
    requires few { length heads.now ≤ 255 }
    ensures ok { OnOk result (1 ≤ length heads.now → Legal heads.now) }
    ensures fault { IfErr result (λ fault. (1 ≤ length heads.now) × IsStackFault heads.now fault) }
{
    if heads.is_empty() {
        return Ok(());
    }
    check(heads)
}

// The number of the first layer with the uuid.
fn number_with(layers: &[Layer], uuid: &[u8; 16]) -> Option<u32>
    requires few { length layers.now ≤ 255 }
    ensures some { IfSome result (λ number. (other : Head) × (slice_get (heads_in layers.now) number ≡ Some other)
        × (other.uuid ≡ uuid.now)) }
    ensures none { IfNone result (Contains (map (λ l. l.head.uuid) layers.now) uuid.now → ⊥) }
{
    for (number, layer) in layers.iter().enumerate() {
        let found = is_same(&layer.head().uuid, uuid);
        if found {
            return Some(number as u32);
        }
    }
    None
}

// Refuses a uuid of a commit in progress that one of the layers has.
fn check_uuid(layers: &[Layer], pending: &Option<[u8; 16]>) -> Result<(), StackFault>
    requires few { length layers.now ≤ 255 }
    ensures ok { OnOk result (HaveOtherUuid layers.now pending.now) }
    ensures fault { IfErr result (λ fault. (uuid : List ℕ) × (pending.now ≡ Some uuid)
        × IsUuidOf (heads_in layers.now) uuid fault) }
{
    let Some(uuid) = pending else {
        return Ok(());
    };
    match number_with(layers, uuid) {
        Some(first) => Err(StackFault::UuidTwice(first, layers.len() as u32)),
        None => Ok(()),
    }
}

// Refuses layers, of which so many are lower ones, that the image cannot have.
pub(crate) fn check_layers(
    alloc: Global,
    layers: &[Layer],
    below: usize,
    named: &Named,
) -> Result<(), LoadFault>
    requires few { length layers.now ≤ 255 }
    requires below { below ≤ length layers.now }
    ensures ok { OnOk result (AreSound named.now (take below layers.now) (drop below layers.now)) }
    ensures reason { IfErr result (IsUnsound named.now (take below layers.now) (drop below layers.now)) }
{
    let Ok(heads) = heads_of(alloc, layers) else {
        return Err(LoadFault::Memory);
    };
    if let Err(fault) = check_stack(heads.as_slice()) {
        return Err(LoadFault::Stack(fault));
    }
    if !have_size(&layers[below..], named) {
        return Err(LoadFault::SizeDiffers);
    }
    match check_uuid(layers, &named.pending) {
        Ok(()) => Ok(()),
        Err(fault) => Err(LoadFault::Stack(fault)),
    }
}

// The stack of these layers, of which so many are lower ones, without a commit in progress.
pub(crate) fn stack_of(alloc: Global, layers: Vec<Layer>, below: usize) -> Result<Stack, Memory>
    requires few { length layers.items ≤ 255 }
    requires below { below ≤ length layers.items }
    ensures { IfOk result (IsStackOf layers.items below) }
{
    let index = merge(alloc, layers.as_slice())?;
    let snapshot = Arc::new(alloc, Snapshot::of(index, below as u32))?;
    let mut lowers = layers;
    let committed = lowers.split_off(below)?;
    Ok(Stack {
        lowers: LayerList::from_vec(lowers),
        committed,
        snapshot,
        commit: None,
        next: None,
    })
}
