//! Loading an image.
ghost use Rattle.std.specs.Prelude.{◌≡◌, ◌≢◌, ℕ, ◌^◌, ◌<◌, ◌≤◌, ◌↔◌, ◌++◌, ◌+◌, List, length, take, drop, IsTrue, IfOk, IfErr, IfSome, IfNone, IsErrOf};
ghost use Rattle.sector_extent.specs.Causes.{Charges};
ghost use Rattle.block_disk.specs.Claims.{Quiet};
ghost use Rattle.gate_mark.specs.Mark.{file_of, sequence_in, body_in, IsKept, MayHold};
ghost use Rattle.lsmt_header.specs.Blocks.{IsSize, nil};
ghost use Rattle.sealed_layer.specs.Layers.{LayerIndex};
ghost use Rattle.image_core.specs.declared.loading.LoadFault.TheVariants as why;
ghost use Rattle.image_core.specs.Numbers as numbers;
ghost use Rattle.image_core.specs.Numbers.{manifest_file};
ghost use Rattle.image_core.specs.Manifest.{size_said, count_said, epoch_said, uuid_said, format_said, IsFormat};
ghost use Rattle.image_core.specs.View.{AreLayersOf};
ghost use Rattle.image_core.specs.Seen.{with_disk, IsLoaded};
ghost use Rattle.image_core.specs.Loading.{IsImageBody, HasManifest, IsLoadReason};
ghost use Rattle.image_core.specs.Found.{IsNamedBy, IsManifest, AreRead, ArePartsRead, IsPartsReason};

use crate::load_layers::{check_layers, have_size, read_sealed, stack_of};
use crate::load_tops::{load_commit, load_top};
use crate::manifest::FORMAT;
use crate::parts::{LayerList, Parts};
use block_disk::Disk;
use byte_fields::FieldReader;
use gate_mark::{Mark, MarkFault};
use layer_stack::StackFault;
use sealed_layer::{Layer, LayerFault, layers_law};
use std::alloc::Global;
use top_writer::TopReason;

/// The number of the manifest.
const MANIFEST: u32 = 0;

/// The most sectors of an image.
const MOST_SECTORS: u64 = 1 << 31;

/// The most layers of an image.
const MOST_LAYERS: u64 = 255;

/// Why an image was not loaded: the first of these that holds, but for the disk's fault and want of
/// memory, which may come before. A sealed layer with other sectors is looked at behind the stack.
#[derive(Clone, Copy, Debug, PartialEq, Eq)]
pub enum LoadFault {
    /// There was no memory.
    Memory,
    /// The disk failed.
    Failed,
    /// The manifest holds no mark.
    NoImage,
    /// Its sequence is this one, over 2^61.
    ManifestWorn(u64),
    /// It says something else than an image of 1 to 2^31 sectors and at most 255 layers, or its format
    /// is neither 0 nor 2.
    ManifestBad,
    /// A lower layer, or then a sealed one, has more sectors than the manifest says, or in format 0
    /// other ones.
    SizeDiffers,
    /// The sealed file of that epoch is no layer's, with this fault, which is neither the disk's nor
    /// want of memory.
    Sealed { epoch: u32, fault: LayerFault },
    /// The lower and the sealed layers form no stack, or one of them has the uuid of the commit in
    /// progress.
    Stack(StackFault),
    /// The files of the top of that epoch are none.
    NoTop { epoch: u32, reason: TopReason },
}

// What a manifest names: how many layers are committed, the uuid of the commit in progress, the
// sectors of the image, and whether its layers and tops have just as many.
#[derive(Clone, Copy)]
pub(crate) struct Named {
    pub(crate) count: u64,
    pub(crate) pending: Option<[u8; 16]>,
    pub(crate) sectors: u64,
    pub(crate) exact: bool,
}

// The mark of the manifest.
fn load_manifest<D: Disk>(disk: &mut D) -> Result<Mark, LoadFault>
    ensures mark { IfOk result (λ m. (file_of m ≡ manifest_file) × (sequence_in m ≤ 2 ^ 61)) }
    ensures bodies { IfOk result (λ m. (b : List ℕ) → MayHold m b → b ≡ body_in m) }
    ensures kept { IfOk result (IsKept (D.state disk.new)) }
    ensures shows { IfOk result (λ m. IsTrue D.tells → HasManifest (D.state disk.old).seen (body_in m)) }
    ensures reason { IfErr result (λ fault. IsTrue D.tells → (layers : List LayerIndex)
        → IsLoadReason (D.state disk.old).seen layers fault) }
    ensures quiet { Quiet (D.state disk.old) (D.state disk.new) }
    ensures cause { Charges D.faults disk.old disk.new (IsErrOf result why.Failed) }
{
    match Mark::load(disk, MANIFEST) {
        Ok(mark) => Ok(mark),
        Err(MarkFault::NoMark) => Err(LoadFault::NoImage),
        Err(MarkFault::Worn(sequence)) => Err(LoadFault::ManifestWorn(sequence)),
        Err(MarkFault::Failed) => Err(LoadFault::Failed),
    }
}

// What the body of a manifest says.
#[derive(Clone, Copy)]
struct Said {
    count: u64,
    epoch: u64,
    uuid: [u8; 16],
    sectors: u64,
    format: u64,
}

fn said_in(body: &[u8; 48]) -> Said
    ensures count { result.count ≡ count_said body.now }
    ensures epoch { result.epoch ≡ epoch_said body.now }
    ensures uuid { result.uuid ≡ uuid_said body.now }
    ensures sectors { result.sectors ≡ size_said body.now }
    ensures format { result.format ≡ format_said body.now }
{
    let mut fields = FieldReader::new(body);
    let count = fields.take_u64_le();
    let epoch = fields.take_u64_le();
    let uuid = *fields.take_bytes();
    let sectors = fields.take_u64_le();
    let format = fields.take_u64_le();
    Said {
        count,
        epoch,
        uuid,
        sectors,
        format,
    }
}

// The format is one that is known.
fn is_format(format: u64) -> bool
    ensures { IsTrue result ↔ IsFormat format }
{
    format == 0 || format == FORMAT
}

// The uuid, unless it is that of no layer.
fn named_uuid(uuid: [u8; 16]) -> Option<[u8; 16]>
    ensures some { IfSome result (λ u. (u ≡ uuid) × (uuid ≢ nil)) }
    ensures none { IfNone result (uuid ≡ nil) }
{
    if uuid == [0; 16] {
        return None;
    }
    Some(uuid)
}

// One more, where a commit is in progress.
pub(crate) fn with_pending(count: u64, pending: &Option<[u8; 16]>) -> u64
    requires { count ≤ 2 ^ 32 }
    ensures { result ≡ numbers.with_pending count pending.now }
{
    match pending {
        Some(_) => count + 1,
        None => count,
    }
}

// What the body of a manifest names, where it is one of an image over so many lower layers.
fn named_in(body: &[u8; 48], lowers: usize) -> Option<Named>
    requires few { lowers ≤ 255 }
    ensures some { IfSome result (IsNamedBy lowers body.now) }
    ensures none { IfNone result (¬ IsImageBody lowers body.now) }
{
    let said = said_in(body);
    let known = is_format(said.format);
    if !known {
        return None;
    }
    if said.sectors == 0 {
        return None;
    }
    if said.sectors > MOST_SECTORS {
        return None;
    }
    if said.count > MOST_LAYERS {
        return None;
    }
    let pending = named_uuid(said.uuid);
    if said.epoch != with_pending(said.count, &pending) {
        return None;
    }
    if with_pending(lowers as u64 + said.count, &pending) > MOST_LAYERS {
        return None;
    }
    Some(Named {
        count: said.count,
        pending,
        sectors: said.sectors,
        exact: said.format == 0,
    })
}

// The manifest, and what it names, where the lower layers have sectors for it.
fn open_manifest<D: Disk>(disk: &mut D, lowers: &[Layer]) -> Result<(Mark, Named), LoadFault>
    requires few { length lowers.now ≤ 255 }
    ensures found { IfOk result (λ it.
        IsManifest D.tells (D.state disk.old) (D.state disk.new) lowers.now it.0 it.1) }
    ensures reason { IfErr result (λ fault. IsTrue D.tells
        → IsLoadReason (D.state disk.old).seen lowers.now fault) }
    ensures quiet { Quiet (D.state disk.old) (D.state disk.new) }
    ensures cause { Charges D.faults disk.old disk.new (IsErrOf result why.Failed) }
{
    let mark = load_manifest(disk)?;
    let Some(named) = named_in(&mark.get(), lowers.len()) else {
        return Err(LoadFault::ManifestBad);
    };
    if !have_size(lowers, &named) {
        return Err(LoadFault::SizeDiffers);
    }
    Ok((mark, named))
}

impl Parts {
    // What an image has in memory whose manifest names this, of all its layers, of which so many are lower
    // ones.
    fn of_layers<D: Disk>(
        alloc: Global,
        disk: &mut D,
        manifest: Mark,
        named: Named,
        layers: Vec<Layer>,
        below: usize,
    ) -> Result<Parts, LoadFault>
        requires count { length layers.items ≡ below + named.count }
        requires few { numbers.with_pending (below + named.count) named.pending ≤ 255 }
        requires size { IsSize named.sectors }
        requires uuid { IfSome named.pending (λ uuid. uuid ≢ nil) }
        ensures read { IfOk result (λ parts. ArePartsRead D.tells (D.state disk.old) (D.state disk.new) named
            (take below layers.items) (drop below layers.items) parts) }
        ensures manifest { IfOk result (λ parts. parts.manifest ≡ manifest) }
        ensures reason { IfErr result (λ fault. IsTrue D.tells → IsPartsReason (D.state disk.old).seen named
            (take below layers.items) (drop below layers.items) fault) }
        ensures quiet { Quiet (D.state disk.old) (D.state disk.new) }
        ensures cause { Charges D.faults disk.old disk.new (IsErrOf result why.Failed) }
    {
        layers_law(layers.as_slice());
        check_layers(alloc, layers.as_slice(), below, &named)?;
        let Ok(stack) = stack_of(alloc, layers, below) else {
            return Err(LoadFault::Memory);
        };
        let stack = load_commit(alloc, disk, stack, &named)?;
        let epoch = with_pending(named.count, &named.pending) as u32;
        let top = load_top(alloc, disk, epoch, &named, stack.lowers.as_slice())?;
        Ok(Parts {
            manifest,
            stack,
            top,
            steps: 0,
        })
    }

    // Reads an image over lower layers, after a sync of its files. It changes nothing.
    pub(crate) fn load<D: Disk>(
        alloc: Global,
        disk: D,
        lowers: LayerList,
    ) -> (D, Result<Parts, LoadFault>)
        requires few { length lowers ≤ 255 }
        ensures stands { IfOk result.1 (λ parts. (files : List (List ℕ)) → AreLayersOf files lowers
            → IsLoaded (D.state disk) files (with_disk D.Disk result.0 parts)) }
        ensures frame { IfOk result.1 (λ parts. (parts.stack.lowers ≡ lowers) × (parts.steps ≡ 0)) }
        ensures begun { IfOk result.1 (λ parts. IfSome parts.stack.commit (λ c. c.sealing.done ≡ 0)) }
        ensures reason { IfErr result.1 (λ fault. IsTrue D.tells → IsLoadReason (D.state disk).seen lowers fault) }
        ensures quiet { Quiet (D.state disk) (D.state result.0) }
        ensures cause { Charges D.faults disk result.0 (IsErrOf result.1 why.Failed) }
    {
        let mut disk = disk;
        let (manifest, named) = match open_manifest(&mut disk, lowers.as_slice()) {
            Ok(found) => found,
            Err(fault) => return (disk, Err(fault)),
        };
        let below = lowers.as_slice().len();
        let (mut disk, layers) = read_sealed(alloc, disk, lowers.into_vec(), named.count as u32);
        let layers = match layers {
            Ok(layers) => layers,
            Err(fault) => return (disk, Err(fault)),
        };
        let parts = Parts::of_layers(alloc, &mut disk, manifest, named, layers, below);
        (disk, parts)
    }
}
