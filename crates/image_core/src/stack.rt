//! The layers under the top of an image, and what a commit makes of them.
ghost use Rattle.std.specs.Prelude.{◌≡◌, ◌≢◌, ℕ, ◌+◌, ◌^◌, ◌<◌, ◌≤◌, ◌↔◌, List, [], ◌∷◌, ◌++◌, Bool, Option, Some, None, IsTrue, IfOk, OnOk, OnErr, IsErrOf, IsErr, Contains, length, map};
ghost use Rattle.std.specs.Option.{option_map};
ghost use Rattle.std.specs.Vec.{vec_len, vec_capacity};
ghost use Rattle.std.specs.Arc.{arc_value};
ghost use Rattle.sector_extent.specs.Causes.{Charges};
ghost use Rattle.seg_table.specs.Cells.{cells_of};
ghost use Rattle.lsmt_header.specs.Blocks.{IsSize, nil};
ghost use Rattle.flat_image.specs.CanonicalFiles.{canonical_rows};
ghost use Rattle.flat_image.specs.Frozen.{Frozen};
ghost use Rattle.flat_image.specs.Stacks.{uppermost};
ghost use Rattle.layer_commit.specs.Fitting.{Begun};
ghost use Rattle.layer_commit.specs.Gathered.{ArePlaces, EndBy};
ghost use Rattle.layer_commit.specs.Sources.{AreWithin, table_sheet};
ghost use Rattle.layer_commit.specs.View.{file_by};
ghost use Rattle.flat_image.specs.LayerFiles.{LayerOf};
ghost use Rattle.top_writer.specs.Files.{data_file};
ghost use Rattle.top_writer.specs.View.{table_of, sectors_of};
ghost use Rattle.top_writer.specs.declared.top.Top.{Top};
ghost use Rattle.image_core.specs.declared.commit.FreezeFault.TheVariants as freezes;
ghost use Rattle.image_core.specs.declared.commit.CopyFault.TheVariants as copies;
ghost use Rattle.image_core.specs.declared.commit.SealFault.TheVariants as seals;
ghost use Rattle.image_core.specs.Committing.{IsRefusedFreeze, MayFreeze, IsRefusedCopy, IsRefusedSeal, done_of, total_of};
ghost use Rattle.image_core.specs.Loading.{upper_uuid, upper_size};
ghost use Rattle.image_core.specs.Numbers.{sealed_file};
ghost use Rattle.image_core.specs.Pieces.{IsSnapshotOf};
ghost use Rattle.image_core.specs.Parts.{layer_in, commit_view, NextFits, NextsFit, IsBareStack, IsSameStack, IsGrownStack, IsNext, TakesNext};

use crate::commit::{CopyFault, FreezeFault, SealFault};
use crate::parts::{Commit, LayerList, Stack};
use crate::snapshot::Snapshot;
use block_disk::{Disk, DiskFailed};
use layer_commit::Sealing;
use sealed_layer::Layer;
use sector_extent::Memory;
use std::alloc::Global;
use std::sync::Arc;
use top_writer::{Top, TopMakeFault};

// The most layers of an image.
const MOST_LAYERS: usize = 255;

// The numbers of the files of an epoch.
fn data_number(epoch: u32) -> u32
    requires { epoch ≤ 255 }
    ensures { result ≡ data_file epoch }
{
    4 * epoch + 1
}

pub(crate) fn sealed_number(epoch: u32) -> u32
    requires { epoch ≤ 2 ^ 29 }
    ensures { result ≡ sealed_file epoch }
{
    4 * epoch + 4
}

// They are the same uuid.
pub(crate) fn is_same(one: &[u8; 16], other: &[u8; 16]) -> bool
    ensures { IsTrue result ↔ (one.now ≡ other.now) }
{
    one == other
}

// One of the layers has the uuid.
fn has_uuid(layers: &[Layer], uuid: &[u8; 16]) -> bool
    ensures { IsTrue result ↔ Contains (map (λ l. l.head.uuid) layers.now) uuid.now }
{
    for layer in layers {
        let found = is_same(&layer.head().uuid, uuid);
        if found {
            return true;
        }
    }
    false
}

// The uuid of the uppermost layer, or that one where there is none.
fn uuid_of(layers: &[Layer], none: [u8; 16]) -> [u8; 16]
    ensures { result ≡ uppermost none (map (λ l. l.head.uuid) layers.now) }
{
    if layers.is_empty() {
        return none;
    }
    layers[layers.len() - 1].head().uuid
}

// The sectors of the uppermost layer, or so many where there is none.
fn size_of(layers: &[Layer], none: u64) -> u64
    ensures { result ≡ upper_size none layers.now }
{
    if layers.is_empty() {
        return none;
    }
    layers[layers.len() - 1].head().sectors
}

// The memory of a commit: what writes its file, and the snapshot that its seal puts in.
#[derive(Drop)]
pub(crate) struct Ready {
    pub(crate) sealing: Sealing,
    pub(crate) snapshot: Arc<Snapshot>,
}

impl Stack {
    // Lower layers over which nothing is committed.
    pub(crate) fn of(alloc: Global, lowers: LayerList, snapshot: Arc<Snapshot>) -> Stack
        requires snapshot { IsSnapshotOf (arc_value snapshot) lowers [] }
        ensures { IsBareStack lowers result }
    {
        Stack {
            lowers,
            committed: Vec::new(alloc),
            snapshot,
            commit: None,
            next: None,
        }
    }

    // How many layers were committed.
    pub(crate) fn count(&self) -> u32
        requires { length self.now.committed.items ≤ 255 }
        ensures { result ≡ length self.now.committed.items }
    {
        self.committed.len() as u32
    }

    // The uuid of the commit in progress.
    pub(crate) fn pending(&self) -> Option<[u8; 16]>
        ensures { result ≡ option_map (λ c. c.uuid) self.now.commit }
    {
        match &self.commit {
            Some(commit) => Some(commit.uuid),
            None => None,
        }
    }

    // Refuses a freeze for what the image has.
    pub(crate) fn check_freeze(&self, uuid: &[u8; 16]) -> Result<(), FreezeFault>
        requires few { length self.now.lowers + length self.now.committed.items ≤ 255 }
        ensures refused { IsRefusedFreeze (option_map (λ c. c.uuid) self.now.commit)
            (map (λ l. l.head.uuid) (self.now.lowers ++ self.now.committed.items)) uuid.now result }
        ensures long { length uuid.now ≡ 16 }
        ensures ok { OnOk result (MayFreeze (option_map (λ c. c.uuid) self.now.commit)
            (map (λ l. l.head.uuid) (self.now.lowers ++ self.now.committed.items)) uuid.now) }
        ensures memory { IsErrOf result freezes.Memory → ⊥ }
        ensures failed { IsErrOf result freezes.Failed → ⊥ }
    {
        if let Some(commit) = &self.commit {
            return Err(FreezeFault::Busy(commit.uuid));
        }
        if self.lowers.as_slice().len() + self.committed.len() >= MOST_LAYERS {
            return Err(FreezeFault::TooMany);
        }
        if has_uuid(self.lowers.as_slice(), uuid) {
            return Err(FreezeFault::UuidTwice);
        }
        if has_uuid(self.committed.as_slice(), uuid) {
            return Err(FreezeFault::UuidTwice);
        }
        Ok(())
    }

    // Refuses a copy for what the image has.
    pub(crate) fn check_copy(&self, uuid: &[u8; 16]) -> Result<(), CopyFault>
        ensures refused { IsRefusedCopy (option_map (λ c. c.uuid) self.now.commit) uuid.now result }
        ensures ok { OnOk result (option_map (λ c. c.uuid) self.now.commit ≡ Some uuid.now) }
        ensures failed { IsErrOf result copies.Failed → ⊥ }
    {
        match &self.commit {
            None => Err(CopyFault::NotPending(None)),
            Some(commit) => {
                if !is_same(&commit.uuid, uuid) {
                    return Err(CopyFault::NotPending(Some(commit.uuid)));
                }
                Ok(())
            }
        }
    }

    // Refuses a seal for what the image has.
    pub(crate) fn check_seal(&self, uuid: &[u8; 16]) -> Result<(), SealFault>
        ensures refused { IsRefusedSeal (option_map (λ c. c.uuid) self.now.commit)
            (done_of (option_map commit_view self.now.commit))
            (total_of (option_map commit_view self.now.commit)) uuid.now result }
        ensures ok { OnOk result ((option_map (λ c. c.uuid) self.now.commit ≡ Some uuid.now)
            × (total_of (option_map commit_view self.now.commit) ≤ done_of (option_map commit_view self.now.commit))) }
        ensures failed { IsErrOf result seals.Failed → ⊥ }
    {
        match &self.commit {
            None => Err(SealFault::NotPending(None)),
            Some(commit) => {
                if !is_same(&commit.uuid, uuid) {
                    return Err(SealFault::NotPending(Some(commit.uuid)));
                }
                let done = commit.sealing.done();
                let total = commit.sealing.total();
                if done < total {
                    return Err(SealFault::NotWhole { done, total });
                }
                Ok(())
            }
        }
    }

    // The uuid of the uppermost layer, or that of none.
    fn parent(&self) -> [u8; 16]
        ensures { result ≡ upper_uuid (self.now.lowers ++ self.now.committed.items) }
    {
        uuid_of(
            self.committed.as_slice(),
            uuid_of(self.lowers.as_slice(), [0; 16]),
        )
    }

    // The sectors of the uppermost layer, or so many where there is none.
    fn below(&self, none: u64) -> u64
        ensures { result ≡ upper_size none (self.now.lowers ++ self.now.committed.items) }
    {
        size_of(
            self.committed.as_slice(),
            size_of(self.lowers.as_slice(), none),
        )
    }

    // Takes all the memory of a commit of the top.
    pub(crate) fn prepare(
        &mut self,
        alloc: Global,
        top: &Top,
        uuid: [u8; 16],
    ) -> Result<Ready, Memory>
        requires named { uuid ≢ nil }
        requires few { length self.old.lowers + length self.old.committed.items < 255 }
        requires size { IsSize (sectors_of top.now) }
        requires within { EndBy (sectors_of top.now) (cells_of (table_of top.now)) }
        requires low { ArePlaces (cells_of (table_of top.now)) }
        requires rows { (stored : List ℕ)
            × (length (canonical_rows (table_sheet stored (sectors_of top.now) (table_of top.now))) ≤ 2 ^ 24) }
        ensures begun { IfOk result (λ ready. Begun (table_of top.now) uuid
            (upper_uuid (self.old.lowers ++ self.old.committed.items))
            (upper_size (sectors_of top.now) (self.old.lowers ++ self.old.committed.items)) (sectors_of top.now)
            (data_file (length self.old.committed.items)) (sealed_file (length self.old.committed.items))
            ready.sealing) }
        ensures snapshot { IfOk result (λ ready.
            IsSnapshotOf (arc_value self.old.snapshot) self.old.lowers self.old.committed.items
            → IsSnapshotOf (arc_value ready.snapshot) self.old.lowers
            (self.old.committed.items ++ layer_in ready.sealing ∷ [])) }
        ensures room { OnOk result (vec_len self.new.committed < vec_capacity self.new.committed) }
        ensures same { IsSameStack self.old self.new }
    {
        let count = self.count();
        let parent = self.parent();
        let below = self.below(top.sectors());
        let sealing = Sealing::begin(
            alloc,
            top.table(),
            uuid,
            parent,
            below,
            top.sectors(),
            data_number(count),
            sealed_number(count),
        )?;
        let number = self.lowers.as_slice().len() + self.committed.len();
        let snapshot = self.snapshot.over(alloc, sealing.layer(), number as u8)?;
        let snapshot = Arc::new(alloc, snapshot)?;
        self.committed.reserve(1)?;
        Ok(Ready { sealing, snapshot })
    }

    // The top of the next epoch. Its files are made where they are not yet.
    pub(crate) fn take_next<D: Disk>(
        &mut self,
        alloc: Global,
        disk: &mut D,
        sectors: u64,
    ) -> Result<Top, DiskFailed>
        requires size { IsSize sectors }
        requires few { length self.old.committed.items < 255 }
        ensures fits { IfOk result (λ top. (frozen : Option Frozen) → frozen ≡ None
            → NextsFit D.tells (D.state disk.old) sectors (length self.old.committed.items) frozen self.old.next
            → NextFits D.tells (D.state disk.new) sectors (length self.old.committed.items) frozen top) }
        ensures had { IfOk result (IsNext self.old.next) }
        ensures goes { TakesNext D.Disk (length self.old.committed.items + 1) self.old.next disk.old disk.new }
        ensures taken { OnOk result (self.new ≡ record self.old { next = None }) }
        ensures err { OnErr result (self.new ≡ self.old) }
        ensures cause { Charges D.faults disk.old disk.new (IsErr result) }
    {
        match self.next.take() {
            Some(next) => Ok(next),
            None => match Top::create(alloc, disk, self.count() + 1, sectors, [0; 16]) {
                Ok(next) => Ok(next),
                Err(TopMakeFault::Memory) => Err(DiskFailed),
                Err(TopMakeFault::Failed) => Err(DiskFailed),
            },
        }
    }

    // Lets the top of the next epoch have so many sectors, where its files are made.
    pub(crate) fn grow(&mut self, sectors: u64)
        requires more { (top : Top) → self.old.next ≡ Some top → sectors_of top ≤ sectors }
        requires few { sectors ≤ 2 ^ 31 }
        ensures { IsGrownStack self.old sectors self.new }
    {
        if let Some(next) = &mut self.next {
            next.grow(sectors);
        }
    }

    // The file of a commit is a layer from now on. Its epoch is answered.
    pub(crate) fn put_sealed(&mut self, commit: Commit) -> u32
        requires room { vec_len self.old.committed < vec_capacity self.old.committed }
        requires few { length self.old.committed.items ≤ 255 }
        ensures epoch { result ≡ length self.old.committed.items }
        ensures lowers { self.new.lowers ≡ self.old.lowers }
        ensures committed { self.new.committed.items ≡ self.old.committed.items ++ layer_in commit.sealing ∷ [] }
        ensures layer { (stored : List ℕ) → AreWithin stored commit.sealing.sources
            → LayerOf (file_by commit.sealing stored) commit.sealing.head commit.sealing.rows }
        ensures snapshot { self.new.snapshot ≡ commit.snapshot }
        ensures commit { self.new.commit ≡ self.old.commit }
        ensures next { self.new.next ≡ self.old.next }
    {
        let epoch = self.count();
        let Commit {
            uuid: _,
            top: _,
            sealing,
            snapshot,
        } = commit;
        self.committed.push_reserved(sealing.into_layer());
        self.snapshot = snapshot;
        epoch
    }
}
