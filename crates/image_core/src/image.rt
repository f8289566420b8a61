//! The image with its disk.
ghost use Rattle.std.specs.Prelude.{◌≡◌, ◌≢◌, ℕ, ◌+◌, ◌*◌, ◌^◌, ◌<◌, ◌≤◌, ◌⊎◌, ◌↔◌, List, []};
ghost use Rattle.std.specs.Prelude.{length, Option, Err, None, IsTrue, IfSome, IfOk, IfErr};
ghost use Rattle.std.specs.Prelude.{OnOk, OnErr, MatchResult, IsErrOf, IsErr};
ghost use Rattle.std.specs.Arc.{arc_value};
ghost use Rattle.sector_extent.specs.Rows.{rows_for};
ghost use Rattle.lsmt_header.specs.Blocks.{IsSize};
ghost use Rattle.gate_mark.specs.MarkFile.{mark_of};
ghost use Rattle.flat_image.specs.declared.act.Act.TheVariants.{Read, Write, Zero, Flush};
ghost use Rattle.flat_image.specs.History.{History, now, IsOver};
ghost use Rattle.flat_image.specs.declared.base.Base as bases;
ghost use Rattle.top_writer.specs.declared.fault.WriteFault.TheVariants.{Full, Failed};
ghost use Rattle.top_writer.specs.declared.fault.ReadFault.TheVariants as reads;
ghost use Rattle.top_writer.specs.Gaps.{Paints, AreGaps};
ghost use Rattle.image_core.specs.declared.creating.CreateFault.TheVariants as faults;
ghost use Rattle.image_core.specs.declared.growing.GrowFault.TheVariants as grows;
ghost use Rattle.image_core.specs.declared.loading.LoadFault.TheVariants as why;
ghost use Rattle.image_core.specs.Growing.{noted_grow, pending_in, IsRefusedGrow};
ghost use Rattle.image_core.specs.Loading.{IsLoadReason, upper_uuid};
ghost use Rattle.block_disk.specs.Claims.{Quiet};
ghost use Rattle.image_core.specs.Manifest.{IsInFormat2};
ghost use Rattle.image_core.specs.Numbers.{manifest_file};
ghost use Rattle.image_core.specs.Shows.{Shows, IsUnworn};
ghost use Rattle.image_core.specs.View.{AreLayersOf};
ghost use Rattle.image_core.specs.Opening.{lowers_from};
ghost use Rattle.image_core.specs.Pieces.{SnapshotView, IsSnapshotOf, IsStatusOf};
ghost use Rattle.image_core.specs.Planning.{IsPlanOf, ReadsBelow};
ghost use Rattle.image_core.specs.Parts.{noted_change, noted_call, noted_read};
ghost use Rattle.image_core.specs.Seen.{seen, view, faults_in, disk_of, IsImage, StandsFor, Goes, Rests};
ghost use Rattle.image_core.specs.Seen.{IsLoaded, IsOpened};
ghost use Rattle.image_core.specs.Standing.{ViewStands};
ghost use Rattle.image_core.specs.Steps.{IsTold};
ghost use Rattle.image_core.specs.Upper.{upper, IsGap};
ghost use Rattle.sector_extent.specs.Causes.{Charges};
ghost use Rattle.image_core.specs.Creating.{AreLegal, fresh_at, IsNewManifest, IsMadeLast};

use crate::creating::CreateFault;
use crate::growing::GrowFault;
use crate::loading::LoadFault;
use crate::manifest::plain_body;
use crate::parts::{LayerList, Parts};
use crate::snapshot::Snapshot;
use crate::status::Status;
use block_disk::{Disk, DiskFailed};
use flat_image::{Act, Base, Stands};
use sealed_layer::layers_law;
use sector_extent::{Extent, GapList};
use std::alloc::Global;
use std::mem::replace;
use std::sync::Arc;
use top_writer::{ReadFault, WriteFault};

/// The image of lower layers and a writable top on a disk, which it owns. All counts are in sectors.
#[derive(Drop)]
pub struct Image<D: Disk> {
    pub(crate) disk: D,
    pub(crate) parts: Parts,
}

impl<D: Disk> Stands for Image<D> {
    type Act = Act;

    type Base = Base;

    ghost stands = { λ image base _ history. StandsFor (seen D.Disk image) base history };
}

impl<D: Disk> Image<D> {
    /// Makes an image of so many sectors over lower layers, in which nothing was written. They form a
    /// stack of no more sectors, or there are none. A disk whose manifest holds a mark already is refused, and
    /// nothing of it is changed. Where it held none, the files may hold anything after `Failed`.
    pub fn create(
        alloc: Global,
        disk: D,
        lowers: LayerList,
        sectors: u64,
    ) -> Result<Image<D>, (D, CreateFault)>
        requires lowers { AreLegal sectors lowers }
        requires size { IsSize sectors }
        ensures stands { IfOk result (λ image. (files : List (List ℕ)) → AreLayersOf files lowers
            → StandsFor (seen D.Disk image) (fresh_at sectors files (faults_in D.Disk image)) []) }
        // and so where no files are told: the layers are those of files with zeros as data
        ensures starts { IfOk result (λ image. (told : Option (List (List ℕ)))
            → IfSome told (λ files. AreLayersOf files lowers)
            → StandsFor (seen D.Disk image) (fresh_at sectors (lowers_from told lowers) (faults_in D.Disk image)) []) }
        ensures standing { IfOk result (λ image. IsImage (seen D.Disk image)) }
        ensures frame { IfOk result (λ image.
            ((view image).lowers ≡ lowers) × ((view image).steps ≡ 0) × ((view image).sectors ≡ sectors)) }
        ensures exists { IfErr result (λ refusal. IsTrue D.tells → refusal.1 ≡ faults.Exists
            → mark_of ((D.state disk).seen manifest_file) ≢ None) }
        ensures new { OnOk result (IsTrue D.tells → mark_of ((D.state disk).seen manifest_file) ≡ None) }
        ensures always { IsTrue D.tells → mark_of ((D.state disk).seen manifest_file) ≢ None
            → IfErr result (λ refusal. (refusal.1 ≡ faults.Exists) ⊎ (refusal.1 ≡ faults.Failed)) }
        ensures cause { MatchResult result (λ image. faults_in D.Disk image ≡ D.faults disk)
            (λ refusal. Charges D.faults disk refusal.0 (refusal.1 ≡ faults.Failed)) }
        ensures untouched { IfErr result (λ refusal. refusal.1 ≡ faults.Exists
            → Quiet (D.state disk) (D.state refusal.0)) }
        ensures unbegun { IfErr result (λ refusal. refusal.1 ≡ faults.Memory
            → Quiet (D.state disk) (D.state refusal.0)) }
        // what was written of the manifest has format 2
        ensures manifest { IfOk result (λ image. IsNewManifest sectors (seen D.Disk image)) }
        // a manifest comes only when the files of the top are there
        ensures last { MatchResult result
            (λ image. IsMadeLast sectors (upper_uuid lowers) (D.state disk) (seen D.Disk image).state)
            (λ refusal. IsMadeLast sectors (upper_uuid lowers) (D.state disk) (D.state refusal.0)) }
        // an image that is there stays as it was, whatever the answer
        ensures kept { IsTrue D.tells → mark_of ((D.state disk).seen manifest_file) ≢ None
            → IfErr result (λ refusal. Quiet (D.state disk) (D.state refusal.0)) }
    {
        let mut disk = disk;
        layers_law(lowers.as_slice());
        match Parts::create(alloc, &mut disk, lowers, sectors) {
            Ok(parts) => Ok(Image { disk, parts }),
            Err(fault) => Err((disk, fault)),
        }
    }

    /// Opens the image on a disk, over these lower layers, after a sync of each of its files. It writes and
    /// cuts nothing. The copying of a commit in progress starts again from the first piece.
    pub fn load(alloc: Global, disk: D, lowers: LayerList) -> Result<Image<D>, (D, LoadFault)>
        requires few { length lowers ≤ 255 }
        // no files with a sequence over 2^61 are opened
        ensures stands { IfOk result (λ image. (files : List (List ℕ)) → AreLayersOf files lowers
            → IsLoaded (D.state disk) files (seen D.Disk image)) }
        // and so where no files are told
        ensures starts { IfOk result (λ image. (told : Option (List (List ℕ)))
            → IfSome told (λ files. AreLayersOf files lowers)
            → IsOpened (D.state disk) told (seen D.Disk image)) }
        ensures standing { IfOk result (λ image. IsImage (seen D.Disk image)) }
        ensures frame { IfOk result (λ image. ((view image).lowers ≡ lowers) × ((view image).steps ≡ 0)) }
        // files that show an image over these layers are opened as that image, or there is no memory, or the disk
        // fails
        ensures complete { (base : bases.Base) (shows : Shows (D.state disk).seen base)
            → IsUnworn (D.state disk).seen base shows → AreLayersOf base.lowers lowers → IsTrue D.tells
            → MatchResult result (λ image.
            StandsFor (seen D.Disk image) (record base { faults = faults_in D.Disk image }) [])
            (λ refusal. (refusal.1 ≡ why.Memory) ⊎ (refusal.1 ≡ why.Failed)) }
        // a commit in progress begins anew: none of its file is written
        ensures begun { IfOk result (λ image. IfSome (view image).commit (λ c. c.done ≡ 0)) }
        ensures reason { IfErr result (λ refusal. IsTrue D.tells → IsLoadReason (D.state disk).seen lowers refusal.1) }
        ensures quiet { MatchResult result (λ image. Quiet (D.state disk) (seen D.Disk image).state)
            (λ refusal. Quiet (D.state disk) (D.state refusal.0)) }
        ensures cause { MatchResult result (λ image. faults_in D.Disk image ≡ D.faults disk)
            (λ refusal. Charges D.faults disk refusal.0 (refusal.1 ≡ why.Failed)) }
    {
        layers_law(lowers.as_slice());
        let (disk, outcome) = Parts::load(alloc, disk, lowers);
        match outcome {
            Ok(parts) => Ok(Image { disk, parts }),
            Err(fault) => Err((disk, fault)),
        }
    }

    /// Writes the sectors of an extent within the image. They are kept from the next flush on. A
    /// refusal as being full, or for want of memory, changes nothing of the image and nothing of the
    /// disk.
    pub fn write(&mut self, extent: Extent, bytes: &[u8]) -> Result<(), WriteFault>
        requires standing { IsImage (seen D.Disk self.old) }
        requires size { length bytes.now ≡ 512 * extent.count }
        requires within { extent.at + extent.count ≤ (view self.old).sectors }
        requires steps { (view self.old).steps < 2 ^ 62 }
        ensures goes { Goes (seen D.Disk self.old) (seen D.Disk self.new)
            (noted_change (Write extent.at bytes.now) result) }
        ensures full { IsOver ((view self.old).rows + rows_for extent.count) ((view self.old).filled + extent.count)
            ↔ (result ≡ Err (Full (view self.old).rows (view self.old).filled)) }
        ensures only { (rows sectors : ℕ) → result ≡ Err (Full rows sectors)
            → (rows ≡ (view self.old).rows) × (sectors ≡ (view self.old).filled) }
        ensures same { OnErr result (¬ IsErrOf result Failed → view self.new ≡ view self.old) }
        // a refusal that is not the disk's comes before the disk is called
        ensures spared { OnErr result (¬ IsErrOf result Failed → disk_of self.new ≡ disk_of self.old) }
        ensures cause { Charges (faults_in D.Disk) self.old self.new (IsErrOf result Failed) }
    {
        match self.parts.top.write(&mut self.disk, extent, bytes) {
            Ok(()) => {
                self.parts.steps += 1;
                Ok(())
            }
            Err(WriteFault::Failed) => {
                self.parts.steps += 1;
                Err(WriteFault::Failed)
            }
            Err(WriteFault::Memory) => Err(WriteFault::Memory),
            Err(WriteFault::Full { rows, sectors }) => Err(WriteFault::Full { rows, sectors }),
        }
    }

    /// Makes the sectors of an extent within the image zeros. It makes no call of the disk.
    pub fn zero(&mut self, extent: Extent) -> Result<(), WriteFault>
        requires standing { IsImage (seen D.Disk self.old) }
        requires within { extent.at + extent.count ≤ (view self.old).sectors }
        requires steps { (view self.old).steps < 2 ^ 62 }
        ensures disk { disk_of self.new ≡ disk_of self.old }
        ensures goes { Goes (seen D.Disk self.old) (seen D.Disk self.new)
            (noted_change (Zero extent.at extent.count) result) }
        ensures full { IsOver ((view self.old).rows + rows_for extent.count) (view self.old).filled
            ↔ (result ≡ Err (Full (view self.old).rows (view self.old).filled)) }
        ensures only { (rows sectors : ℕ) → result ≡ Err (Full rows sectors)
            → (rows ≡ (view self.old).rows) × (sectors ≡ (view self.old).filled) }
        ensures same { OnErr result (view self.new ≡ view self.old) }
        ensures failed { IsErrOf result Failed → ⊥ }
    {
        match self.parts.top.zero(extent) {
            Ok(()) => {
                self.parts.steps += 1;
                Ok(())
            }
            Err(WriteFault::Failed) => {
                self.parts.steps += 1;
                Err(WriteFault::Failed)
            }
            Err(WriteFault::Memory) => Err(WriteFault::Memory),
            Err(WriteFault::Full { rows, sectors }) => Err(WriteFault::Full { rows, sectors }),
        }
    }

    /// Puts all that was written and zeroed onto the disk. After a failure the image goes on as it
    /// was, and a later flush keeps all of it.
    pub fn flush(&mut self) -> Result<(), DiskFailed>
        requires standing { IsImage (seen D.Disk self.old) }
        requires steps { (view self.old).steps < 2 ^ 62 }
        ensures goes { Goes (seen D.Disk self.old) (seen D.Disk self.new) (noted_call Flush result) }
        ensures cause { Charges (faults_in D.Disk) self.old self.new (IsErr result) }
    {
        match self.parts.top.flush(&mut self.disk) {
            Ok(()) => {
                self.parts.steps += 1;
                Ok(())
            }
            Err(DiskFailed) => {
                self.parts.steps += 1;
                Err(DiskFailed)
            }
        }
    }

    /// Lets the image have so many sectors, more than before; those that come are zeros. It flushes the
    /// top, sets the manifest and lets the top grow. It takes no memory. After a failure the image goes on
    /// as it was, and a crash may leave it grown; a later grow that succeeds heals that.
    pub fn grow(&mut self, sectors: u64) -> Result<(), GrowFault>
        requires standing { IsImage (seen D.Disk self.old) }
        requires few { sectors ≤ 2 ^ 31 }
        requires steps { (view self.old).steps < 2 ^ 62 }
        ensures goes { Goes (seen D.Disk self.old) (seen D.Disk self.new) (noted_grow sectors result) }
        ensures refused { IsRefusedGrow (pending_in (view self.old)) (view self.old).sectors sectors result }
        // a refusal that is not the disk's leaves all as it was
        ensures same { OnErr result (¬ IsErrOf result grows.Failed → self.new ≡ self.old) }
        // what was written of the manifest has format 2
        ensures format { OnOk result (IsInFormat2 D.tells (seen D.Disk self.new).state) }
        ensures cause { Charges (faults_in D.Disk) self.old self.new (IsErrOf result grows.Failed) }
    {
        if let Some(uuid) = self.parts.stack.pending() {
            return Err(GrowFault::Busy(uuid));
        }
        let own = self.sectors();
        if sectors <= own {
            return Err(GrowFault::NotLarger(own));
        }
        let top = &mut self.parts.top;
        match top.flush(&mut self.disk) {
            Ok(()) => {}
            Err(DiskFailed) => {
                self.parts.steps += 1;
                return Err(GrowFault::Failed);
            }
        }
        let count = self.parts.stack.count() as u64;
        let body = plain_body(count, sectors);
        match self.parts.manifest.set(&mut self.disk, &body) {
            Ok(()) => {
                self.parts.top.grow(sectors);
                self.parts.stack.grow(sectors);
                self.parts.steps += 1;
                Ok(())
            }
            Err(DiskFailed) => {
                self.parts.steps += 1;
                Err(GrowFault::Failed)
            }
        }
    }

    /// The part of a read that the top has: its sectors in `out`, and the others as `gaps`, in order,
    /// with the layers in which these are to be searched. What `gaps` held before is dropped, and its
    /// memory serves again. After a refusal `out` and `gaps` may hold anything.
    pub fn plan(
        &mut self,
        alloc: Global,
        extent: Extent,
        out: &mut [u8],
        gaps: &mut GapList,
    ) -> Result<Arc<Snapshot>, ReadFault>
        requires standing { IsImage (seen D.Disk self.old) }
        requires size { length out.old ≡ 512 * extent.count }
        requires within { extent.at + extent.count ≤ (view self.old).sectors }
        requires steps { (view self.old).steps < 2 ^ 62 }
        ensures goes { Goes (seen D.Disk self.old) (seen D.Disk self.new)
            (noted_read (Read extent.at extent.count) result) }
        ensures bytes { OnOk result (IsTrue D.tells → (base : bases.Base) (history : History)
            → StandsFor (seen D.Disk self.old) base history
            → Paints (upper (now base history)) extent.at extent.count out.old out.new) }
        ensures gaps { OnOk result ((base : bases.Base) (history : History)
            → StandsFor (seen D.Disk self.old) base history
            → AreGaps (IsGap (now base history)) extent.at (extent.at + extent.count) gaps.new) }
        // the image after the history stands in `out`, but for the gaps, and there it is that of the layers alone
        ensures image { OnOk result (IsTrue D.tells → (base : bases.Base) (history : History)
            → StandsFor (seen D.Disk self.old) base history
            → IsPlanOf (view self.old).sectors base history extent.at extent.count out.old out.new) }
        ensures snapshot { IfOk result (λ snapshot.
            IsSnapshotOf (arc_value snapshot) (view self.old).lowers (view self.old).committed) }
        ensures quiet { Rests (seen D.Disk self.old) (seen D.Disk self.new) }
        ensures cause { Charges (faults_in D.Disk) self.old self.new (IsErrOf result reads.Failed) }
    {
        let Ok(snapshot) = Arc::try_clone(&self.parts.stack.snapshot) else {
            return Err(ReadFault::Memory);
        };
        let mut kept = replace(gaps, GapList::from_vec(Vec::new(alloc))).into_vec();
        kept.clear();
        *gaps = GapList::from_vec(kept);
        let parts = &self.parts;
        match parts.read_upper(alloc, &mut self.disk, extent, out, gaps) {
            Ok(()) => {
                self.parts.steps += 1;
                Ok(snapshot)
            }
            Err(ReadFault::Failed) => {
                self.parts.steps += 1;
                Err(ReadFault::Failed)
            }
            Err(ReadFault::Memory) => Err(ReadFault::Memory),
        }
    }

    /// Its sectors.
    pub fn sectors(&self) -> u64
        ensures { result ≡ (view self.now).sectors }
    {
        self.parts.top.sectors()
    }

    /// What it says of itself.
    pub fn status(&self) -> Status
        requires standing { IsImage (seen D.Disk self.now) }
        ensures view { IsStatusOf (view self.now) result }
        ensures told { (base : bases.Base) (history : History) → StandsFor (seen D.Disk self.now) base history
            → IsTold (now base history) result }
    {
        Status {
            sectors: self.sectors(),
            layers: self.parts.stack.snapshot.lowers() + self.parts.stack.count(),
            pending: self.parts.stack.pending(),
        }
    }

    /// The entries of its history.
    pub fn steps(&self) -> u64
        ensures { result ≡ (view self.now).steps }
    {
        self.parts.steps
    }

    /// Its disk.
    pub fn into_disk(self) -> D
        ensures { result ≡ disk_of self }
    {
        let Image { disk, parts: _ } = self;
        disk
    }

    /// That an image stands for a history says what its files and its tables are, and what a crash
    /// leaves.
    pub fn standing_law(&self)
        ensures { (base : bases.Base) (history : History) → StandsFor (seen D.Disk self.now) base history
            → ViewStands D.tells (seen D.Disk self.now).state (faults_in D.Disk self.now) (view self.now)
            base history }
    {}

    /// What the snapshots that it gives say of the image in its gaps.
    pub fn below_law(&self)
        ensures { (base : bases.Base) (history : History) (s : SnapshotView)
            → StandsFor (seen D.Disk self.now) base history
            → IsSnapshotOf s (view self.now).lowers (view self.now).committed → ReadsBelow base history s }
    {}
}
