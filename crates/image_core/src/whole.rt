//! Reads through the layers.
ghost use Rattle.std.specs.Prelude.{◌≡◌, ◌≢◌, ℕ, ◌+◌, ◌-◌, ◌*◌, ◌^◌, ◌<◌, ◌≤◌, ◌⊎◌, ◌↔◌, List, [], length, take, drop, All, IsTrue, IfOk, IfErr, OnOk, IfSome, IsErrOf, IsErr, slice_index_or};
ghost use Rattle.std.specs.Arc.{arc_value};
ghost use Rattle.std.specs.Option.{ForSome};
ghost use Rattle.layer_shelf.specs.Shelves.{SameFiles};
ghost use Rattle.flat_image.specs.declared.act.Act.TheVariants.{Read};
ghost use Rattle.flat_image.specs.declared.base.Base as bases;
ghost use Rattle.flat_image.specs.History.{History, now, after, reply};
ghost use Rattle.flat_image.specs.RowCells.{sector_at};
ghost use Rattle.merged_index.specs.Cells.{cells_of};
ghost use Rattle.merged_index.specs.Pieces.{IsPiece, end_of, onward};
ghost use Rattle.merged_index.specs.Painting.{bytes_by};
ghost use Rattle.block_disk.specs.Claims.{Quiet};
ghost use Rattle.image_core.specs.Sources.{files_told};
ghost use Rattle.image_core.specs.View.{AreLayersOf, sealed_read};
ghost use Rattle.image_core.specs.Upper.{IsGap};
ghost use Rattle.image_core.specs.Seen.{seen, view, faults_in, IsImage, StandsFor, Goes, Rests};
ghost use Rattle.sector_extent.specs.Causes.{Charges};
ghost use Rattle.image_core.specs.declared.whole.WholeFault.TheVariants as why;
ghost use Rattle.image_core.specs.Whole.{noted_whole, sectors_by, IsFilled, AreFilled, LiesIn, IsReadable, AreOnShelf, IsJoined, cells_on, Pending};

use crate::image::Image;
use crate::snapshot::Snapshot;
use crate::sources::{ImageFiles, LayerSource};
use block_disk::Disk;
use flat_image::Stands;
use layer_shelf::{Shelf, ShelfFailed};
use merged_index::{Piece, PieceWhat};
use sector_extent::{Extent, GapList, SECTOR, Steps};
use std::alloc::Global;
use std::marker::Brand;
use std::sync::ledger::{Blank, Ledger};
use top_writer::ReadFault;

/// Why a read through the layers was refused.
#[derive(Clone, Copy, Debug, PartialEq, Eq)]
pub enum WholeFault {
    /// There was no memory.
    Memory,
    /// The disk failed.
    DiskFault,
    /// The shelf of the lower layers failed.
    ShelfFault,
}

// Pieces that are looked up at a time.
const PIECES: usize = 32;

const NOTHING: Piece = Piece {
    extent: Extent { at: 0, count: 0 },
    what: PieceWhat::Hole,
};

// No sectors, before that one.
fn nothing_before(at: u64) -> Piece
    requires { at ≤ 2 ^ 31 }
    ensures at { result.extent.at ≡ at }
    ensures none { result.extent.count ≡ 0 }
    ensures what { result.what ≡ PieceWhat.Hole }
{
    Piece {
        extent: Extent { at, count: 0 },
        what: PieceWhat::Hole,
    }
}

// The sectors of a gap behind a piece.
fn behind(gap: &Extent, run: &Piece) -> Extent
    requires { end_of run.now ≤ gap.now.at + gap.now.count }
    ensures at { result.at ≡ end_of run.now }
    ensures end { result.at + result.count ≡ gap.now.at + gap.now.count }
{
    let at = run.extent.end();
    Extent {
        at,
        count: (gap.end() - at) as u32,
    }
}

// The next sectors have what would stand there if those before them went on.
fn goes_on(what: PieceWhat, count: u32, next: PieceWhat) -> bool
    ensures { IsTrue result ↔ (next ≡ onward what count) }
{
    match (what, next) {
        (PieceWhat::Hole, PieceWhat::Hole) => true,
        (PieceWhat::Zero, PieceWhat::Zero) => true,
        (
            PieceWhat::Filled { layer, place },
            PieceWhat::Filled {
                layer: other,
                place: then,
            },
        ) => layer == other && then >= place && then - place == count as u64,
        _ => false,
    }
}

// The sectors of both pieces, as those of the first one.
fn both(first: &Piece, next: &Piece) -> Piece
    requires behind { next.now.extent.at ≡ end_of first.now }
    requires goes_on { next.now.what ≡ onward first.now.what first.now.extent.count }
    ensures { IsJoined first.now next.now result }
{
    Piece {
        extent: Extent {
            at: first.extent.at,
            count: (next.extent.end() - first.extent.at) as u32,
        },
        what: first.what,
    }
}

// Fills bytes with zeros, or with sectors of the layer's file, in one read.
fn fill<F: LayerSource>(
    source: &mut F,
    what: PieceWhat,
    count: u32,
    piece: &mut [u8],
) -> Result<(), F::Fault>
    requires size { length piece.old ≡ 512 * count }
    requires readable { IsReadable (F.layers source.old) what count }
    ensures filled { OnOk result (IfSome (F.files source.old) (λ files. piece.new ≡ bytes_by files what count)) }
    ensures same { SameFiles F.files F.layers source.old source.new }
    ensures reads { OnOk result (F.reads source.old source.new) }
    ensures fails { IfErr result (λ fault. F.fails source.old source.new fault) }
{
    match what {
        PieceWhat::Filled { layer, place } => { source.read_sectors(layer as u32, place, piece)? }
        PieceWhat::Hole | PieceWhat::Zero => piece.fill(0),
    }
    Ok(())
}

// Fills the sectors of a run in bytes that begin with the sector `at`.
fn read_run<F: LayerSource>(
    source: &mut F,
    run: &Piece,
    at: u64,
    out: &mut [u8],
) -> Result<(), F::Fault>
    requires there { LiesIn at (length out.old) run.now.extent }
    requires readable { IsReadable (F.layers source.old) run.now.what run.now.extent.count }
    ensures filled { OnOk result (IfSome (F.files source.old) (λ files.
        IsFilled (sectors_by files (cells_on run.now)) at run.now.extent.at (end_of run.now) out.old out.new)) }
    ensures same { SameFiles F.files F.layers source.old source.new }
    ensures reads { OnOk result (F.reads source.old source.new) }
    ensures fails { IfErr result (λ fault. F.fails source.old source.new fault) }
{
    let count = run.extent.count;
    if count == 0 {
        return Ok(());
    }
    let (_, rest) = out.split_at_mut((run.extent.at - at) as usize * SECTOR);
    let (piece, _) = rest.split_at_mut(count as usize * SECTOR);
    fill(source, run.what, count, piece)?;
    Ok(())
}

impl Snapshot {
    // Joins a piece to the run before it, or reads that run. It answers the run that is not read yet.
    fn go_on<F: LayerSource>(
        &self,
        source: &mut F,
        run: &Piece,
        next: &Piece,
        at: u64,
        out: &mut [u8],
    ) -> Result<Piece, F::Fault>
        requires named { AreOnShelf (F.layers source.old) (cells_of self.now.index) }
        requires pending { Pending (F.layers source.old) (cells_of self.now.index) at (length out.old) run.now }
        requires next { IsPiece (cells_of self.now.index) (end_of run.now) next.now }
        requires there { LiesIn at (length out.old) next.now.extent }
        ensures pending { IfOk result (Pending (F.layers source.new) (cells_of self.now.index) at (length out.new)) }
        ensures end { IfOk result (λ r. end_of r ≡ end_of next.now) }
        ensures filled { IfOk result (λ r. IfSome (F.files source.old) (λ files.
            IsFilled (sectors_by files (cells_of self.now.index)) at run.now.extent.at r.extent.at out.old out.new)) }
        ensures same { SameFiles F.files F.layers source.old source.new }
        ensures reads { OnOk result (F.reads source.old source.new) }
        ensures fails { IfErr result (λ fault. F.fails source.old source.new fault) }
    {
        if run.extent.count == 0 {
            return Ok(*next);
        }
        if goes_on(run.what, run.extent.count, next.what) {
            return Ok(both(run, next));
        }
        read_run(source, run, at, out)?;
        Ok(*next)
    }

    // Looks up some more pieces of a gap, and reads all but the last run, which it answers.
    fn read_on<L: Ledger, F: LayerSource>(
        &self,
        source: &mut F,
        gap: &Extent,
        run: &Piece,
        at: u64,
        out: &mut [u8],
        steps: &mut Steps<L>,
    ) -> Result<Piece, F::Fault>
        requires named { AreOnShelf (F.layers source.old) (cells_of self.now.index) }
        requires pending { Pending (F.layers source.old) (cells_of self.now.index) at (length out.old) run.now }
        requires there { LiesIn at (length out.old) gap.now }
        requires more { end_of run.now < gap.now.at + gap.now.count }
        ensures pending { IfOk result (Pending (F.layers source.new) (cells_of self.now.index) at (length out.new)) }
        ensures further { IfOk result (λ r. end_of run.now < end_of r) }
        ensures within { IfOk result (λ r. end_of r ≤ gap.now.at + gap.now.count) }
        ensures filled { IfOk result (λ r. IfSome (F.files source.old) (λ files.
            IsFilled (sectors_by files (cells_of self.now.index)) at run.now.extent.at r.extent.at out.old out.new)) }
        ensures same { SameFiles F.files F.layers source.old source.new }
        ensures reads { OnOk result (F.reads source.old source.new) }
        ensures fails { IfErr result (λ fault. F.fails source.old source.new fault) }
    {
        let mut pieces = [NOTHING; PIECES];
        let found = self.find(behind(gap, run), &mut pieces, steps);
        let (pieces, _) = pieces.split_at(found.pieces);
        let mut run = *run;
        for piece in pieces {
            run = self.go_on(source, &run, piece, at, out)?;
        }
        Ok(run)
    }

    // Fills the sectors of a gap. Those that lie together in a file are one read of the source.
    fn read_gap<L: Ledger, F: LayerSource>(
        &self,
        source: &mut F,
        gap: &Extent,
        at: u64,
        out: &mut [u8],
        steps: &mut Steps<L>,
    ) -> Result<(), F::Fault>
        requires named { AreOnShelf (F.layers source.old) (cells_of self.now.index) }
        requires there { LiesIn at (length out.old) gap.now }
        ensures filled { OnOk result (IfSome (F.files source.old) (λ files.
            IsFilled (sectors_by files (cells_of self.now.index)) at gap.now.at (gap.now.at + gap.now.count) out.old
            out.new)) }
        ensures same { SameFiles F.files F.layers source.old source.new }
        ensures reads { OnOk result (F.reads source.old source.new) }
        ensures fails { IfErr result (λ fault. F.fails source.old source.new fault) }
    {
        let mut run = nothing_before(gap.at);
        while run.extent.end() < gap.end() {
            run = self.read_on(source, gap, &run, at, out, steps)?;
        }
        read_run(source, &run, at, out)?;
        Ok(())
    }

    // Fills the sectors of all gaps, with a counter of steps of its own.
    fn read_gaps<L: Ledger, F: LayerSource>(
        &self,
        source: &mut F,
        gaps: &[Extent],
        at: u64,
        out: &mut [u8],
        blank: Blank,
    ) -> Result<(), F::Fault>
        requires name { blank.name ≡ L.name }
        requires parts { blank.parts ≡ L.parts }
        requires some { 0 < blank.parts }
        requires named { AreOnShelf (F.layers source.old) (cells_of self.now.index) }
        requires there { All (LiesIn at (length out.old)) gaps.now }
        ensures filled { OnOk result (IfSome (F.files source.old) (λ files.
            AreFilled (sectors_by files (cells_of self.now.index)) at gaps.now out.old out.new)) }
        ensures same { SameFiles F.files F.layers source.old source.new }
        ensures reads { OnOk result (F.reads source.old source.new) }
        ensures fails { IfErr result (λ fault. F.fails source.old source.new fault) }
    {
        let mut steps = Steps::<L>::new(blank);
        for gap in gaps {
            self.read_gap(source, gap, at, out, &mut steps)?;
        }
        Ok(())
    }

    /// Fills the sectors of gaps, in bytes that begin with the sector `at`.
    pub fn fill<F: LayerSource>(
        &self,
        source: &mut F,
        gaps: &[Extent],
        at: u64,
        out: &mut [u8],
    ) -> Result<(), F::Fault>
        requires named { AreOnShelf (F.layers source.old) (cells_of self.now.index) }
        requires there { All (LiesIn at (length out.old)) gaps.now }
        ensures filled { OnOk result (IfSome (F.files source.old) (λ files.
            AreFilled (sectors_by files (cells_of self.now.index)) at gaps.now out.old out.new)) }
        ensures same { SameFiles F.files F.layers source.old source.new }
        ensures reads { OnOk result (F.reads source.old source.new) }
        ensures fails { IfErr result (λ fault. F.fails source.old source.new fault) }
    {
        self.read_gaps::<Brand, F>(source, gaps, at, out, Blank::new(1))
    }
}

// Fills the sectors of gaps from the lower layers, which are the files of a shelf, and from so many
// committed ones on a disk.
fn fill_gaps<S: Shelf, D: Disk>(
    snapshot: &Snapshot,
    shelf: &mut S,
    disk: &mut D,
    count: u8,
    gaps: &[Extent],
    at: u64,
    out: &mut [u8],
) -> Result<(), WholeFault>
    requires named { AreOnShelf (S.count shelf.old + count) (cells_of snapshot.now.index) }
    requires there { All (LiesIn at (length out.old)) gaps.now }
    ensures filled { OnOk result (IfSome (files_told D.tells (S.files shelf.old)
        (sealed_read (D.state disk.old).seen count)) (λ files.
        AreFilled (sectors_by files (cells_of snapshot.now.index)) at gaps.now out.old out.new)) }
    // with none committed the disk is not asked
    ensures bare { OnOk result (count ≡ 0 → IfSome (S.files shelf.old) (λ files.
        AreFilled (sectors_by files (cells_of snapshot.now.index)) at gaps.now out.old out.new)) }
    ensures same { SameFiles S.files S.count shelf.old shelf.new }
    ensures quiet { Quiet (D.state disk.old) (D.state disk.new) }
    ensures cause { Charges D.faults disk.old disk.new (IsErrOf result why.DiskFault) }
    ensures shelf_cause { Charges S.faults shelf.old shelf.new (IsErrOf result why.ShelfFault) }
    ensures memory { IsErrOf result why.Memory → ⊥ }
{
    if count == 0 {
        return match snapshot.fill(shelf, gaps, at, out) {
            Ok(()) => Ok(()),
            Err(ShelfFailed) => Err(WholeFault::ShelfFault),
        };
    }
    let mut files = ImageFiles { shelf, disk, count };
    match snapshot.fill(&mut files, gaps, at, out) {
        Ok(()) => Ok(()),
        Err(fault) => Err(fault),
    }
}

impl<D: Disk> Image<D> {
    /// Reads the sectors of an extent within the image: those that the tops have, and the others through
    /// the layers: the lower ones are the files of the shelf, and the committed ones stand on the disk.
    /// Sectors that lie together in a file are one read of it. After a refusal `out` may hold anything.
    pub fn read_whole<S: Shelf>(
        &mut self,
        alloc: Global,
        shelf: &mut S,
        extent: Extent,
        out: &mut [u8],
    ) -> Result<(), WholeFault>
        requires standing { IsImage (seen D.Disk self.old) }
        requires size { length out.old ≡ 512 * extent.count }
        requires within { extent.at + extent.count ≤ (view self.old).sectors }
        requires steps { (view self.old).steps < 2 ^ 62 }
        requires count { S.count shelf.old ≡ length (view self.old).lowers }
        requires told { ForSome (S.files shelf.old) (λ files. AreLayersOf files (view self.old).lowers) }
        ensures goes { Goes (seen D.Disk self.old) (seen D.Disk self.new)
            (noted_whole (Read extent.at extent.count) result) }
        ensures bytes { OnOk result (IsTrue D.tells → IfSome (S.files shelf.old) (λ files.
            (base : bases.Base) (history : History) → StandsFor (seen D.Disk self.old) base history
            → base.lowers ≡ files → out.new ≡ reply base history extent.at extent.count)) }
        // what the upper part has not is read of the layers, also where the disk does not tell, if nothing is committed
        ensures holes { OnOk result (IfSome (S.files shelf.old) (λ files.
            (base : bases.Base) (history : History) → StandsFor (seen D.Disk self.old) base history
            → base.lowers ≡ files → IsTrue D.tells ⊎ ((view self.old).committed ≡ [])
            → (k : ℕ) → k < extent.count → IsGap (now base history) (extent.at + k)
            → sector_at out.new k ≡ slice_index_or (after base history) (extent.at + k) [])) }
        ensures size { length out.new ≡ length out.old }
        ensures lowers { (view self.new).lowers ≡ (view self.old).lowers }
        ensures sectors { (view self.new).sectors ≡ (view self.old).sectors }
        ensures stepped { (view self.new).steps ≤ (view self.old).steps + 1 }
        ensures quiet { Rests (seen D.Disk self.old) (seen D.Disk self.new) }
        ensures cause { Charges (faults_in D.Disk) self.old self.new (IsErrOf result why.DiskFault) }
        ensures shelf_cause { Charges S.faults shelf.old shelf.new (IsErrOf result why.ShelfFault) }
        ensures same { SameFiles S.files S.count shelf.old shelf.new }
    {
        let mut gaps = GapList::from_vec(Vec::new(alloc));
        let parts = &self.parts;
        match parts.read_upper(alloc, &mut self.disk, extent, out, &mut gaps) {
            Ok(()) => {}
            Err(ReadFault::Failed) => {
                self.parts.steps += 1;
                return Err(WholeFault::DiskFault);
            }
            Err(ReadFault::Memory) => return Err(WholeFault::Memory),
        }
        let count = self.parts.stack.count() as u8;
        let extents = gaps.as_slice();
        let snapshot: &Snapshot = &self.parts.stack.snapshot;
        match fill_gaps(
            snapshot,
            shelf,
            &mut self.disk,
            count,
            extents,
            extent.at,
            out,
        ) {
            Ok(()) => {
                self.parts.steps += 1;
                Ok(())
            }
            Err(WholeFault::DiskFault) => {
                self.parts.steps += 1;
                Err(WholeFault::DiskFault)
            }
            Err(WholeFault::ShelfFault) => Err(WholeFault::ShelfFault),
            Err(WholeFault::Memory) => Err(WholeFault::Memory),
        }
    }
}
