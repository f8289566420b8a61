//! Reading a top.
ghost use Rattle.std.specs.Prelude.{◌≡◌, ℕ, ◌+◌, ◌-◌, ◌*◌, ◌^◌, ◌<◌, ◌≤◌, List, Option, None, Some, IsTrue, IfOk, OnOk, IsErrOf, length, take, drop, IsErr};
ghost use Rattle.sector_extent.specs.Causes.{Charges};
ghost use Rattle.sector_extent.specs.declared.extent.Extent.{Extent};
ghost use Rattle.seg_table.specs.declared.segment.What.TheVariants as kind;
ghost use Rattle.seg_table.specs.Cells.{cells_of};
ghost use Rattle.seg_table.specs.Pieces.{AreCells, IsNext, end_of};
ghost use Rattle.block_disk.specs.Claims.{Quiet};
ghost use Rattle.flat_image.specs.Left.{Stand};
ghost use Rattle.top_writer.specs.declared.fault.ReadFault.TheVariants.{Failed};
ghost use Rattle.top_writer.specs.Files.{data_file, HeadsAsked};
ghost use Rattle.top_writer.specs.Fitting.{IsFitted, TopFits};
ghost use Rattle.top_writer.specs.Gaps.{Paints, IsHole, AddsGaps};
ghost use Rattle.top_writer.specs.Reading.{AreLow, Says, Pending, IsPiece, FillsStretch, IsRead, ReadsTo, ReadsOn};
ghost use Rattle.top_writer.specs.View.{sectors_of};

use crate::fault::ReadFault;
use crate::layout::data_number;
use crate::stretch::Stretch;
use crate::top::Top;
use block_disk::{Disk, DiskFailed};
use sector_extent::{Extent, GapList, SECTOR, Steps};
use seg_table::{Segment, What};
use std::marker::Brand;
use std::sync::ledger::{Blank, Ledger};

// Segments that are looked up at a time.
const PIECES: usize = 64;

// What stands in the place of a segment before they are looked up.
const NOTHING: Segment = Segment {
    extent: Extent { at: 0, count: 0 },
    what: What::Zero,
};

// Fills a piece with the zeros or the sectors of the data file that it has.
fn fill<D: Disk>(disk: &mut D, file: u32, what: What, piece: &mut [u8]) -> Result<(), DiskFailed>
    requires place { (place : ℕ) → what ≡ kind.Place place → 512 * place + length piece.old ≤ 2 ^ 50 }
    ensures filled { OnOk result (IsPiece D.tells ((D.state disk.old).seen file) what (length piece.new) piece.new) }
    ensures quiet { Quiet (D.state disk.old) (D.state disk.new) }
    ensures cause { Charges D.faults disk.old disk.new (IsErr result) }
{
    match what {
        What::Zero => piece.fill(0),
        What::Place(place) => disk.read_at(file, SECTOR as u64 * place, piece)?,
    }
    Ok(())
}

impl Top {
    /// Reads the sectors of an extent that the top has into `out`, and adds the others to `gaps`, in
    /// order. It reads the disk once for each run of sectors that lie together in the data file too.
    /// After a refusal `out` and `gaps` may hold anything.
    pub fn read_part<D: Disk>(
        &self,
        disk: &mut D,
        extent: Extent,
        out: &mut [u8],
        gaps: &mut GapList,
    ) -> Result<(), ReadFault>
        requires size { length out.old ≡ 512 * extent.count }
        requires within { extent.at + extent.count ≤ sectors_of self.now }
        requires fits { IsFitted D.tells (D.state disk.old) self.now }
        ensures bytes { OnOk result (IsTrue D.tells
            → (n : ℕ) (asked : HeadsAsked) (s : Stand) (may : List Stand)
            → TopFits D.tells (D.state disk.old) n asked self.now s may
            → Paints s.cells extent.at extent.count out.old out.new) }
        ensures gaps { OnOk result ((n : ℕ) (asked : HeadsAsked) (s : Stand) (may : List Stand)
            → TopFits D.tells (D.state disk.old) n asked self.now s may
            → AddsGaps (IsHole s.cells) extent.at (extent.at + extent.count) gaps.old gaps.new) }
        ensures size { length out.new ≡ length out.old }
        ensures quiet { Quiet (D.state disk.old) (D.state disk.new) }
        ensures fitted { IsFitted D.tells (D.state disk.new) self.now }
        ensures cause { Charges D.faults disk.old disk.new (IsErrOf result Failed) }
    {
        self.read_all::<Brand, D>(disk, &extent, out, gaps, Blank::new(1))?;
        Ok(())
    }

    // Reads all sectors of the extent, with a counter of steps of its own.
    fn read_all<L: Ledger, D: Disk>(
        &self,
        disk: &mut D,
        extent: &Extent,
        out: &mut [u8],
        gaps: &mut GapList,
        blank: Blank,
    ) -> Result<(), ReadFault>
        requires name { blank.name ≡ L.name }
        requires parts { blank.parts ≡ L.parts }
        requires some { 0 < blank.parts }
        requires epoch { self.now.epoch ≤ 255 }
        requires size { length out.old ≡ 512 * extent.now.count }
        requires low { AreLow (cells_of self.now.table) }
        ensures read { OnOk result (IsRead D.tells
            ((D.state disk.old).seen (data_file self.now.epoch)) (cells_of self.now.table)
            extent.now.at (extent.now.at + extent.now.count) out.old out.new gaps.old gaps.new) }
        ensures size { length out.new ≡ length out.old }
        ensures quiet { Quiet (D.state disk.old) (D.state disk.new) }
        ensures cause { Charges D.faults disk.old disk.new (IsErrOf result Failed) }
    {
        let mut steps = Steps::<L>::new(blank);
        let mut run = Stretch::gap(extent.at, extent.at);
        while run.end() < extent.end() {
            run = self.read_on(disk, extent, &run, out, gaps, &mut steps)?;
        }
        self.finish(disk, extent, &run, out, gaps)?;
        Ok(())
    }

    // Looks up some more segments of the extent, and reads all but the last stretch, which it answers.
    fn read_on<L: Ledger, D: Disk>(
        &self,
        disk: &mut D,
        extent: &Extent,
        run: &Stretch,
        out: &mut [u8],
        gaps: &mut GapList,
        steps: &mut Steps<L>,
    ) -> Result<Stretch, ReadFault>
        requires epoch { self.now.epoch ≤ 255 }
        requires size { length out.old ≡ 512 * extent.now.count }
        requires low { AreLow (cells_of self.now.table) }
        requires pending { Pending (cells_of self.now.table) extent.now run.now }
        requires more { run.now.at + run.now.count < extent.now.at + extent.now.count }
        ensures pending { IfOk result (Pending (cells_of self.now.table) extent.now) }
        ensures further { IfOk result (λ r. run.now.at + run.now.count < r.at + r.count) }
        ensures read { IfOk result (λ r. ReadsOn D.tells
            ((D.state disk.old).seen (data_file self.now.epoch)) (cells_of self.now.table)
            extent.now run.now r out.old out.new gaps.old gaps.new) }
        ensures size { length out.new ≡ length out.old }
        ensures quiet { Quiet (D.state disk.old) (D.state disk.new) }
        ensures cause { Charges D.faults disk.old disk.new (IsErrOf result Failed) }
    {
        let mut pieces = [NOTHING; PIECES];
        let from = run.end();
        let count = (extent.end() - from) as u32;
        let found = self.table.find(from, count, &mut pieces, steps);
        let (pieces, _) = pieces.split_at(found.pieces);
        let run = self.read_pieces(disk, extent, run, pieces, found.until, out, gaps)?;
        Ok(run)
    }

    // Reads all but the last stretch of these segments, and of the gaps between them and behind them
    // up to a sector.
    fn read_pieces<D: Disk>(
        &self,
        disk: &mut D,
        extent: &Extent,
        run: &Stretch,
        pieces: &[Segment],
        until: u64,
        out: &mut [u8],
        gaps: &mut GapList,
    ) -> Result<Stretch, ReadFault>
        requires epoch { self.now.epoch ≤ 255 }
        requires size { length out.old ≡ 512 * extent.now.count }
        requires low { AreLow (cells_of self.now.table) }
        requires pending { Pending (cells_of self.now.table) extent.now run.now }
        requires cells { AreCells (cells_of self.now.table) (run.now.at + run.now.count) until pieces.now }
        requires within { until ≤ extent.now.at + extent.now.count }
        ensures pending { IfOk result (Pending (cells_of self.now.table) extent.now) }
        ensures end { IfOk result (λ r. r.at + r.count ≡ until) }
        ensures read { IfOk result (λ r. ReadsOn D.tells
            ((D.state disk.old).seen (data_file self.now.epoch)) (cells_of self.now.table)
            extent.now run.now r out.old out.new gaps.old gaps.new) }
        ensures size { length out.new ≡ length out.old }
        ensures quiet { Quiet (D.state disk.old) (D.state disk.new) }
        ensures cause { Charges D.faults disk.old disk.new (IsErrOf result Failed) }
    {
        let mut run = *run;
        for piece in pieces {
            run = self.read_piece(disk, extent, &run, piece, out, gaps)?;
        }
        let gap = Stretch::gap(run.end(), until);
        run = self.go_on(disk, extent, &run, &gap, out, gaps)?;
        Ok(run)
    }

    // Reads all but the last stretch of the gap before a segment and of the segment.
    fn read_piece<D: Disk>(
        &self,
        disk: &mut D,
        extent: &Extent,
        run: &Stretch,
        piece: &Segment,
        out: &mut [u8],
        gaps: &mut GapList,
    ) -> Result<Stretch, ReadFault>
        requires epoch { self.now.epoch ≤ 255 }
        requires size { length out.old ≡ 512 * extent.now.count }
        requires low { AreLow (cells_of self.now.table) }
        requires pending { Pending (cells_of self.now.table) extent.now run.now }
        requires next { IsNext (cells_of self.now.table) (run.now.at + run.now.count) piece.now }
        requires within { end_of piece.now ≤ extent.now.at + extent.now.count }
        ensures pending { IfOk result (Pending (cells_of self.now.table) extent.now) }
        ensures end { IfOk result (λ r. r.at + r.count ≡ end_of piece.now) }
        ensures read { IfOk result (λ r. ReadsOn D.tells
            ((D.state disk.old).seen (data_file self.now.epoch)) (cells_of self.now.table)
            extent.now run.now r out.old out.new gaps.old gaps.new) }
        ensures size { length out.new ≡ length out.old }
        ensures quiet { Quiet (D.state disk.old) (D.state disk.new) }
        ensures cause { Charges D.faults disk.old disk.new (IsErrOf result Failed) }
    {
        let gap = Stretch::gap(run.end(), piece.extent.at);
        let run = self.go_on(disk, extent, run, &gap, out, gaps)?;
        let run = self.go_on(disk, extent, &run, &Stretch::of(piece), out, gaps)?;
        Ok(run)
    }

    // Joins a stretch to the one before it, or reads that one.
    fn go_on<D: Disk>(
        &self,
        disk: &mut D,
        extent: &Extent,
        run: &Stretch,
        next: &Stretch,
        out: &mut [u8],
        gaps: &mut GapList,
    ) -> Result<Stretch, ReadFault>
        requires epoch { self.now.epoch ≤ 255 }
        requires size { length out.old ≡ 512 * extent.now.count }
        requires low { AreLow (cells_of self.now.table) }
        requires pending { Pending (cells_of self.now.table) extent.now run.now }
        requires behind { next.now.at ≡ run.now.at + run.now.count }
        requires within { next.now.at + next.now.count ≤ extent.now.at + extent.now.count }
        requires says { Says (cells_of self.now.table) next.now.at next.now.count next.now.what }
        ensures pending { IfOk result (Pending (cells_of self.now.table) extent.now) }
        ensures end { IfOk result (λ r. r.at + r.count ≡ next.now.at + next.now.count) }
        ensures read { IfOk result (λ r. ReadsOn D.tells
            ((D.state disk.old).seen (data_file self.now.epoch)) (cells_of self.now.table)
            extent.now run.now r out.old out.new gaps.old gaps.new) }
        ensures size { length out.new ≡ length out.old }
        ensures quiet { Quiet (D.state disk.old) (D.state disk.new) }
        ensures cause { Charges D.faults disk.old disk.new (IsErrOf result Failed) }
    {
        match run.joined(next) {
            Some(both) => Ok(both),
            None => {
                self.finish(disk, extent, run, out, gaps)?;
                Ok(*next)
            }
        }
    }

    // Reads a stretch: adds it to the gaps, or fills its sectors of `out`.
    fn finish<D: Disk>(
        &self,
        disk: &mut D,
        extent: &Extent,
        run: &Stretch,
        out: &mut [u8],
        gaps: &mut GapList,
    ) -> Result<(), ReadFault>
        requires epoch { self.now.epoch ≤ 255 }
        requires size { length out.old ≡ 512 * extent.now.count }
        requires low { AreLow (cells_of self.now.table) }
        requires pending { Pending (cells_of self.now.table) extent.now run.now }
        ensures read { OnOk result (ReadsTo D.tells
            ((D.state disk.old).seen (data_file self.now.epoch)) (cells_of self.now.table)
            extent.now run.now.at (run.now.at + run.now.count) out.old out.new gaps.old gaps.new) }
        ensures size { length out.new ≡ length out.old }
        ensures quiet { Quiet (D.state disk.old) (D.state disk.new) }
        ensures cause { Charges D.faults disk.old disk.new (IsErrOf result Failed) }
    {
        if run.count == 0 {
            return Ok(());
        }
        match run.what {
            None => gaps.push(run.extent())?,
            Some(what) => self.fill_stretch(disk, extent, run, what, out)?,
        }
        Ok(())
    }

    // Fills the sectors of a stretch that the top has.
    fn fill_stretch<D: Disk>(
        &self,
        disk: &mut D,
        extent: &Extent,
        run: &Stretch,
        what: What,
        out: &mut [u8],
    ) -> Result<(), DiskFailed>
        requires epoch { self.now.epoch ≤ 255 }
        requires from { extent.now.at ≤ run.now.at }
        requires to { 512 * (run.now.at - extent.now.at) + 512 * run.now.count ≤ length out.old }
        requires low { (place : ℕ) → what ≡ kind.Place place → place + run.now.count ≤ 2 ^ 31 }
        requires image { run.now.at + run.now.count ≤ 2 ^ 31 }
        ensures filled { OnOk result (FillsStretch D.tells ((D.state disk.old).seen (data_file self.now.epoch))
            what (run.now.at - extent.now.at) run.now.count out.old out.new) }
        ensures size { length out.new ≡ length out.old }
        ensures quiet { Quiet (D.state disk.old) (D.state disk.new) }
        ensures cause { Charges D.faults disk.old disk.new (IsErr result) }
    {
        let (_, rest) = out.split_at_mut((run.at - extent.at) as usize * SECTOR);
        let (piece, _) = rest.split_at_mut(run.count as usize * SECTOR);
        fill(disk, data_number(self.epoch), what, piece)?;
        Ok(())
    }
}
