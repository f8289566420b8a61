//! Reading the tops of an image.
ghost use Rattle.std.specs.Prelude.{◌≡◌, ℕ, ◌+◌, ◌*◌, ◌≤◌, List, [], IsTrue, OnOk, IsErrOf, All, length};
ghost use Rattle.sector_extent.specs.Causes.{Charges};
ghost use Rattle.block_disk.specs.Claims.{Quiet};
ghost use Rattle.flat_image.specs.declared.act.Asked.{Asked};
ghost use Rattle.flat_image.specs.declared.base.Base as bases;
ghost use Rattle.flat_image.specs.Left.{Stand};
ghost use Rattle.top_writer.specs.declared.fault.ReadFault.TheVariants.{Failed};
ghost use Rattle.flat_image.specs.Base.{IsBase};
ghost use Rattle.flat_image.specs.Sheets.{IsSheet};
ghost use Rattle.top_writer.specs.Files.{HeadsAsked};
ghost use Rattle.top_writer.specs.Fitting.{IsFitted, TopFits};
ghost use Rattle.top_writer.specs.Gaps.{Paints, AreGaps, IsHole, AddsGaps};
ghost use Rattle.top_writer.specs.View.{sectors_of};
ghost use Rattle.image_core.specs.Parts.{PartsFit};
ghost use Rattle.image_core.specs.Upper.{upper, IsGap, IsOverlaid, AreOverlaid, AreAdded};
ghost use Rattle.image_core.specs.Whole.{LiesIn};

use crate::parts::Parts;
use block_disk::Disk;
use flat_image::Stands;
use sector_extent::{Extent, GapList, SECTOR};
use std::alloc::Global;
use top_writer::{ReadFault, Top};

// Reads the sectors of an extent that a top has, in bytes that begin with the sector `at`, and adds the
// others to `gaps`.
fn read_within<D: Disk>(
    top: &Top,
    disk: &mut D,
    extent: Extent,
    at: u64,
    out: &mut [u8],
    gaps: &mut GapList,
) -> Result<(), ReadFault>
    requires there { LiesIn at (length out.old) extent }
    requires within { extent.at + extent.count ≤ sectors_of top.now }
    requires fits { IsFitted D.tells (D.state disk.old) top.now }
    ensures bytes { OnOk result (IsTrue D.tells → (n : ℕ) (asked : HeadsAsked) (s : Stand) (may : List Stand)
        → TopFits D.tells (D.state disk.old) n asked top.now s may → IsSheet n s.cells
        → IsOverlaid s.cells at extent.at (extent.at + extent.count) out.old out.new) }
    ensures gaps { OnOk result ((n : ℕ) (asked : HeadsAsked) (s : Stand) (may : List Stand)
        → TopFits D.tells (D.state disk.old) n asked top.now s may
        → AddsGaps (IsHole s.cells) extent.at (extent.at + extent.count) gaps.old gaps.new) }
    ensures size { length out.new ≡ length out.old }
    ensures quiet { Quiet (D.state disk.old) (D.state disk.new) }
    ensures fitted { IsFitted D.tells (D.state disk.new) top.now }
    ensures cause { Charges D.faults disk.old disk.new (IsErrOf result Failed) }
{
    let (_, rest) = out.split_at_mut((extent.at - at) as usize * SECTOR);
    let (part, _) = rest.split_at_mut(extent.count as usize * SECTOR);
    top.read_part(disk, extent, part, gaps)?;
    Ok(())
}

// Reads the sectors of extents that a top has, and adds the others to `gaps`.
fn read_parts<D: Disk>(
    top: &Top,
    disk: &mut D,
    extents: &[Extent],
    at: u64,
    out: &mut [u8],
    gaps: &mut GapList,
) -> Result<(), ReadFault>
    requires there { All (LiesIn at (length out.old)) extents.now }
    requires within { All (λ extent. extent.at + extent.count ≤ sectors_of top.now) extents.now }
    requires fits { IsFitted D.tells (D.state disk.old) top.now }
    ensures bytes { OnOk result (IsTrue D.tells → (n : ℕ) (asked : HeadsAsked) (s : Stand) (may : List Stand)
        → TopFits D.tells (D.state disk.old) n asked top.now s may → IsSheet n s.cells
        → AreOverlaid s.cells at extents.now out.old out.new) }
    ensures gaps { OnOk result ((n : ℕ) (asked : HeadsAsked) (s : Stand) (may : List Stand)
        → TopFits D.tells (D.state disk.old) n asked top.now s may
        → AreAdded (IsHole s.cells) extents.now gaps.old gaps.new) }
    ensures size { length out.new ≡ length out.old }
    ensures quiet { Quiet (D.state disk.old) (D.state disk.new) }
    ensures cause { Charges D.faults disk.old disk.new (IsErrOf result Failed) }
{
    for extent in extents {
        read_within(top, disk, *extent, at, out, gaps)?;
    }
    Ok(())
}

impl Parts {
    // Reads the sectors of an extent that the top has, or a frozen one under it, into `out`. All others
    // become the gaps.
    pub(crate) fn read_upper<D: Disk>(
        &self,
        alloc: Global,
        disk: &mut D,
        extent: Extent,
        out: &mut [u8],
        gaps: &mut GapList,
    ) -> Result<(), ReadFault>
        requires fits { (b : bases.Base) × (tops : List Stand) × (attempts : List Asked) × IsBase b
            × PartsFit D.tells (D.state disk.old) self.now b tops attempts }
        requires size { length out.old ≡ 512 * extent.count }
        requires within { extent.at + extent.count ≤ sectors_of self.now.top }
        requires empty { gaps.old ≡ [] }
        ensures bytes { OnOk result (IsTrue D.tells → (b : bases.Base) (tops : List Stand) (attempts : List Asked)
            → PartsFit D.tells (D.state disk.old) self.now b tops attempts → IsBase b
            → Paints (upper b) extent.at extent.count out.old out.new) }
        ensures gaps { OnOk result ((b : bases.Base) (tops : List Stand) (attempts : List Asked)
            → PartsFit D.tells (D.state disk.old) self.now b tops attempts
            → AreGaps (IsGap b) extent.at (extent.at + extent.count) gaps.new) }
        ensures size { length out.new ≡ length out.old }
        ensures quiet { Quiet (D.state disk.old) (D.state disk.new) }
        ensures cause { Charges D.faults disk.old disk.new (IsErrOf result Failed) }
    {
        match &self.stack.commit {
            None => {
                self.top.read_part(disk, extent, out, gaps)?;
                Ok(())
            }
            Some(commit) => {
                let mut under = GapList::from_vec(Vec::new(alloc));
                self.top.read_part(disk, extent, out, &mut under)?;
                read_parts(&commit.top, disk, under.as_slice(), extent.at, out, gaps)?;
                Ok(())
            }
        }
    }
}
