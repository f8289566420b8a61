ghost use Rattle.std.specs.Prelude.{◌≡◌, ℕ, ◌+◌, ◌<◌, ◌≤◌};
ghost use Rattle.seg_table.specs.Cells.{what_at};
ghost use Rattle.seg_table.specs.Put.{IsPut};

use sector_extent::Extent;

/// What the sectors of a segment have.
#[derive(Clone, Copy, Debug, PartialEq, Eq)]
pub enum What {
    /// The first one has the bytes of this sector of the data file, and the next ones those of the
    /// sectors that follow it there.
    Place(u64),
    /// All of them are zeros.
    Zero,
}

impl What {
    ghost use Rattle.seg_table.specs.Cells.{onward};
    ghost use Rattle.seg_table.specs.Put.{Fits};

    // What the sector has that stands so many behind one that has this.
    pub(crate) fn onward(self, steps: u64) -> What
        requires { Fits self steps }
        ensures { result ≡ onward self steps }
    {
        match self {
            What::Place(place) => What::Place(place + steps),
            What::Zero => What::Zero,
        }
    }
}

/// Sectors of an image that lie side by side, and what they have.
#[derive(Clone, Copy, Debug, PartialEq, Eq)]
pub struct Segment {
    pub extent: Extent,
    pub what: What,
}

// The part of a segment from one sector up to another.
pub(crate) fn part(segment: &Segment, from: u64, until: u64) -> Segment
    requires put { IsPut segment.now }
    requires some { from < until }
    requires after { segment.now.extent.at ≤ from }
    requires before { until ≤ segment.now.extent.at + segment.now.extent.count }
    ensures at { result.extent.at ≡ from }
    ensures end { result.extent.at + result.extent.count ≡ until }
    ensures put { IsPut result }
    ensures says { (sector : ℕ) → from ≤ sector → what_at result sector ≡ what_at segment.now sector }
{
    Segment {
        extent: Extent {
            at: from,
            count: (until - from) as u32,
        },
        what: segment.what.onward(from - segment.extent.at),
    }
}
