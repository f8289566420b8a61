ghost use Rattle.std.specs.Prelude.{◌≡◌, ◌+◌, ◌^◌, ◌<◌, ◌≤◌};
ghost use Rattle.merged_index.specs.Cells.{said_by};
ghost use Rattle.merged_index.specs.Segments.{IsSegment};

use crate::piece::PieceWhat;
use std::mem::size_of;

// Sectors of an image that lie side by side, and where the uppermost layer that has them keeps them.
#[derive(Clone, Copy)]
pub(crate) struct Segment {
    pub(crate) at: u64,
    // the sector of the layer's file that has the first one; it says nothing where they are zeros
    pub(crate) place: u64,
    pub(crate) count: u32,
    pub(crate) layer: u8,
    pub(crate) zeroed: bool,
}

const _: () = prove!(size_of::<Segment>() == 24);

// What the segment says of a sector that it has.
pub(crate) fn what_at(segment: &Segment, sector: u64) -> PieceWhat
    requires sound { IsSegment 0 segment.now }
    requires after { segment.now.at ≤ sector }
    requires before { sector < segment.now.at + segment.now.count }
    ensures { result ≡ said_by segment.now sector }
{
    if segment.zeroed {
        return PieceWhat::Zero;
    }
    PieceWhat::Filled {
        layer: segment.layer,
        place: segment.place + (sector - segment.at),
    }
}
