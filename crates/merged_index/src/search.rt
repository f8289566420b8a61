ghost use Rattle.std.specs.Prelude.{◌≡◌, ℕ, ◌+◌, ◌-◌, ◌*◌, ◌^◌, ◌<◌, ◌≤◌, ◌⊎◌, [], ◌∷◌, All, slice_index_or, take, drop, length};
ghost use Rattle.merged_index.specs.Cells.{said_by, cell_at, IsSegmentEdge};
ghost use Rattle.merged_index.specs.Segments.{segments_end};
ghost use Rattle.merged_index.specs.Pieces.{AreCells, IsUnparted, Fits, onward};

use crate::piece::{Piece, PieceWhat};
use crate::segment::{Segment, what_at};
use crate::segments::Segments;
use sector_extent::{Found, Steps};
use std::sync::ledger::Ledger;

// What all sectors from a first one up to `until` have: the first one has `what`. The segments
// before `next` end there or before.
#[derive(Clone, Copy)]
struct Run {
    what: PieceWhat,
    until: u64,
    next: usize,
}

// How many segments end at that sector or before, by binary search.
fn segments_before<L: Ledger>(segments: &Segments, sector: u64, steps: &mut Steps<L>) -> usize
    ensures within { result ≤ length segments.now }
    ensures before { segments_end 0 (take result segments.now) ≤ sector }
    ensures behind { (d : Segment) → result < length segments.now
        → sector < segments_end 0 (slice_index_or segments.now result d ∷ []) }
    ensures counted { steps.old ≤ steps.new }
    ensures bound { 2 ^ (steps.new - steps.old) ≤ 2 * length segments.now + 1 }
{
    let mut low = 0;
    let mut high = segments.len();
    while low < high {
        let middle = low + (high - low) / 2;
        let segment = segments.probe(middle, steps);
        if segment.at + segment.count as u64 <= sector {
            low = middle + 1;
        } else {
            high = middle;
        }
    }
    low
}

// What the sectors from `from` on have, where the segments before `next` end there or before.
fn run_from<L: Ledger>(
    segments: &Segments,
    next: usize,
    from: u64,
    end: u64,
    steps: &mut Steps<L>,
) -> Run
    requires some { from < end }
    requires within { next ≤ length segments.now }
    requires before { segments_end 0 (take next segments.now) ≤ from }
    requires behind { (d : Segment) → next < length segments.now
        → from < segments_end 0 (slice_index_or segments.now next d ∷ []) }
    ensures some { from < result.until }
    ensures within { result.until ≤ end }
    ensures same { (sector : ℕ) → from ≤ sector → sector < result.until
        → cell_at segments.now sector ≡ onward result.what (sector - from) }
    ensures fits { Fits result.what (result.until - from) }
    ensures edge { (result.until ≡ end) ⊎ IsSegmentEdge segments.now result.until }
    ensures next { result.next ≤ length segments.now }
    ensures before { segments_end 0 (take result.next segments.now) ≤ result.until }
    ensures behind { (d : Segment) → result.next < length segments.now → result.until < end
        → result.until < segments_end 0 (slice_index_or segments.now result.next d ∷ []) }
    ensures counted { steps.old ≤ steps.new }
    ensures bound { steps.new ≤ steps.old + 1 }
{
    if next == segments.len() {
        return Run {
            what: PieceWhat::Hole,
            until: end,
            next,
        };
    }
    let segment = segments.probe(next, steps);
    if from < segment.at {
        return Run {
            what: PieceWhat::Hole,
            until: end.min(segment.at),
            next,
        };
    }
    let behind = segment.at + segment.count as u64;
    let what = what_at(segment, from);
    if end < behind {
        return Run {
            what,
            until: end,
            next,
        };
    }
    Run {
        what,
        until: behind,
        next: next + 1,
    }
}

// Writes the pieces of the sectors from `from` up to `end` into `out`.
pub(crate) fn find_in<L: Ledger>(
    segments: &Segments,
    from: u64,
    end: u64,
    out: &mut [Piece],
    steps: &mut Steps<L>,
) -> Found
    requires within { end ≤ 2 ^ 31 }
    requires some { from ≤ end }
    ensures cells { AreCells (cell_at segments.now) from result.until (take result.pieces out.new) }
    ensures within { result.until ≤ end }
    ensures room { result.pieces ≤ length out.new }
    ensures full { result.until < end → result.pieces ≡ length out.new }
    ensures unparted { All (IsUnparted (record { segments = segments.now }) end) (take result.pieces out.new) }
    ensures rest { drop result.pieces out.new ≡ drop result.pieces out.old }
    ensures counted { steps.old ≤ steps.new }
    ensures bound { 2 ^ (steps.new - steps.old - result.pieces) ≤ 2 * length segments.now + 1 }
{
    let mut next = segments_before(segments, from, steps);
    let mut until = from;
    for pieces in 0..out.len() {
        if until == end {
            return Found { pieces, until };
        }
        let run = run_from(segments, next, until, end, steps);
        out[pieces] = Piece::between(until, run.until, run.what);
        until = run.until;
        next = run.next;
    }
    let pieces = out.len();
    Found { pieces, until }
}
