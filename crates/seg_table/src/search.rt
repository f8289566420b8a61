ghost use Rattle.std.specs.Prelude.{◌≡◌, ℕ, ◌+◌, ◌-◌, ◌*◌, ◌^◌, ◌<◌, ◌≤◌, [], ◌∷◌, All, IfSome, IfNone, IsNone, None, ◌↔◌, slice_index_or, take, drop, length};
ghost use Rattle.seg_table.specs.Cells.{cell_in};
ghost use Rattle.seg_table.specs.Pieces.{AreCells, AreUnset, IsNext, IsUnparted, end_of};
ghost use Rattle.seg_table.specs.Segments.{AreLeaves, AreSegments, IsPlace, IsRest, first_of, joined, left_at, segments_end};

use crate::leaf::Leaf;
use crate::segment::{Segment, part};
use sector_extent::{Found, Steps};
use std::sync::ledger::{Blank, Ledger};

// The segment of one number in the leaf of another, or none behind the last leaf.
#[derive(Clone, Copy)]
pub(crate) struct Place {
    leaf: usize,
    number: usize,
}

// The one way to look at a leaf's first sector or at a segment, which counts.
fn probe<'a, T, L: Ledger>(items: &'a [T], number: usize, steps: &mut Steps<L>) -> &'a T
    requires { number < length items.now }
    ensures item { result.now ≡ slice_index_or items.now number result.now }
    ensures counted { steps.new ≡ steps.old + 1 }
{
    steps.tick();
    &items[number]
}

// How many leaves begin at that sector or before, by binary search.
pub(crate) fn leaves_before<L: Ledger>(leaves: &[Leaf], sector: u64, steps: &mut Steps<L>) -> usize
    ensures within { result ≤ length leaves.now }
    ensures before { 0 < result → first_of (slice_index_or leaves.now (result - 1) []) ≤ sector }
    ensures behind { result < length leaves.now → sector < first_of (slice_index_or leaves.now result []) }
    ensures counted { steps.old ≤ steps.new }
    ensures bound { 2 ^ (steps.new - steps.old) ≤ 2 * length leaves.now + 1 }
{
    let mut low = 0;
    let mut high = leaves.len();
    while low < high {
        let middle = low + (high - low) / 2;
        let first = probe(leaves, middle, steps).first();
        if first <= sector {
            low = middle + 1;
        } else {
            high = middle;
        }
    }
    low
}

// How many segments end at that sector or before, by binary search.
pub(crate) fn segments_before<L: Ledger>(
    segments: &[Segment],
    sector: u64,
    steps: &mut Steps<L>,
) -> usize
    ensures within { result ≤ length segments.now }
    ensures before { segments_end 0 (take result segments.now) ≤ sector }
    ensures behind { (d : Segment) → result < length segments.now
        → sector < end_of (slice_index_or segments.now result d) }
    ensures counted { steps.old ≤ steps.new }
    ensures bound { 2 ^ (steps.new - steps.old) ≤ 2 * length segments.now + 1 }
{
    let mut low = 0;
    let mut high = segments.len();
    while low < high {
        let middle = low + (high - low) / 2;
        let end = probe(segments, middle, steps).extent.end();
        if end <= sector {
            low = middle + 1;
        } else {
            high = middle;
        }
    }
    low
}

// The place behind the first so many segments of a leaf.
fn place_of(leaves: &[Leaf], leaf: usize, number: usize) -> Place
    requires leaf { leaf < length leaves.now }
    requires leaves { AreLeaves leaves.now }
    requires number { number ≤ length (slice_index_or leaves.now leaf []) }
    ensures place { IsPlace leaves.now result.leaf result.number }
    ensures left { left_at leaves.now result.leaf result.number ≡ left_at leaves.now leaf number }
{
    if number == leaves[leaf].len() {
        return Place {
            leaf: leaf + 1,
            number: 0,
        };
    }
    Place { leaf, number }
}

// The place of the first segment that ends past a sector.
fn first_past<L: Ledger>(leaves: &[Leaf], sector: u64, steps: &mut Steps<L>) -> Place
    requires leaves { AreLeaves leaves.now }
    ensures place { IsPlace leaves.now result.leaf result.number }
    ensures rest { IsRest (joined leaves.now) sector (left_at leaves.now result.leaf result.number) }
    ensures counted { steps.old ≤ steps.new }
    ensures bound { 2 * 2 ^ (steps.new - steps.old) ≤ 1024 * (2 * length (joined leaves.now) + 1) }
{
    let before = leaves_before(leaves, sector, steps);
    if before == 0 {
        return Place { leaf: 0, number: 0 };
    }
    let leaf = before - 1;
    let number = segments_before(leaves[leaf].as_slice(), sector, steps);
    place_of(leaves, leaf, number)
}

// The segment at a place.
fn segment_at<L: Ledger>(leaves: &[Leaf], place: Place, steps: &mut Steps<L>) -> Option<Segment>
    requires place { IsPlace leaves.now place.leaf place.number }
    ensures stands { IfSome result (λ _. (place.leaf < length leaves.now)
        × (place.number < length (slice_index_or leaves.now place.leaf []))) }
    ensures some { IfSome result (λ s.
        left_at leaves.now place.leaf place.number ≡ s ∷ left_at leaves.now place.leaf (place.number + 1)) }
    ensures none { IfNone result (left_at leaves.now place.leaf place.number ≡ []) }
    ensures counted { steps.old ≤ steps.new }
    ensures once { steps.new ≤ steps.old + 1 }
{
    if place.leaf >= leaves.len() {
        return None;
    }
    let segments = leaves[place.leaf].as_slice();
    Some(*probe(segments, place.number, steps))
}

// The part of the segment at a place that is in the range from `from` up to `end`.
fn piece_at<L: Ledger>(
    leaves: &[Leaf],
    place: Place,
    from: u64,
    end: u64,
    steps: &mut Steps<L>,
) -> Option<Segment>
    requires place { IsPlace leaves.now place.leaf place.number }
    requires rest { IsRest (joined leaves.now) from (left_at leaves.now place.leaf place.number) }
    requires some { from < end }
    ensures next { IfSome result (λ s. IsNext (cell_in (joined leaves.now)) from s × (end_of s ≤ end)) }
    ensures unparted { IfSome result (IsUnparted (joined leaves.now) end) }
    ensures none { IfNone result (AreUnset (cell_in (joined leaves.now)) from end) }
    ensures stands { IfSome result (λ _. (place.leaf < length leaves.now)
        × (place.number < length (slice_index_or leaves.now place.leaf []))) }
    ensures rest { IfSome result (λ s. end_of s < end
        → IsRest (joined leaves.now) (end_of s) (left_at leaves.now place.leaf (place.number + 1))) }
    ensures counted { steps.old ≤ steps.new }
    ensures once { steps.new ≤ steps.old + 1 }
{
    let segment = segment_at(leaves, place, steps)?;
    if end <= segment.extent.at {
        return None;
    }
    let at = from.max(segment.extent.at);
    let until = end.min(segment.extent.end());
    Some(part(&segment, at, until))
}

// Writes the segments inside the range into `out`.
pub(crate) fn find_in<L: Ledger>(
    leaves: &[Leaf],
    from: u64,
    end: u64,
    out: &mut [Segment],
    steps: &mut Steps<L>,
) -> Found
    requires leaves { AreLeaves leaves.now }
    requires some { from ≤ end }
    ensures cells { AreCells (cell_in (joined leaves.now)) from result.until (take result.pieces out.new) }
    ensures within { result.until ≤ end }
    ensures room { result.pieces ≤ length out.new }
    ensures full { result.until < end → result.pieces ≡ length out.new }
    ensures unparted { All (IsUnparted (joined leaves.now) end) (take result.pieces out.new) }
    ensures rest { drop result.pieces out.new ≡ drop result.pieces out.old }
    ensures counted { steps.old ≤ steps.new }
    ensures bound { 2 ^ (steps.new - steps.old - result.pieces) ≤ 1024 * (2 * length (joined leaves.now) + 1) }
{
    let mut next = first_past(leaves, from, steps);
    let mut until = from;
    for pieces in 0..out.len() {
        if until == end {
            return Found { pieces, until };
        }
        match piece_at(leaves, next, until, end, steps) {
            None => return Found { pieces, until: end },
            Some(segment) => {
                until = segment.extent.end();
                out[pieces] = segment;
                next = place_of(leaves, next.leaf, next.number + 1);
            }
        }
    }
    let pieces = out.len();
    Found { pieces, until }
}

// The first segment from `from` on, for a caller that counts no steps.
pub(crate) fn walk_uncounted<L: Ledger>(leaves: &[Leaf], from: u64, blank: Blank) -> Option<Segment>
    requires leaves { AreLeaves leaves.now }
    requires name { blank.name ≡ L.name }
    requires parts { blank.parts ≡ L.parts }
    requires some { 0 < blank.parts }
    ensures next { IfSome result (IsNext (cell_in (joined leaves.now)) from) }
    ensures none { IsNone result ↔ ((sector : ℕ) → from ≤ sector → cell_in (joined leaves.now) sector ≡ None) }
    ensures unparted { IfSome result (IsUnparted (joined leaves.now) (2 ^ 31)) }
{
    if from >= 1 << 31 {
        return None;
    }
    let mut steps = Steps::<L>::new(blank);
    let next = first_past(leaves, from, &mut steps);
    piece_at(leaves, next, from, 1 << 31, &mut steps)
}
