ghost use Rattle.std.specs.Prelude.{◌≡◌, ℕ, false, ◌+◌, ◌-◌, ◌^◌, ◌<◌, ◌≤◌, ◌⊎◌, [], ◌∷◌, All, IfOk, length, take, drop};
ghost use Rattle.sealed_layer.specs.Layers.{LayerIndex, IsLayerIndex};
ghost use Rattle.merged_index.specs.declared.piece.PieceWhat.TheVariants.{Hole};
ghost use Rattle.merged_index.specs.Cells.{said_by, what_of, painted_what, cell_at, cell_in, numbered, IsRowEdge, IsSegmentEdge, IsSeenEdge};
ghost use Rattle.merged_index.specs.Segments.{IsSegment, AreSegments, segments_end, IsKeptEdge};

use crate::segment::Segment;
use sealed_layer::Layer;
use sector_extent::Memory;
use std::alloc::Global;

// The place of a sector that the segment has, or any number where its sectors are zeros.
fn place_in(segment: &Segment, sector: u64) -> u64
    requires sound { IsSegment 0 segment.now }
    requires after { segment.now.at ≤ sector }
    requires before { sector ≤ segment.now.at + segment.now.count }
    ensures { segment.now.zeroed ≡ false → result ≡ segment.now.place + (sector - segment.now.at) }
{
    if segment.zeroed {
        return segment.place;
    }
    segment.place + (sector - segment.at)
}

// The part of a segment from one sector up to another.
fn part(segment: &Segment, from: u64, until: u64) -> Segment
    requires sound { IsSegment 0 segment.now }
    requires some { from < until }
    requires after { segment.now.at ≤ from }
    requires before { until ≤ segment.now.at + segment.now.count }
    ensures at { result.at ≡ from }
    ensures end { result.at + result.count ≡ until }
    ensures sound { IsSegment from result }
    ensures says { (sector : ℕ) → from ≤ sector → said_by result sector ≡ said_by segment.now sector }
{
    Segment {
        at: from,
        place: place_in(segment, from),
        count: (until - from) as u32,
        layer: segment.layer,
        zeroed: segment.zeroed,
    }
}

// The segments of a layer under that number.
pub(crate) fn segments_of(alloc: Global, layer: &Layer, number: u8) -> Result<Vec<Segment>, Memory>
    ensures sound { IfOk result (λ made. AreSegments 0 made.items) }
    ensures cells { IfOk result (λ made.
        (sector : ℕ) → cell_at made.items sector ≡ what_of number layer.now.rows sector) }
    ensures edges { IfOk result (λ made.
        (sector : ℕ) → IsSegmentEdge made.items sector → IsRowEdge layer.now.rows sector) }
    ensures layer { IfOk result (λ _. IsLayerIndex layer.now.head layer.now.rows) }
{
    let rows = layer.rows();
    let mut made = Vec::with_capacity(alloc, rows.len())?;
    for row in rows {
        made.push(Segment {
            at: row.offset,
            place: row.place,
            count: row.count,
            layer: number,
            zeroed: row.zeroed,
        })?;
    }
    Ok(made)
}

// Adds what a segment has of the sectors from `from` up to `until`.
fn add_part(segment: &Segment, from: u64, until: u64, made: &mut Vec<Segment>) -> Result<(), Memory>
    requires sound { IsSegment 0 segment.now }
    requires made { AreSegments 0 made.old.items }
    requires end { (q : ℕ) → from ≤ q → segment.now.at ≤ q → segments_end 0 made.old.items ≤ q }
    ensures sound { IfOk result (λ _. AreSegments 0 made.new.items) }
    ensures end { IfOk result (λ _.
        (q : ℕ) → from ≤ q → segment.now.at + segment.now.count ≤ q → segments_end 0 made.new.items ≤ q) }
    ensures until { IfOk result (λ _.
        segments_end 0 made.old.items ≤ until → segments_end 0 made.new.items ≤ until) }
    ensures before { IfOk result (λ _.
        (sector : ℕ) → (sector < from) ⊎ (sector < segment.now.at)
        → cell_at made.new.items sector ≡ cell_at made.old.items sector) }
    ensures cells { IfOk result (λ _.
        (sector : ℕ) → from ≤ sector → sector < until
        → segment.now.at ≤ sector → sector < segment.now.at + segment.now.count
        → cell_at made.new.items sector ≡ said_by segment.now sector) }
    ensures edges { IfOk result (λ _.
        (sector : ℕ) → IsSegmentEdge made.new.items sector
        → IsSegmentEdge made.old.items sector ⊎ IsKeptEdge (IsSegmentEdge (segment.now ∷ [])) from until sector) }
{
    let at = from.max(segment.at);
    let to = until.min(segment.at + segment.count as u64);
    if at < to {
        made.push(part(segment, at, to))?;
    }
    Ok(())
}

// Adds what the lower segments from `first` on have of the sectors from `from` up to `until`, and
// answers the first one that ends behind `until`.
fn keep(
    lower: &[Segment],
    first: usize,
    from: u64,
    until: u64,
    made: &mut Vec<Segment>,
) -> Result<usize, Memory>
    requires lower { AreSegments 0 lower.now }
    requires first { first ≤ length lower.now }
    requires before { segments_end 0 (take first lower.now) ≤ from }
    requires order { from ≤ until }
    requires made { AreSegments 0 made.old.items }
    requires end { segments_end 0 made.old.items ≤ from }
    ensures next { IfOk result (λ next.
        (next ≤ length lower.now) × (segments_end 0 (take next lower.now) ≤ until)) }
    ensures sound { IfOk result (λ _. AreSegments 0 made.new.items) }
    ensures end { IfOk result (λ _. segments_end 0 made.new.items ≤ until) }
    ensures before { IfOk result (λ _.
        (sector : ℕ) → sector < from → cell_at made.new.items sector ≡ cell_at made.old.items sector) }
    ensures cells { IfOk result (λ _.
        (sector : ℕ) → from ≤ sector → sector < until
        → cell_at made.new.items sector ≡ cell_at lower.now sector) }
    ensures edges { IfOk result (λ _.
        (sector : ℕ) → IsSegmentEdge made.new.items sector
        → IsSegmentEdge made.old.items sector ⊎ IsKeptEdge (IsSegmentEdge lower.now) from until sector) }
{
    for number in first..lower.len() {
        let segment = &lower[number];
        add_part(segment, from, until, made)?;
        if until < segment.at + segment.count as u64 {
            return Ok(number);
        }
    }
    Ok(lower.len())
}

// The lower segments, with the upper ones painted over them.
pub(crate) fn painted(
    alloc: Global,
    lower: &[Segment],
    upper: &[Segment],
) -> Result<Vec<Segment>, Memory>
    requires lower { AreSegments 0 lower.now }
    requires upper { AreSegments 0 upper.now }
    ensures sound { IfOk result (λ made. AreSegments 0 made.items) }
    ensures cells { IfOk result (λ made.
        (sector : ℕ) → cell_at made.items sector
        ≡ painted_what (cell_at lower.now sector) (cell_at upper.now sector)) }
    ensures edges { IfOk result (λ made.
        (sector : ℕ) → IsSegmentEdge made.items sector
        → (IsSegmentEdge lower.now sector × (cell_at upper.now (sector - 1) ≡ Hole)) ⊎ IsSegmentEdge upper.now sector) }
{
    let mut made = Vec::with_capacity(alloc, lower.len().saturating_add(upper.len()))?;
    let mut next = 0;
    let mut from = 0;
    for segment in upper {
        next = keep(lower, next, from, segment.at, &mut made)?;
        made.push(*segment)?;
        from = segment.at + segment.count as u64;
    }
    keep(lower, next, from, 1 << 31, &mut made)?;
    Ok(made)
}

// The segments of the layers, the lowest first, under the numbers from `number` on: those of the upper
// half painted over those of the lower.
pub(crate) fn merged(alloc: Global, layers: &[Layer], number: usize) -> Result<Vec<Segment>, Memory>
    requires few { number + length layers.now ≤ 255 }
    ensures sound { IfOk result (λ made. AreSegments 0 made.items) }
    ensures cells { IfOk result (λ made.
        (sector : ℕ) → cell_at made.items sector ≡ cell_in (numbered number layers.now) sector) }
    ensures edges { IfOk result (λ made.
        (sector : ℕ) → IsSegmentEdge made.items sector → IsSeenEdge (numbered number layers.now) sector) }
    ensures layers { IfOk result (λ _. All (λ layer. IsLayerIndex layer.head layer.rows) layers.now) }
{
    if layers.is_empty() {
        return Ok(Vec::new(alloc));
    }
    if layers.len() == 1 {
        let made = segments_of(alloc, &layers[0], number as u8)?;
        return Ok(made);
    }
    let middle = layers.len() / 2;
    let below = &layers[..middle];
    let above = &layers[middle..];
    let lower = merged(alloc, below, number)?;
    let upper = merged(alloc, above, number + middle)?;
    let made = painted(alloc, lower.as_slice(), upper.as_slice())?;
    Ok(made)
}
