ghost use Rattle.std.specs.Prelude.{◌≡◌, ℕ, ◌+◌, ◌-◌, ◌<◌, ◌≤◌, ◌⊎◌, List, All, IfOk, slice_index_or, take, length};
ghost use Rattle.sealed_layer.specs.Layers.{IsLayerIndex};
ghost use Rattle.merged_index.specs.declared.piece.PieceWhat.TheVariants.{Hole};
ghost use Rattle.merged_index.specs.Cells.{cell_at, cell_in, numbered, painted_what, what_of, IsRowEdge, IsSeenEdge, IsSegmentEdge};
ghost use Rattle.merged_index.specs.Segments.{AreSegments, IsSegment, segments_end};

use crate::paint::{merged, painted, segments_of};
use crate::segment::Segment;
use sealed_layer::Layer;
use sector_extent::{Memory, Steps};
use std::alloc::Global;
use std::marker::Model;
use std::sync::ledger::Ledger;

// Sorted segments without overlap. Whoever searches them can look at one by `probe` alone.
#[derive(Drop)]
pub(crate) struct Segments {
    items: Vec<Segment>,
}

impl Model for Segments {
    ghost use Rattle.std.specs.Prelude.{List};
    ghost use Rattle.merged_index.specs.declared.segment.Segment.{Segment};
    ghost use Rattle.merged_index.specs.Segments.{AreSegments};

    ghost Value = { List Segment };

    ghost view = { λ segments. segments.items.items };

    ghost invariant = { λ segments. AreSegments 0 segments.items.items };
}

impl Segments {
    // The list as it is kept: in as much memory as it needs.
    fn kept(mut items: Vec<Segment>) -> Segments
        requires sound { AreSegments 0 items.items }
        ensures { result ≡ items.items }
    {
        items.shrink_to_fit();
        Segments { items }
    }

    // The segments of the layers, the lowest first, under the numbers from 0 on.
    pub(crate) fn of(alloc: Global, layers: &[Layer]) -> Result<Segments, Memory>
        requires few { length layers.now ≤ 255 }
        ensures cells { IfOk result (λ made.
            (sector : ℕ) → cell_at made sector ≡ cell_in (numbered 0 layers.now) sector) }
        ensures edges { IfOk result (λ made.
            (sector : ℕ) → IsSegmentEdge made sector → IsSeenEdge (numbered 0 layers.now) sector) }
        ensures layers { IfOk result (λ _. All (λ layer. IsLayerIndex layer.head layer.rows) layers.now) }
    {
        let items = merged(alloc, layers, 0)?;
        Ok(Segments::kept(items))
    }

    // The same with a layer painted over them, under that number.
    pub(crate) fn under(&self, alloc: Global, layer: &Layer, number: u8) -> Result<Segments, Memory>
        ensures cells { IfOk result (λ made.
            (sector : ℕ) → cell_at made sector
            ≡ painted_what (cell_at self.now sector) (what_of number layer.now.rows sector)) }
        ensures edges { IfOk result (λ made.
            (sector : ℕ) → IsSegmentEdge made sector
            → (IsSegmentEdge self.now sector × (what_of number layer.now.rows (sector - 1) ≡ Hole))
            ⊎ IsRowEdge layer.now.rows sector) }
        ensures layer { IfOk result (λ _. IsLayerIndex layer.now.head layer.now.rows) }
    {
        let upper = segments_of(alloc, layer, number)?;
        let items = painted(alloc, self.items.as_slice(), upper.as_slice())?;
        Ok(Segments::kept(items))
    }

    pub(crate) fn len(&self) -> usize
        ensures len { result ≡ length self.now }
        ensures sound { AreSegments 0 self.now }
    {
        self.items.len()
    }

    // The one way to look at a segment, which counts.
    pub(crate) fn probe<'a, L: Ledger>(&'a self, number: usize, steps: &mut Steps<L>) -> &'a Segment
        requires within { number < length self.now }
        ensures segment { result.now ≡ slice_index_or self.now number result.now }
        ensures sound { IsSegment (segments_end 0 (take number self.now)) result.now }
        ensures counted { steps.new ≡ steps.old + 1 }
    {
        steps.tick();
        &self.items[number]
    }
}
