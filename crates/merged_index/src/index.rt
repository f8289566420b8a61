ghost use Rattle.std.specs.Prelude.{◌≡◌, ℕ, ◌+◌, ◌-◌, ◌<◌, ◌≤◌, ◌⊎◌, List, [], ◌∷◌, ◌++◌, All, IfOk, take, drop, length};
ghost use Rattle.sealed_layer.specs.Layers.{LayerIndex};
ghost use Rattle.merged_index.specs.declared.piece.PieceWhat.TheVariants.{Hole};
ghost use Rattle.merged_index.specs.Cells.{what_of, painted_what, cells_of, IsRowEdge, IsEdge, IsIndexOf};
ghost use Rattle.merged_index.specs.Pieces.{AreCells, IsUnparted, AreFewLooks};

use crate::piece::Piece;
use crate::search::find_in;
use crate::segments::Segments;
use sealed_layer::Layer;
use sector_extent::{Extent, Found, Memory, Steps};
use std::alloc::Global;
use std::marker::Model;
use std::sync::ledger::Ledger;

/// Which layer has each sector of an image uppermost, and where in its file: sorted segments without
/// overlap. It never changes; a further layer makes another one.
#[derive(Drop)]
pub struct MergedIndex {
    segments: Segments,
}

impl Model for MergedIndex {
    ghost use Rattle.merged_index.specs.Cells.{Index};

    ghost Value = { Index };

    ghost view = { λ index. record { segments = index.segments } };
}

/// The index of the layers, the lowest first, under the numbers from 0 on.
pub fn merge(alloc: Global, layers: &[Layer]) -> Result<MergedIndex, Memory>
    requires few { length layers.now ≤ 255 }
    ensures painted { IfOk result (λ index. IsIndexOf index layers.now) }
{
    let segments = Segments::of(alloc, layers)?;
    Ok(MergedIndex { segments })
}

impl MergedIndex {
    /// The index with one more layer on top, under the number `tag`.
    pub fn over(&self, alloc: Global, layer: &Layer, tag: u8) -> Result<MergedIndex, Memory>
        ensures cells { IfOk result (λ index.
            (sector : ℕ) → cells_of index sector
            ≡ painted_what (cells_of self.now sector) (what_of tag layer.now.rows sector)) }
        ensures edges { IfOk result (λ index.
            (sector : ℕ) → IsEdge index sector
            → (IsEdge self.now sector × (what_of tag layer.now.rows (sector - 1) ≡ Hole))
            ⊎ IsRowEdge layer.now.rows sector) }
        ensures painted { IfOk result (λ index.
            (layers : List LayerIndex) → IsIndexOf self.now layers → length layers ≡ tag
            → IsIndexOf index (layers ++ layer.now ∷ [])) }
    {
        let segments = self.segments.under(alloc, layer, tag)?;
        Ok(MergedIndex { segments })
    }

    /// Writes the pieces of the extent into `out`, up to the sector `until` of the answer, where the
    /// extent ends or `out` is full. The entries behind them stay. It takes no memory.
    pub fn find<L: Ledger>(&self, extent: Extent, out: &mut [Piece], steps: &mut Steps<L>) -> Found
        ensures cells { AreCells (cells_of self.now) extent.at result.until (take result.pieces out.new) }
        ensures within { result.until ≤ extent.at + extent.count }
        ensures room { result.pieces ≤ length out.new }
        ensures full { result.until < extent.at + extent.count → result.pieces ≡ length out.new }
        // a piece ends only where the extent does, or where a row begins or ends that no layer over it hides
        ensures unparted { All (IsUnparted self.now (extent.at + extent.count)) (take result.pieces out.new) }
        ensures rest { drop result.pieces out.new ≡ drop result.pieces out.old }
        ensures counted { steps.old ≤ steps.new }
        ensures bound { AreFewLooks self.now (steps.new - steps.old) result.pieces }
    {
        find_in(&self.segments, extent.at, extent.end(), out, steps)
    }

    /// How many segments it has.
    pub fn len(&self) -> usize
        ensures { result ≡ length self.now.segments }
    {
        self.segments.len()
    }
}
