ghost use Rattle.std.specs.Prelude.{◌≡◌, ◌+◌, ◌-◌, ◌<◌, ◌≤◌, List, [], ◌∷◌, ◌++◌, All, IfOk, take, drop, length};
ghost use Rattle.sealed_layer.specs.Layers.{LayerIndex};
ghost use Rattle.image_core.specs.Pieces.{IsSnapshotOf};
ghost use Rattle.merged_index.specs.Cells.{cells_of};
ghost use Rattle.merged_index.specs.Pieces.{AreCells, IsUnparted, AreFewLooks};

use merged_index::{MergedIndex, Piece};
use sealed_layer::Layer;
use sector_extent::{Extent, Found, Memory, Steps};
use std::alloc::Global;
use std::marker::Model;
use std::sync::ledger::Ledger;

/// The lower and the committed layers of an image, as they stood when it was taken. What it names
/// never changes. A piece of a layer whose number is below `lowers` is one of that lower layer; any
/// other is one of the committed file of the epoch `number - lowers`.
#[derive(Drop)]
pub struct Snapshot {
    index: MergedIndex,
    lowers: u32,
}

impl Model for Snapshot {
    ghost use Rattle.image_core.specs.Pieces.{SnapshotView};

    ghost Value = { SnapshotView };

    ghost view = { λ snapshot. record { lowers = snapshot.lowers; index = snapshot.index } };
}

impl Snapshot {
    // The snapshot of an index of layers, of which so many are lower ones.
    pub(crate) fn of(index: MergedIndex, lowers: u32) -> Snapshot
        ensures index { result.index ≡ index }
        ensures lowers { result.lowers ≡ lowers }
    {
        Snapshot { index, lowers }
    }

    // The snapshot with one more committed layer on top, under its number.
    pub(crate) fn over(&self, alloc: Global, layer: &Layer, number: u8) -> Result<Snapshot, Memory>
        ensures { IfOk result (λ s. (lowers committed : List LayerIndex) → IsSnapshotOf self.now lowers committed
            → length lowers + length committed ≡ number → IsSnapshotOf s lowers (committed ++ layer.now ∷ [])) }
    {
        let index = self.index.over(alloc, layer, number)?;
        Ok(Snapshot {
            index,
            lowers: self.lowers,
        })
    }

    /// The find of the index: writes the pieces of the extent into `out`, up to the sector `until` of
    /// the answer, where the extent ends or `out` is full. The entries behind them stay.
    pub fn find<L: Ledger>(&self, extent: Extent, out: &mut [Piece], steps: &mut Steps<L>) -> Found
        ensures cells { AreCells (cells_of self.now.index) extent.at result.until (take result.pieces out.new) }
        ensures within { result.until ≤ extent.at + extent.count }
        ensures room { result.pieces ≤ length out.new }
        ensures full { result.until < extent.at + extent.count → result.pieces ≡ length out.new }
        ensures unparted { All (IsUnparted self.now.index (extent.at + extent.count)) (take result.pieces out.new) }
        ensures rest { drop result.pieces out.new ≡ drop result.pieces out.old }
        ensures counted { steps.old ≤ steps.new }
        ensures bound { AreFewLooks self.now.index (steps.new - steps.old) result.pieces }
    {
        self.index.find(extent, out, steps)
    }

    /// How many lower layers it has.
    pub fn lowers(&self) -> u32
        ensures { result ≡ self.now.lowers }
    {
        self.lowers
    }
}
