ghost use Rattle.std.specs.Prelude.{ℕ, List};
ghost use Rattle.block_disk.specs.DiskState.{Files};
ghost use Rattle.seg_table.specs.declared.segment.Segment.{Segment};
ghost use Rattle.flat_image.specs.declared.base.Base.{Base};
ghost use Rattle.flat_image.specs.History.{History};
ghost use Rattle.sealed_layer.specs.Layers.{LayerIndex};
ghost use Rattle.merged_index.specs.declared.piece.Piece.{Piece};
ghost use Rattle.image_core.specs.View.{ImageView};
ghost use Rattle.image_core.specs.declared.loading.LoadFault.{LoadFault};
ghost use Rattle.image_core.specs.Seen.{seen};
ghost use Rattle.image_core.specs.Loading.{Reopens, ReopensAs};
ghost use Rattle.image_core.specs.Planning.{PlanReads};
ghost use Rattle.image_core.specs.Pieces.{SnapshotView, PieceStandsThere};
ghost use Rattle.image_core.specs.Laws.{ShowsABase, ShowsOneBase, ShowsByNamed, KeptShows, SealedStay, BlankHasKinds, KeepsStands, HistoryReads, ImageReads, HistoryTells};

use crate::image::Image;
use block_disk::Disk;

/// What files show of an image.
pub fn showing_laws()
    ensures base { (files : Files) (base : Base) → ShowsABase files base }
    ensures one { (files : Files) (base other : Base) → ShowsOneBase files base other }
    ensures named { (files other : Files) (base : Base) → ShowsByNamed files other base }
{}

/// What files show that a crash left of a history.
pub fn left_laws()
    ensures kept { (base : Base) (history : History) (files : Files) → KeptShows base history files }
    ensures sealed { (base : Base) (history : History) (files : Files) → SealedStay base history files }
{}

/// What the tables of an image say where its disk does not tell, and where a piece of its layers
/// stands.
pub fn reading_laws()
    ensures blank { (n : ℕ) (table : List Segment) → BlankHasKinds n table }
    ensures piece { (n : ℕ) (lowers : List (List ℕ)) (files : Files) (below committed : List LayerIndex)
        (snapshot : SnapshotView) (piece : Piece) → PieceStandsThere n lowers files below committed snapshot piece }
{}

/// What follows for an image that stands for a history, with this disk, and for two with these disks.
pub fn standing_laws<D: Disk>(disk: &D, other: &D)
    ensures keeps { (v : ImageView) (base : Base) (history : History)
        → KeepsStands D.tells (D.state disk.now) (D.faults disk.now) v base history }
    ensures history { (v : ImageView) (base : Base) (history : History)
        → HistoryReads D.tells (D.state disk.now) (D.faults disk.now) v base history }
    ensures image { (v : ImageView) (base : Base) (history : History)
        → ImageReads D.tells (D.state disk.now) (D.faults disk.now) v base history }
    ensures told { (v w : ImageView)
        → HistoryTells D.tells (D.state disk.now) (D.faults disk.now) v (D.state other.now) (D.faults other.now) w }
{}

/// What loading files gives that show an image, and what an image stands for that was
/// loaded of them.
pub fn loading_laws<D: Disk>(old: &D, image: &Image<D>)
    ensures reopens { (files : Files) (base : Base) (layers : List LayerIndex) (fault : LoadFault)
        → Reopens files base layers fault }
    ensures stands { (base : Base) → ReopensAs (D.state old.now) (seen D.Disk image.now) base }
{}

/// What a plan reads of an image.
pub fn planning_law<D: Disk>(image: &Image<D>)
    ensures { (base : Base) (history : History) (at count : ℕ) (old new : List ℕ)
        → PlanReads (seen D.Disk image.now) base history at count old new }
{}
