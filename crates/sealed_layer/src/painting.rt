ghost use Rattle.std.specs.Prelude.{◌≡◌, ℕ, ◌+◌, ◌-◌, ◌*◌, ◌/◌, ◌%◌, ◌^◌, ◌<◌, ◌≤◌, false, List, [], ◌∷◌, length, take, OnOk, IfSome, All, IsErr};
ghost use Rattle.std.specs.Option.{ForSome};
ghost use Rattle.sector_extent.specs.Causes.{Charges};
ghost use Rattle.seg_mapping.specs.Rows.{Fits};
ghost use Rattle.layer_shelf.specs.Shelves.{SameFiles, file_at};
ghost use Rattle.flat_image.specs.LayerFiles.{LayerOf};
ghost use Rattle.flat_image.specs.RowCells.{AreLayerRows, IsInData, end_of};
ghost use Rattle.sealed_layer.specs.Painting.{IsRowPiece, Paints};

use crate::layer::Layer;
use layer_shelf::{Shelf, ShelfFailed};
use sector_extent::SECTOR;
use seg_mapping::Row;

/// Paints a layer, file `k` of the shelf, over the sectors in `out`, which are those of the image
/// from sector `at` on. Past its own sectors the layer says nothing. It reads the shelf once for each
/// row that meets them. After a failure `out` may hold anything.
pub fn paint_part<S: Shelf>(
    shelf: &mut S,
    k: u32,
    layer: &Layer,
    at: u64,
    out: &mut [u8],
) -> Result<(), ShelfFailed>
    requires file { k < S.count shelf.old }
    requires whole { length out.old % 512 ≡ 0 }
    requires within { at + length out.old / 512 ≤ 2 ^ 31 }
    requires told { ForSome (S.files shelf.old) (λ files. LayerOf (file_at files k) layer.now.head layer.now.rows) }
    ensures painted { OnOk result
        (IfSome (S.files shelf.old) (λ files. Paints (file_at files k) layer.now.rows at out.old out.new)) }
    ensures same { SameFiles S.files S.count shelf.old shelf.new }
    ensures cause { Charges S.faults shelf.old shelf.new (IsErr result) }
{
    let rows = layer.rows();
    let end = at + (out.len() / SECTOR) as u64;
    let first = rows_before(rows, at);
    let (_, rest) = rows.split_at(first);
    for row in rest {
        if row.offset >= end {
            break;
        }
        paint_row(shelf, k, row, at, out)?;
    }
    Ok(())
}

// How many rows end at that sector or before, found by binary search.
fn rows_before(rows: &[Row], at: u64) -> usize
    requires fits { All Fits rows.now }
    ensures within { result ≤ length rows.now }
    ensures before { (n : ℕ) (index_at : ℕ) → AreLayerRows n index_at 0 rows.now
        → end_of 0 (take result rows.now) ≤ at }
{
    rows.partition_point(|row| row.offset.saturating_add(row.count as u64) <= at)
}

// Paints one row.
fn paint_row<S: Shelf>(
    shelf: &mut S,
    k: u32,
    row: &Row,
    at: u64,
    out: &mut [u8],
) -> Result<(), ShelfFailed>
    requires file { k < S.count shelf.old }
    requires whole { length out.old % 512 ≡ 0 }
    requires row { row.now.offset + row.now.count ≤ 2 ^ 31 }
    requires within { at + length out.old / 512 ≤ 2 ^ 31 }
    requires place { IsInData (2 ^ 50) row.now }
    ensures painted { OnOk result
        (IfSome (S.files shelf.old) (λ files. Paints (file_at files k) (row.now ∷ []) at out.old out.new)) }
    ensures same { SameFiles S.files S.count shelf.old shelf.new }
    ensures cause { Charges S.faults shelf.old shelf.new (IsErr result) }
{
    let from = row.offset.max(at);
    let end = (row.offset + row.count as u64).min(at + (out.len() / SECTOR) as u64);
    if from >= end {
        return Ok(());
    }
    let (_, rest) = out.split_at_mut((from - at) as usize * SECTOR);
    let (piece, _) = rest.split_at_mut((end - from) as usize * SECTOR);
    fill_piece(shelf, k, row, from, piece)?;
    Ok(())
}

// Fills a piece with what the row says of its sectors, from sector `from` of the image on.
fn fill_piece<S: Shelf>(
    shelf: &mut S,
    k: u32,
    row: &Row,
    from: u64,
    piece: &mut [u8],
) -> Result<(), ShelfFailed>
    requires file { k < S.count shelf.old }
    requires after { row.now.offset ≤ from }
    requires place { row.now.zeroed ≡ false
        → 512 * (row.now.place + (from - row.now.offset)) + length piece.old ≤ 2 ^ 50 }
    ensures filled { OnOk result
        (IfSome (S.files shelf.old)
        (λ files. IsRowPiece (file_at files k) row.now from (length piece.new) piece.new)) }
    ensures same { SameFiles S.files S.count shelf.old shelf.new }
    ensures cause { Charges S.faults shelf.old shelf.new (IsErr result) }
{
    if row.zeroed {
        piece.fill(0);
        return Ok(());
    }
    shelf.read(k, 512 * (row.place + (from - row.offset)), piece)?;
    Ok(())
}
