ghost use Rattle.std.specs.Prelude.{◌≡◌, ℕ, ◌+◌, ◌-◌, ◌*◌, ◌/◌, ◌%◌, ◌^◌, ◌<◌, ◌≤◌, ◌↔◌, IsTrue, IfOk, IfErr, OnOk, OnErr, length, take, drop, vec_len, vec_capacity};
ghost use Rattle.seg_mapping.specs.Rows.{Fits, RowOf};
ghost use Rattle.lsmt_header.specs.Blocks.{IsSize};
ghost use Rattle.flat_image.specs.RowCells.{IsInData, IsLayerRow, AreLayerRows, end_of};
ghost use Rattle.sealed_layer.specs.Growing.{Grows};
ghost use Rattle.sealed_layer.specs.LayerFaults.{IsRowFault};

use crate::fault::LayerFault;
use lsmt_header::Head;
use sector_extent::SECTOR;
use seg_mapping::{Row, decode};

// The row that these bytes are, as the next one of a layer. Its number is for the fault alone.
fn layer_row(bytes: &[u8; 16], number: u64, low: u64, head: &Head) -> Result<Row, LayerFault>
    requires { head.now.sectors ≤ 2 ^ 31 }
    ensures spelled { IfOk result (RowOf bytes.now) }
    ensures sound { IfOk result (IsLayerRow head.now.sectors head.now.index_at low) }
    ensures fault { IfErr result (IsRowFault head.now bytes.now low number) }
{
    let row = match decode(bytes) {
        Ok(row) => row,
        Err(fault) => return Err(LayerFault::Row { number, fault }),
    };
    if row.offset < low {
        return Err(LayerFault::RowOrder(number));
    }
    if row.offset + row.count as u64 > head.sectors {
        return Err(LayerFault::RowRange(number));
    }
    if !is_in_data(&row, head.index_at) {
        return Err(LayerFault::RowPlace(number));
    }
    Ok(row)
}

// The row is zeroed, or its sectors lie between the header and the index.
fn is_in_data(row: &Row, index_at: u64) -> bool
    requires { Fits row.now }
    ensures { IsTrue result ↔ IsInData index_at row.now }
{
    row.zeroed || (row.place >= 8 && row.place + row.count as u64 <= index_at / SECTOR as u64)
}

// Reads the rows of a piece of the index, behind those that were read, of which the last ends at
// `low`. It answers where the last one ends then.
pub(crate) fn push_rows(
    rows: &mut Vec<Row>,
    low: u64,
    piece: &[u8],
    head: &Head,
) -> Result<u64, LayerFault>
    requires size { head.now.sectors ≤ 2 ^ 31 }
    requires low { low ≡ end_of 0 rows.old.items }
    requires sound { AreLayerRows head.now.sectors head.now.index_at 0 rows.old.items }
    requires whole { length piece.now % 16 ≡ 0 }
    requires room { vec_len rows.old + length piece.now / 16 ≤ vec_capacity rows.old }
    ensures grows { Grows head.now piece.now rows.old.items rows.new.items }
    ensures room { vec_capacity rows.new ≡ vec_capacity rows.old }
    ensures low { IfOk result (λ end. end ≡ end_of 0 rows.new.items) }
    ensures all { OnOk result (length rows.new.items ≡ length rows.old.items + length piece.now / 16) }
    ensures some { OnErr result (length rows.new.items < length rows.old.items + length piece.now / 16) }
    ensures fault { IfErr result
        (IsRowFault head.now (take 16 (drop (16 * (length rows.new.items - length rows.old.items)) piece.now))
        (end_of 0 rows.new.items) (length rows.new.items)) }
{
    let mut low = low;
    let mut left = piece;
    while let Some((bytes, rest)) = left.split_first_chunk() {
        let row = layer_row(bytes, rows.len() as u64, low, head)?;
        low = row.offset + row.count as u64;
        rows.push_reserved(row);
        left = rest;
    }
    Ok(low)
}
