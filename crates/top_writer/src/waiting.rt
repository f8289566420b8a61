//! The rows that are not on the disk yet.
ghost use Rattle.std.specs.Prelude.{◌≡◌, ℕ, ◌+◌, ◌*◌, ◌^◌, ◌<◌, ◌≤◌, List, ◌++◌, length, vec_len, vec_capacity};
ghost use Rattle.sector_extent.specs.Rows.{rows_for};
ghost use Rattle.seg_mapping.specs.Rows.{RowOf};
ghost use Rattle.seg_mapping.specs.Rows as mapping;
ghost use Rattle.seg_table.specs.Put as put;
ghost use Rattle.flat_image.specs.RowCells.{AreSpelled};
ghost use Rattle.top_writer.specs.Rows.{row_number, rows_of};

use sector_extent::{Extent, ROW_SECTORS, rows_needed};
use seg_mapping::{Row, encode};
use seg_table::What;

// The row of that number of an extent whose sectors have this.
fn row_of(extent: &Extent, what: What, number: u64) -> Row
    requires some { number < rows_for extent.now.count }
    requires fits { put.Fits what extent.now.count }
    ensures row { result ≡ row_number extent.now.at extent.now.count what number }
    ensures fits { mapping.Fits result }
{
    let skipped = ROW_SECTORS * number;
    let (place, zeroed) = match what {
        What::Place(place) => (place + skipped, false),
        What::Zero => (0, true),
    };
    Row {
        offset: extent.at + skipped,
        count: ROW_SECTORS.min(extent.count as u64 - skipped) as u32,
        place,
        zeroed,
        tag: 0,
    }
}

// Adds the bytes of a row, for which there is room.
fn push_row(waiting: &mut Vec<u8>, row: &Row)
    requires room { vec_len waiting.old + 16 ≤ vec_capacity waiting.old }
    requires fits { mapping.Fits row.now }
    ensures added { (bytes : List ℕ) × RowOf bytes row.now × (length bytes ≡ 16)
        × (waiting.new.items ≡ waiting.old.items ++ bytes) }
    ensures len { vec_len waiting.new ≡ vec_len waiting.old + 16 }
    ensures capacity { vec_capacity waiting.old ≤ vec_capacity waiting.new }
{
    let bytes = encode(row);
    match waiting.extend_from_slice(&bytes) {
        Ok(()) => {}
        Err(_) => unreachable!(),
    }
}

/// Adds the rows of an extent whose sectors have this. There is room for them.
pub(crate) fn push_rows(waiting: &mut Vec<u8>, extent: &Extent, what: What)
    requires room { vec_len waiting.old + 16 * rows_for extent.now.count ≤ vec_capacity waiting.old }
    requires fits { put.Fits what extent.now.count }
    ensures added { (added : List ℕ) × (waiting.new.items ≡ waiting.old.items ++ added)
        × AreSpelled added 0 (rows_of extent.now.at extent.now.count what)
        × (length added ≡ 16 * rows_for extent.now.count) }
{
    for number in 0..rows_needed(extent.count as u64) {
        push_row(waiting, &row_of(extent, what, number));
    }
}
