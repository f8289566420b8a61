//! The rows of a top, read into its table.
ghost use Rattle.std.specs.Prelude.{◌≡◌, ℕ, ◌+◌, ◌-◌, ◌*◌, ◌/◌, ◌%◌, ◌^◌, ◌<◌, ◌≤◌, ◌↔◌, [], ◌∷◌, min, None, false, IsTrue, IfOk, IfErr, OnOk, IsErrOf, length};
ghost use Rattle.std.specs.Option.{option_or};
ghost use Rattle.sector_extent.specs.Causes.{Charges};
ghost use Rattle.lsmt_header.specs.Blocks.{IsSize};
ghost use Rattle.seg_mapping.specs.Rows.{Fits, RowOf};
ghost use Rattle.seg_table.specs.Cells.{cell_in};
ghost use Rattle.block_disk.specs.Claims.{Quiet};
ghost use Rattle.flat_image.specs.History.{HasRoom};
ghost use Rattle.top_writer.specs.declared.fault.TopFault.TheVariants.{Failed};
ghost use Rattle.top_writer.specs.Files.{index_file};
ghost use Rattle.top_writer.specs.Loading.{entry_of, Puts, StopsPutting, StopsReading, AreLoaded};
ghost use Rattle.top_writer.specs.Reasons.{IsRowReason};
ghost use Rattle.top_writer.specs.Rows.{IsStored, IsTopRow};

use crate::fault::{TopFault, TopReason};
use crate::layout::{BLOCK, FIRST_SECTOR, ROW, index_number};
use block_disk::Disk;
use sector_extent::Extent;
use seg_mapping::{Row, decode};
use seg_table::{SegTable, What};
use std::alloc::Global;

// Rows that are read at a time, 64 KiB of them.
const PIECE_ROWS: u64 = 4096;

// The row is zeroed, or its sectors are among the first so many of the data.
fn is_stored(row: &Row, filled: u64) -> bool
    requires fits { Fits row.now }
    requires few { filled ≤ 2 ^ 30 }
    ensures { IsTrue result ↔ IsStored filled row.now }
{
    row.zeroed
        || (row.place >= FIRST_SECTOR && row.place + row.count as u64 <= FIRST_SECTOR + filled)
}

// The row that these bytes are. Its number is for the reason alone.
fn top_row(bytes: &[u8; 16], number: u64, sectors: u64, filled: u64) -> Result<Row, TopReason>
    requires few { filled ≤ 2 ^ 30 }
    ensures spelled { IfOk result (RowOf bytes.now) }
    ensures sound { IfOk result (IsTopRow sectors filled) }
    ensures reason { IfErr result (IsRowReason sectors filled bytes.now number) }
{
    let row = match decode(bytes) {
        Ok(row) => row,
        Err(fault) => return Err(TopReason::Row { number, fault }),
    };
    if row.offset + row.count as u64 > sectors {
        return Err(TopReason::RowRange(number));
    }
    if !is_stored(&row, filled) {
        return Err(TopReason::RowPlace(number));
    }
    Ok(row)
}

// The sectors of the image of which a row speaks.
fn extent_of(row: &Row) -> Extent
    requires range { row.now.offset + row.now.count ≤ 2 ^ 31 }
    ensures at { result.at ≡ row.now.offset }
    ensures count { result.count ≡ row.now.count }
{
    Extent {
        at: row.offset,
        count: row.count,
    }
}

// Sets what the row says, for which there is room.
fn put_row(table: &mut SegTable, row: &Row)
    requires room { 0 < table.old.spare }
    requires fits { Fits row.now }
    requires range { row.now.offset + row.now.count ≤ 2 ^ 31 }
    requires place { row.now.zeroed ≡ false → row.now.place + row.now.count ≤ 2 ^ 55 }
    ensures cells { (sector : ℕ) → cell_in table.new.segments sector
        ≡ option_or (entry_of (row.now ∷ []) sector) (cell_in table.old.segments sector) }
    ensures spare { table.new.spare + 1 ≡ table.old.spare }
{
    let extent = extent_of(row);
    if row.zeroed {
        table.put(extent, What::Zero);
    } else {
        table.put(extent, What::Place(row.place));
    }
}

// Reads the rows of a piece of the index, of which the first has that number, into the table. Room is
// made for one row at a time, since a row seldom wants more memory than the one before it left.
fn put_rows(
    table: &mut SegTable,
    number: u64,
    piece: &[u8],
    sectors: u64,
    filled: u64,
) -> Result<(), TopFault>
    requires size { sectors ≤ 2 ^ 31 }
    requires few { filled ≤ 2 ^ 30 }
    requires number { number + length piece.now ≤ 2 ^ 50 }
    requires whole { length piece.now % 16 ≡ 0 }
    ensures puts { OnOk result
        (Puts sectors filled piece.now table.old.segments table.new.segments (length piece.now / 16)) }
    ensures reason { IfErr result (StopsPutting sectors filled piece.now number (length piece.now / 16)) }
    ensures calm { ¬ IsErrOf result Failed }
{
    let mut number = number;
    let mut left = piece;
    while let Some((bytes, rest)) = left.split_first_chunk() {
        let row = top_row(bytes, number, sectors, filled)?;
        table.reserve(1)?;
        put_row(table, &row);
        number += 1;
        left = rest;
    }
    Ok(())
}

/// Reads the first so many rows of the index into a table, in order, so that a later one hides those
/// before it. The memory is that of the table and of one piece.
pub(crate) fn read_table<D: Disk>(
    alloc: Global,
    disk: &mut D,
    epoch: u32,
    sectors: u64,
    rows: u64,
    filled: u64,
) -> Result<SegTable, TopFault>
    requires epoch { epoch ≤ 255 }
    requires size { IsSize sectors }
    requires few { HasRoom rows filled }
    ensures loaded { IfOk result (λ table.
        AreLoaded D.tells sectors filled ((D.state disk.old).seen (index_file epoch)) rows table.segments) }
    ensures reason { IfErr result (λ fault. IsTrue D.tells
        → StopsReading sectors filled ((D.state disk.old).seen (index_file epoch)) rows fault) }
    ensures quiet { Quiet (D.state disk.old) (D.state disk.new) }
    ensures cause { Charges D.faults disk.old disk.new (IsErrOf result Failed) }
{
    let mut table = SegTable::new(alloc);
    let mut buffer = vec![in alloc; 0u8; (ROW * rows.min(PIECE_ROWS)) as usize]?;
    fill_table(
        disk,
        epoch,
        sectors,
        rows,
        filled,
        buffer.as_mut_slice(),
        &mut table,
    )?;
    Ok(table)
}

// Reads the rows into a table, a piece at a time.
fn fill_table<D: Disk>(
    disk: &mut D,
    epoch: u32,
    sectors: u64,
    rows: u64,
    filled: u64,
    buffer: &mut [u8],
    table: &mut SegTable,
) -> Result<(), TopFault>
    requires epoch { epoch ≤ 255 }
    requires size { IsSize sectors }
    requires few { HasRoom rows filled }
    requires buffer { length buffer.old ≡ 16 * min rows 4096 }
    requires empty { (sector : ℕ) → cell_in table.old.segments sector ≡ None }
    ensures loaded { OnOk result
        (AreLoaded D.tells sectors filled ((D.state disk.old).seen (index_file epoch)) rows table.new.segments) }
    ensures reason { IfErr result (λ fault. IsTrue D.tells
        → StopsReading sectors filled ((D.state disk.old).seen (index_file epoch)) rows fault) }
    ensures quiet { Quiet (D.state disk.old) (D.state disk.new) }
    ensures cause { Charges D.faults disk.old disk.new (IsErrOf result Failed) }
{
    let mut number = 0;
    while number < rows {
        let more = (rows - number).min(PIECE_ROWS);
        let (piece, _) = buffer.split_at_mut((ROW * more) as usize);
        disk.read_at(index_number(epoch), BLOCK + ROW * number, piece)?;
        put_rows(table, number, piece, sectors, filled)?;
        number += more;
    }
    Ok(())
}
