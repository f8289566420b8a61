//! What a piece of the file holds.
ghost use Rattle.std.specs.Prelude.{◌≡◌, ℕ, ◌+◌, ◌-◌, ◌*◌, ◌/◌, ◌^◌, ◌<◌, ◌≤◌, ◌⊎◌, List, IsTrue, OnOk, IsErr, All, length, map, take};
ghost use Rattle.std.specs.List.{concat};
ghost use Rattle.sector_extent.specs.Causes.{Charges};
ghost use Rattle.block_disk.specs.Changes.{piece};
ghost use Rattle.block_disk.specs.Claims.{Quiet};
ghost use Rattle.seg_mapping.specs.Rows.{Fits, spelling};
ghost use Rattle.lsmt_header.specs.declared.head.Kind.TheVariants.{SealedHead, SealedEnd};
ghost use Rattle.lsmt_header.specs.Blocks as blocks;
ghost use Rattle.lsmt_header.specs.Blocks.{raw_block, raw_of, IsValid};
ghost use Rattle.flat_image.specs.CanonicalFiles.{file_with, padding_after};
ghost use Rattle.flat_image.specs.LayerFiles.{whole_blocks};
ghost use Rattle.sealed_layer.specs.Layers.{IsLayerIndex};
ghost use Rattle.layer_commit.specs.Laying.{Lays};
ghost use Rattle.layer_commit.specs.Sources.{copied, counted, AreSources, AreWithin};
ghost use Rattle.layer_commit.specs.View.{length_of};
ghost use Rattle.layer_commit.specs.declared.source.Source.{Source};

use crate::source::Source;
use block_disk::{Disk, DiskFailed};
use lsmt_header::{Head, Kind, encode_block};
use sealed_layer::Layer;
use seg_mapping::{Row, encode};

// Bytes of a head's block, a sector and a row.
pub(crate) const BLOCK: u64 = 4096;

pub(crate) const SECTOR: u64 = 512;

const ROW: u64 = 16;

// Lays bytes that stand at `at` of the file into those from `from` on, as far as they meet.
fn lay(out: &mut [u8], from: u64, at: u64, bytes: &[u8])
    requires window { from + length out.old ≤ 2 ^ 50 }
    requires place { at + length bytes.now ≤ 2 ^ 50 }
    ensures { Lays from at bytes.now out.old out.new }
{
    let start = at.max(from);
    let end = (at + bytes.len() as u64).min(from + out.len() as u64);
    if start >= end {
        return;
    }
    let (_, rest) = out.split_at_mut((start - from) as usize);
    let (part, _) = rest.split_at_mut((end - start) as usize);
    let (_, bytes) = bytes.split_at((start - at) as usize);
    let (bytes, _) = bytes.split_at((end - start) as usize);
    part.copy_from_slice(bytes);
}

// Reads the sectors of a source, as far as they meet the bytes from `from` on, with one call.
fn lay_source<D: Disk>(
    disk: &mut D,
    file: u32,
    source: &Source,
    from: u64,
    out: &mut [u8],
) -> Result<(), DiskFailed>
    requires window { from + length out.old ≤ 2 ^ 50 }
    requires low { source.now.from + source.now.count ≤ 2 ^ 41 }
    requires place { source.now.to + source.now.count ≤ 2 ^ 41 }
    ensures laid { OnOk result (IsTrue D.tells
        → 512 * (source.now.from + source.now.count) ≤ length ((D.state disk.old).seen file)
        → Lays from (512 * source.now.to)
        (piece (512 * source.now.from) (512 * source.now.count) ((D.state disk.old).seen file)) out.old out.new) }
    ensures size { length out.new ≡ length out.old }
    ensures quiet { Quiet (D.state disk.old) (D.state disk.new) }
    ensures cause { Charges D.faults disk.old disk.new (IsErr result) }
{
    let at = SECTOR * source.to;
    let start = at.max(from);
    let end = (at + SECTOR * source.count).min(from + out.len() as u64);
    if start >= end {
        return Ok(());
    }
    let (_, rest) = out.split_at_mut((start - from) as usize);
    let (part, _) = rest.split_at_mut((end - start) as usize);
    disk.read_at(file, SECTOR * source.from + (start - at), part)?;
    Ok(())
}

// How many sources end at that byte or before, found by binary search.
fn sources_before(sources: &[Source], from: u64) -> usize
    requires sources { AreSources 8 sources.now }
    requires few { counted sources.now ≤ 2 ^ 40 }
    ensures within { result ≤ length sources.now }
    ensures before { (result ≡ 0) ⊎ (512 * (8 + counted (take result sources.now)) ≤ from) }
{
    sources.partition_point(|source| {
        SECTOR.saturating_mul(source.to.saturating_add(source.count)) <= from
    })
}

// Reads the sectors of the data that meet the bytes from `from` on.
fn lay_data<D: Disk>(
    disk: &mut D,
    file: u32,
    sources: &[Source],
    from: u64,
    out: &mut [u8],
) -> Result<(), DiskFailed>
    requires window { from + length out.old ≤ 2 ^ 50 }
    requires sources { AreSources 8 sources.now }
    requires few { counted sources.now ≤ 2 ^ 40 }
    ensures laid { OnOk result (IsTrue D.tells → AreWithin ((D.state disk.old).seen file) sources.now
        → Lays from 4096 (copied ((D.state disk.old).seen file) sources.now) out.old out.new) }
    ensures size { length out.new ≡ length out.old }
    ensures quiet { Quiet (D.state disk.old) (D.state disk.new) }
    ensures cause { Charges D.faults disk.old disk.new (IsErr result) }
{
    let end = from + out.len() as u64;
    let first = sources_before(sources, from);
    let (_, rest) = sources.split_at(first);
    for source in rest {
        if SECTOR * source.to >= end {
            break;
        }
        lay_source(disk, file, source, from, out)?;
    }
    Ok(())
}

// Lays the rows.
fn lay_rows(rows: &[Row], index_at: u64, from: u64, out: &mut [u8])
    requires window { from + length out.old ≤ 2 ^ 50 }
    requires place { index_at + 16 * length rows.now ≤ 2 ^ 50 }
    requires fits { All Fits rows.now }
    ensures { Lays from index_at (concat (map spelling rows.now)) out.old out.new }
{
    let end = from + out.len() as u64;
    let first = (from.saturating_sub(index_at) / ROW).min(rows.len() as u64);
    let (_, rest) = rows.split_at(first as usize);
    let mut at = index_at + ROW * first;
    for row in rest {
        if at >= end {
            break;
        }
        lay(out, from, at, &encode(row));
        at += ROW;
    }
}

// Lays the block at the front.
fn lay_front(head: &Head, from: u64, out: &mut [u8])
    requires window { from + length out.old ≤ 2 ^ 50 }
    requires valid { IsValid head.now }
    requires sized { blocks.Fits head.now }
    ensures { Lays from 0 (raw_block (raw_of head.now)) out.old out.new }
{
    if from < BLOCK {
        lay(out, from, 0, &encode_block(head));
    }
}

// Lays the zeros behind the rows.
fn lay_padding(at: u64, from: u64, out: &mut [u8])
    requires window { from + length out.old ≤ 2 ^ 50 }
    requires place { at ≤ 2 ^ 49 }
    ensures { Lays from at (padding_after at) out.old out.new }
{
    let zeros = [0; 4096];
    let size = at.div_ceil(BLOCK) * BLOCK - at;
    let (zeros, _) = zeros.split_at(size as usize);
    lay(out, from, at, zeros);
}

// Lays the block at the end.
fn lay_end(head: &Head, at: u64, from: u64, out: &mut [u8])
    requires window { from + length out.old ≤ 2 ^ 50 }
    requires place { at ≤ 2 ^ 49 }
    requires valid { IsValid head.now }
    requires kind { head.now.kind ≡ SealedHead }
    requires sized { blocks.Fits head.now }
    ensures { Lays from at (raw_block (raw_of (record head.now { kind = SealedEnd }))) out.old out.new }
{
    if at < from + out.len() as u64 {
        let end = Head {
            kind: Kind::SealedEnd,
            ..*head
        };
        lay(out, from, at, &encode_block(&end));
    }
}

// Fills the bytes of the file from `from` on.
fn fill<D: Disk>(
    disk: &mut D,
    file: u32,
    layer: &Layer,
    sources: &[Source],
    from: u64,
    out: &mut [u8],
) -> Result<(), DiskFailed>
    requires layer { IsLayerIndex layer.now.head layer.now.rows }
    requires index { layer.now.head.index_at ≡ 4096 + 512 * counted sources.now }
    requires low { layer.now.head.index_at ≤ 2 ^ 41 }
    requires sources { AreSources 8 sources.now }
    requires within { from + length out.old ≤ length_of layer.now.head }
    ensures filled { OnOk result (IsTrue D.tells → AreWithin ((D.state disk.old).seen file) sources.now
        → out.new ≡ piece from (length out.old)
        (file_with layer.now.head (copied ((D.state disk.old).seen file) sources.now) layer.now.rows)) }
    ensures size { length out.new ≡ length out.old }
    ensures quiet { Quiet (D.state disk.old) (D.state disk.new) }
    ensures cause { Charges D.faults disk.old disk.new (IsErr result) }
{
    let head = layer.head();
    let rows_end = head.index_at + ROW * head.rows;
    let end = rows_end.div_ceil(BLOCK) * BLOCK;
    lay_front(head, from, out);
    lay_data(disk, file, sources, from, out)?;
    lay_rows(layer.rows(), head.index_at, from, out);
    lay_padding(rows_end, from, out);
    lay_end(head, end, from, out);
    Ok(())
}

// Fills the front of a buffer with the bytes of the file from `from` on.
pub(crate) fn fill_vec<D: Disk>(
    disk: &mut D,
    file: u32,
    layer: &Layer,
    sources: &[Source],
    from: u64,
    size: usize,
    buffer: &mut Vec<u8>,
) -> Result<(), DiskFailed>
    requires layer { IsLayerIndex layer.now.head layer.now.rows }
    requires index { layer.now.head.index_at ≡ 4096 + 512 * counted sources.now }
    requires low { layer.now.head.index_at ≤ 2 ^ 41 }
    requires sources { AreSources 8 sources.now }
    requires within { from + size ≤ length_of layer.now.head }
    requires room { size ≤ length buffer.old.items }
    ensures filled { OnOk result (IsTrue D.tells → AreWithin ((D.state disk.old).seen file) sources.now
        → take size buffer.new.items ≡ piece from size
        (file_with layer.now.head (copied ((D.state disk.old).seen file) sources.now) layer.now.rows)) }
    ensures size { length buffer.new.items ≡ length buffer.old.items }
    ensures quiet { Quiet (D.state disk.old) (D.state disk.new) }
    ensures cause { Charges D.faults disk.old disk.new (IsErr result) }
{
    let (out, _) = buffer.as_mut_slice().split_at_mut(size);
    fill(disk, file, layer, sources, from, out)?;
    Ok(())
}
