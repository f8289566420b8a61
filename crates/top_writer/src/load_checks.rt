//! What is checked of a top before its rows are read.
ghost use Rattle.std.specs.Prelude.{◌≡◌, ℕ, ◌+◌, ◌*◌, ◌^◌, ◌<◌, ◌≤◌, ◌↔◌, List, Option, length, take, IsTrue, IfOk, IfErr, OnOk};
ghost use Rattle.lsmt_header.specs.declared.head.Kind.TheVariants.{TopBytes, TopRows};
ghost use Rattle.lsmt_header.specs.declared.head.HeadFault.{HeadFault};
ghost use Rattle.lsmt_header.specs.Blocks.{BlockOf, raw_head};
ghost use Rattle.lsmt_header.specs.Faults.{IsFault};
ghost use Rattle.gate_mark.specs.Mark.{body_in};
ghost use Rattle.flat_image.specs.History.{IsOver};
ghost use Rattle.top_writer.specs.declared.fault.TopReason.TheVariants as why;
ghost use Rattle.top_writer.specs.Files.{Stored, HeadsAsked, asked_of, IsSizeFor, IsParent};
ghost use Rattle.top_writer.specs.Loading.{AreFronts};
ghost use Rattle.top_writer.specs.Reasons.{HasParent, HasMark, IsReason};
ghost use Rattle.top_writer.specs.Showing.{Counts};

use crate::fault::TopReason;
use crate::layout::{BLOCK, ROW, counts_of};
use flat_image::{TOP_ROWS, TOP_SECTORS};
use gate_mark::Mark;
use lsmt_header::{Head, Kind, decode_block};
use sector_extent::SECTOR;

// It is the parent that is asked for, where one is asked for.
fn is_parent(asked: Option<[u8; 16]>, parent: &[u8; 16]) -> bool
    ensures { IsTrue result ↔ IsParent asked parent.now }
{
    match asked {
        None => true,
        Some(asked) => asked == *parent,
    }
}

/// So many sectors, as a head says them, are those of the image, or where they need not be just those, no
/// more.
pub fn is_size(exact: bool, sectors: u64, said: u64) -> bool
    ensures { IsTrue result ↔ IsSizeFor exact sectors said }
{
    if exact {
        said == sectors
    } else {
        said <= sectors
    }
}

// The head of the data file.
fn bytes_head(block: &[u8; 4096]) -> Result<Head, TopReason>
    ensures found { IfOk result (λ head. BlockOf block.now head × (head.kind ≡ TopBytes)) }
    ensures reason { IfErr result (λ reason. (fault : HeadFault)
        × (reason ≡ why.Bytes fault) × IsFault TopBytes (raw_head block.now) fault) }
{
    match decode_block(block, Kind::TopBytes) {
        Ok(head) => Ok(head),
        Err(fault) => Err(TopReason::Bytes(fault)),
    }
}

// The head of the index file.
fn rows_head(block: &[u8; 4096]) -> Result<Head, TopReason>
    ensures found { IfOk result (λ head. BlockOf block.now head × (head.kind ≡ TopRows)) }
    ensures reason { IfErr result (λ reason. (fault : HeadFault)
        × (reason ≡ why.Rows fault) × IsFault TopRows (raw_head block.now) fault) }
{
    match decode_block(block, Kind::TopRows) {
        Ok(head) => Ok(head),
        Err(fault) => Err(TopReason::Rows(fault)),
    }
}

/// Checks the first blocks of the data file and of the index file.
pub(crate) fn check_fronts(
    bytes: &[u8; 4096],
    index: &[u8; 4096],
    sectors: u64,
    exact: bool,
    parent: Option<[u8; 16]>,
) -> Result<(), TopReason>
    ensures ok { OnOk result ((t : Stored)
        → AreFronts t bytes.now index.now → HasParent sectors (asked_of exact parent) t) }
    ensures reason { IfErr result (λ reason. (t : Stored)
        → AreFronts t bytes.now index.now → IsReason sectors (asked_of exact parent) t reason) }
{
    let head = bytes_head(bytes)?;
    let rows = rows_head(index)?;
    let bytes_fit = is_size(exact, sectors, head.sectors);
    if !bytes_fit {
        return Err(TopReason::HeadSize(head.sectors));
    }
    let rows_fit = is_size(exact, sectors, rows.sectors);
    if !rows_fit {
        return Err(TopReason::HeadSize(rows.sectors));
    }
    if !is_parent(parent, &head.parent) {
        return Err(TopReason::ParentDiffers);
    }
    Ok(())
}

/// Checks what the mark counts against the lengths of the two files, in bytes, and answers it: the
/// rows, and the sectors of data.
pub(crate) fn check_counts(
    mark: &Mark,
    index_len: u64,
    bytes_len: u64,
) -> Result<(u64, u64), TopReason>
    ensures counts { IfOk result (λ counts. Counts (body_in mark.now) counts.0 counts.1) }
    ensures index { IfOk result (λ counts. 4096 + 16 * counts.0 ≤ index_len) }
    ensures bytes { IfOk result (λ counts. 4096 + 512 * counts.1 ≤ bytes_len) }
    ensures reason { IfErr result (λ reason. (n : ℕ) (asked : HeadsAsked) (t : Stored)
        → HasMark n asked t (body_in mark.now)
        → index_len ≡ length t.index → bytes_len ≡ length t.bytes → IsReason n asked t reason) }
{
    let (rows, sectors) = counts_of(&mark.get());
    if rows > TOP_ROWS {
        return Err(TopReason::MarkBad { rows, sectors });
    }
    if sectors > TOP_SECTORS {
        return Err(TopReason::MarkBad { rows, sectors });
    }
    if index_len < BLOCK + ROW * rows {
        return Err(TopReason::ShortRows);
    }
    if bytes_len < BLOCK + SECTOR as u64 * sectors {
        return Err(TopReason::ShortBytes);
    }
    Ok((rows, sectors))
}
