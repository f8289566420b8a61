ghost use Rattle.std.specs.Prelude.{◌≡◌};
ghost use Rattle.top_writer.specs.declared.fault.WriteFault.TheVariants.{Memory, Failed};
ghost use Rattle.top_writer.specs.declared.fault.ReadFault.TheVariants as reads;

use block_disk::DiskFailed;
use lsmt_header::HeadFault;
use sector_extent::Memory;
use seg_mapping::RowFault;

/// Why a top was not made.
#[derive(Clone, Copy, Debug, PartialEq, Eq)]
pub enum TopMakeFault {
    /// There was no memory.
    Memory,
    /// The disk failed.
    Failed,
}

/// Why a top was not loaded.
#[derive(Clone, Copy, Debug, PartialEq, Eq)]
pub enum TopFault {
    /// There was no memory for the table.
    Memory,
    /// The disk failed.
    Failed,
    /// The files are no top.
    NoTop(TopReason),
}

/// Why three files are no top: the first of these that holds, in this order, and of the rows' faults
/// the first row's.
#[derive(Clone, Copy, Debug, PartialEq, Eq)]
pub enum TopReason {
    /// The data file or the index file has fewer than 4,096 bytes.
    HeadShort,
    /// The first block of the data file is not that of its head.
    Bytes(HeadFault),
    /// The first block of the index file is not that of its head.
    Rows(HeadFault),
    /// The data file, or else the index file, is of an image of so many sectors.
    HeadSize(u64),
    /// The data file has another parent than the one that was asked for.
    ParentDiffers,
    /// The mark file holds no mark.
    NoMark,
    /// The mark's sequence is this one, over 2^61.
    MarkWorn(u64),
    /// The mark counts over 2^22 rows or over 2^30 sectors.
    MarkBad { rows: u64, sectors: u64 },
    /// The index file has fewer rows than the mark counts.
    ShortRows,
    /// The data file has fewer sectors than the mark counts.
    ShortBytes,
    /// The sixteen bytes of that number are no row.
    Row { number: u64, fault: RowFault },
    /// The row of that number ends past the image.
    RowRange(u64),
    /// It is not zeroed, and its sectors are not among those that the mark counts.
    RowPlace(u64),
}

/// Why a write or a zero was refused.
#[derive(Clone, Copy, Debug, PartialEq, Eq)]
pub enum WriteFault {
    /// With it the top would have over 2^22 rows or over 2^30 sectors of data. So many it has.
    Full { rows: u64, sectors: u64 },
    /// There was no memory.
    Memory,
    /// The disk failed.
    Failed,
}

/// Why a read failed.
#[derive(Clone, Copy, Debug, PartialEq, Eq)]
pub enum ReadFault {
    /// There was no memory for the gaps.
    Memory,
    /// The disk failed.
    Failed,
}

impl From<Memory> for WriteFault {
    ghost from_gives = { λ _ fault. fault ≡ Memory };

    fn from(_memory: Memory) -> WriteFault {
        WriteFault::Memory
    }
}

impl From<DiskFailed> for WriteFault {
    ghost from_gives = { λ _ fault. fault ≡ Failed };

    fn from(_failed: DiskFailed) -> WriteFault {
        WriteFault::Failed
    }
}

impl From<Memory> for ReadFault {
    ghost from_gives = { λ _ fault. fault ≡ reads.Memory };

    fn from(_memory: Memory) -> ReadFault {
        ReadFault::Memory
    }
}

impl From<DiskFailed> for ReadFault {
    ghost from_gives = { λ _ fault. fault ≡ reads.Failed };

    fn from(_failed: DiskFailed) -> ReadFault {
        ReadFault::Failed
    }
}
