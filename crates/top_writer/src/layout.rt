//! The files of a top, and what stands in them.
ghost use Rattle.std.specs.Prelude.{◌≡◌, ℕ, ◌+◌, ◌*◌, ◌^◌, ◌<◌, ◌≤◌, [], length};
ghost use Rattle.lsmt_header.specs.Blocks.{BlockOf, IsSealed, IsSize, nil};
ghost use Rattle.top_writer.specs.Files.{data_file, index_file, mark_file, new_head, rows_said, sectors_said};

use byte_fields::{FieldReader, FieldWriter};
use lsmt_header::{Head, Kind, Tag, encode_block};

/// Bytes of the block at the front of the data file and of the index file.
pub(crate) const BLOCK: u64 = 4096;

/// Bytes of a row in the index file.
pub(crate) const ROW: u64 = 16;

/// The first sector of the data, counted from the front of the file.
pub(crate) const FIRST_SECTOR: u64 = 8;

/// The number of the data file.
pub(crate) fn data_number(epoch: u32) -> u32
    requires { epoch ≤ 255 }
    ensures { result ≡ data_file epoch }
{
    4 * epoch + 1
}

/// The number of the index file.
pub(crate) fn index_number(epoch: u32) -> u32
    requires { epoch ≤ 255 }
    ensures { result ≡ index_file epoch }
{
    4 * epoch + 2
}

/// The number of the mark file.
pub(crate) fn mark_number(epoch: u32) -> u32
    requires { epoch ≤ 255 }
    ensures { result ≡ mark_file epoch }
{
    4 * epoch + 3
}

/// The body of a mark that counts so many rows and sectors.
pub(crate) fn body_of(rows: u64, sectors: u64) -> [u8; 48]
    ensures rows { rows_said result ≡ rows }
    ensures sectors { sectors_said result ≡ sectors }
{
    let mut body = FieldWriter::new();
    body.put_u64_le(rows);
    body.put_u64_le(sectors);
    body.finish()
}

/// The rows and the sectors that the body of a mark counts.
pub(crate) fn counts_of(body: &[u8; 48]) -> (u64, u64)
    ensures rows { result.0 ≡ rows_said body.now }
    ensures sectors { result.1 ≡ sectors_said body.now }
{
    let mut fields = FieldReader::new(body);
    let rows = fields.take_u64_le();
    let sectors = fields.take_u64_le();
    (rows, sectors)
}

/// The block at the front of a new file of that kind.
pub(crate) fn first_block(kind: Kind, sectors: u64, parent: [u8; 16]) -> [u8; 4096]
    requires top { IsSealed kind → ⊥ }
    requires size { IsSize sectors }
    ensures { BlockOf result (new_head kind sectors parent) }
{
    encode_block(&Head {
        version: 1,
        kind,
        index_at: 0,
        rows: 0,
        sectors,
        uuid: [0; 16],
        parent,
        tag: Tag::empty(),
    })
}
