ghost use Rattle.std.specs.Prelude.{◌≡◌, IfOk, IfErr};
ghost use Rattle.lsmt_header.specs.Blocks.{raw_block, IsSized};
ghost use Rattle.lsmt_header.specs.Faults.{IsClean, IsFault};
ghost use Rattle.lsmt_header.specs.RawFields.{raw_in};

use crate::head::{HeadFault, Kind, is_size};
use crate::tag::Tag;
use crate::zeros::first_set;
use byte_fields::FieldReader;

/// What a block begins with.
pub const MAGIC: &[u8; 8] = b"OBDLAYR1";
/// The flag that says compressed.
const COMPRESSED: u32 = 8;
/// Where the zeros behind the tag begin.
const REST_AT: u32 = 328;

/// The ten fields of a block, whatever they say.
#[derive(Clone, Copy)]
pub struct Fields<'a> {
    pub magic: &'a [u8; 8],
    pub version: u32,
    pub flags: u32,
    pub index_at: u64,
    pub rows: u64,
    pub sectors: u64,
    pub uuid: &'a [u8; 16],
    pub parent: &'a [u8; 16],
    pub tag: &'a [u8; 256],
    pub rest: &'a [u8; 3768],
}

/// Reads the fields of a block.
pub fn read_fields(block: &[u8; 4096]) -> Fields<'_>
    ensures spelled { block.now ≡ raw_block (raw_in result) }
    ensures sized { IsSized (raw_in result) }
{
    let mut fields = FieldReader::new(block);
    Fields {
        magic: fields.take_bytes(),
        version: fields.take_u32_le(),
        flags: fields.take_u32_le(),
        index_at: fields.take_u64_le(),
        rows: fields.take_u64_le(),
        sectors: fields.take_u64_le(),
        uuid: fields.take_bytes(),
        parent: fields.take_bytes(),
        tag: fields.take_bytes(),
        rest: fields.take_bytes(),
    }
}

/// The tag of a block whose fields pass each test, or the fault of the first that fails.
pub fn tag_of(kind: Kind, fields: &Fields<'_>) -> Result<Tag, HeadFault>
    ensures clean { IfOk result (IsClean kind (raw_in fields.now)) }
    ensures fault { IfErr result (IsFault kind (raw_in fields.now)) }
{
    if fields.magic != MAGIC {
        return Err(HeadFault::BadMagic);
    }
    if !kind.has_version(fields.version) {
        return Err(HeadFault::BadVersion(fields.version));
    }
    if fields.flags & COMPRESSED != 0 {
        return Err(HeadFault::Compressed);
    }
    if fields.flags != kind.flags() {
        return Err(HeadFault::BadFlags(fields.flags));
    }
    if !is_size(fields.sectors) {
        return Err(HeadFault::BadSize(fields.sectors));
    }
    if kind.lacks(fields.uuid) {
        return Err(HeadFault::NilUuid);
    }
    let tag = Tag::of_field(fields.tag).ok_or(HeadFault::BadTag)?;
    let rest = fields.rest;
    match first_set(rest) {
        Some(at) => Err(HeadFault::Unclean(REST_AT + at as u32)),
        None => Ok(tag),
    }
}
