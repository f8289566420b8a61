//! Rows of a layer's index. A row of 16 bytes maps sectors of the image to sectors of the file, or
//! says that they are zeros.
#![tactic(auto)]

ghost use Rattle.std.specs.Prelude.{◌≡◌, ◌<◌, ◌^◌, ◌↔◌, List, ℕ, IsTrue, IsErr, IfOk, Ok};
ghost use Rattle.seg_mapping.specs.Rows.{Fits, RowOf, count_in, first_word, second_word};

use byte_fields::{FieldReader, FieldWriter};

/// The bits of an offset in the first word, and of a place in the second.
const OFFSET_BITS: u32 = 50;

const PLACE_BITS: u32 = 55;
/// Where the tag begins in the second word, above the bit that says zeroed.
const TAG_AT: u32 = 56;

/// What a row maps. Its fields have a place in 16 bytes where `Row::fits` says so.
#[derive(Clone, Copy, Debug, PartialEq, Eq)]
pub struct Row {
    /// The first sector of the image, below 2^50.
    pub offset: u64,
    /// How many sectors, 1 to 16,383.
    pub count: u32,
    /// Where they stand in the file, in sectors from its start, below 2^55.
    pub place: u64,
    /// They are zeros, and the file has none of them.
    pub zeroed: bool,
    /// Any byte.
    pub tag: u8,
}

/// Why 16 bytes are no row.
#[derive(Clone, Copy, Debug, PartialEq, Eq)]
pub enum RowFault {
    /// The row has no sectors.
    EmptyRow,
}

impl Row {
    /// Each field lies in its range.
    pub fn fits(&self) -> bool
        ensures { IsTrue result ↔ Fits self.now }
    {
        self.offset < 1 << OFFSET_BITS
            && 0 < self.count
            && self.count < 1 << 14
            && self.place < 1 << PLACE_BITS
    }
}

// The two numbers of a row.
fn words_of(row: &Row) -> (u64, u64)
    requires { Fits row.now }
    ensures first { result.0 ≡ first_word row.now }
    ensures second { result.1 ≡ second_word row.now }
    ensures tag { row.now.tag < 2 ^ 8 }
{
    let zeroed = if row.zeroed { 1 << PLACE_BITS } else { 0 };
    let first = row.offset + ((row.count as u64) << OFFSET_BITS);
    let second = row.place + zeroed + ((row.tag as u64) << TAG_AT);
    (first, second)
}

/// The 16 bytes of a row.
pub fn encode(row: &Row) -> [u8; 16]
    requires { Fits row.now }
    ensures { RowOf result row.now }
{
    let (first, second) = words_of(row);
    let mut bytes = FieldWriter::new();
    bytes.put_u64_le(first);
    bytes.put_u64_le(second);
    bytes.finish()
}

/// The row that these 16 bytes are.
pub fn decode(bytes: &[u8; 16]) -> Result<Row, RowFault>
    ensures found { IfOk result (RowOf bytes.now) }
    ensures only { (row : Row) → RowOf bytes.now row → result ≡ Ok row }
    ensures empty { IsErr result ↔ (count_in bytes.now ≡ 0) }
{
    let mut fields = FieldReader::new(bytes);
    let first = fields.take_u64_le();
    let second = fields.take_u64_le();
    let count = (first >> OFFSET_BITS) as u32;
    if count == 0 {
        return Err(RowFault::EmptyRow);
    }
    Ok(Row {
        offset: first % (1 << OFFSET_BITS),
        count,
        place: second % (1 << PLACE_BITS),
        zeroed: (second >> PLACE_BITS) % 2 == 1,
        tag: (second >> TAG_AT) as u8,
    })
}

/// No 16 bytes are two rows, and no row has two spellings. So what `encode` gives decodes to the row
/// that it was given.
pub fn one_spelling()
    ensures rows { (bytes : List ℕ) (one other : Row) → RowOf bytes one → RowOf bytes other → one ≡ other }
    ensures spellings { (one other : List ℕ) (row : Row) → RowOf one row → RowOf other row → one ≡ other }
{}
