ghost use Rattle.std.specs.Prelude.{◌≡◌, ℕ, List, IfOk, IfErr, Ok, slice_set};
ghost use Rattle.lsmt_header.specs.declared.head.Head.{Head};
ghost use Rattle.lsmt_header.specs.declared.head.Kind.TheVariants.{SealedHead, SealedEnd};
ghost use Rattle.lsmt_header.specs.Blocks.{IsValid, BlockOf, RawHead, raw_head, raw_block, IsSized};
ghost use Rattle.lsmt_header.specs.Faults.{IsFault, IsClean};

use crate::fields::{MAGIC, read_fields, tag_of};
use crate::head::{Head, HeadFault, Kind};
use byte_fields::FieldWriter;

/// The block of a head.
pub fn encode_block(head: &Head) -> [u8; 4096]
    requires { IsValid head.now }
    ensures { BlockOf result head.now }
{
    let mut block = FieldWriter::new();
    block.put_bytes(MAGIC);
    block.put_u32_le(head.version);
    block.put_u32_le(head.kind.flags());
    block.put_u64_le(head.index_at);
    block.put_u64_le(head.rows);
    block.put_u64_le(head.sectors);
    block.put_bytes(&head.uuid);
    block.put_bytes(&head.parent);
    block.put_bytes(head.tag.as_field());
    block.finish()
}

/// The head whose block this is, as a block of this kind, or its first fault.
pub fn decode_block(block: &[u8; 4096], kind: Kind) -> Result<Head, HeadFault>
    ensures found { IfOk result (BlockOf block.now) }
    ensures kind { IfOk result (λ head. head.kind ≡ kind) }
    ensures only { (head : Head) → head.kind ≡ kind → BlockOf block.now head → result ≡ Ok head }
    ensures fault { IfErr result (IsFault kind (raw_head block.now)) }
{
    let fields = read_fields(block);
    let tag = tag_of(kind, &fields)?;
    Ok(Head {
        version: fields.version,
        kind,
        index_at: fields.index_at,
        rows: fields.rows,
        sectors: fields.sectors,
        uuid: *fields.uuid,
        parent: *fields.parent,
        tag,
    })
}

/// No bytes are the blocks of two heads, and no head has two blocks. So what `encode_block` gives
/// decodes, as the head's kind, to the head that it was given.
pub fn one_block()
    ensures heads { (bytes : List ℕ) (one other : Head) → BlockOf bytes one → BlockOf bytes other → one ≡ other }
    ensures blocks { (one other : List ℕ) (head : Head) → BlockOf one head → BlockOf other head → one ≡ other }
{}

/// The block at the end of a sealed layer is the block at its front with 6 for the flags, at byte 12.
pub fn block_at_the_end()
    ensures { (bytes : List ℕ) (head : Head) → head.kind ≡ SealedHead → BlockOf bytes head
        → BlockOf (slice_set bytes 12 6) (record head { kind = SealedEnd }) }
{}
