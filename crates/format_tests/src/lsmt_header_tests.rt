ghost use Rattle.lsmt_header.specs.Blocks.{IsValid};

use crate::expecting::{holds, holds_at};
use lsmt_header::*;
use std::test::Fail;

// The header of a layer of four sectors with one row, whose index begins at 5,120.
fn layer_head(kind: Kind, tag: Tag) -> Head
    ensures { IsValid result }
{
    Head {
        version: 1,
        kind,
        index_at: 5_120,
        rows: 1,
        sectors: 4,
        uuid: [0x11; 16],
        parent: [0; 16],
        tag,
    }
}

// What the block of that head begins with.
const FRONT: [u8; 72] = [
    0x4f, 0x42, 0x44, 0x4c, 0x41, 0x59, 0x52, 0x31, 1, 0, 0, 0, 7, 0, 0, 0, 0, 0x14, 0, 0, 0, 0, 0,
    0, 1, 0, 0, 0, 0, 0, 0, 0, 4, 0, 0, 0, 0, 0, 0, 0, 0x11, 0x11, 0x11, 0x11, 0x11, 0x11, 0x11,
    0x11, 0x11, 0x11, 0x11, 0x11, 0x11, 0x11, 0x11, 0x11, 0, 0, 0, 0, 0, 0, 0, 0, 0, 0, 0, 0, 0, 0,
    0, 0,
];

// Whether the block begins so, with zeros behind.
fn is_spelled(block: &[u8; 4096]) -> bool {
    let (front, behind) = block.split_at(72);
    front == FRONT.as_slice() && behind.iter().all(|byte| *byte == 0)
}

fn is_read_again(kind: Kind, tag: Tag) -> bool {
    let head = layer_head(kind, tag);
    decode_block(&encode_block(&head), kind) == Ok(head)
}

#[test]
fn block_of_a_head(rt: HostRuntime) {
    let head = layer_head(Kind::SealedHead, Tag::empty());
    holds(&rt, head.is_valid(), "the head");
    holds(&rt, is_spelled(&encode_block(&head)), "its block");
    for kind in [
        Kind::SealedHead,
        Kind::SealedEnd,
        Kind::TopBytes,
        Kind::TopRows,
    ] {
        let empty = is_read_again(kind, Tag::empty());
        let named = Tag::new(b"base").is_some_and(|tag| is_read_again(kind, tag));
        holds_at(&rt, empty && named, "kind", kind as usize);
    }
}

// A text, and whether a tag can have it.
const TEXTS: [(&[u8], bool); 6] = [
    (b"", true),
    (b"base", true),
    (&[0x61; 256], true),
    (&[0x61; 257], false),
    (b"a\0", false),
    (&[0xff], false),
];

#[test]
fn tags(rt: HostRuntime) {
    for (number, (text, is_tag)) in TEXTS.iter().enumerate() {
        let is_right = match Tag::new(text) {
            Some(tag) => *is_tag && tag.as_bytes() == *text,
            None => !*is_tag,
        };
        holds_at(&rt, is_right, "text", number);
    }
    holds(&rt, Tag::new(b"") == Some(Tag::empty()), "the empty tag");
}

// Bytes of a block of that kind that are changed, at these places to these values, and the fault.
type Case = (Kind, &'static [(usize, u8)], HeadFault);

// Zeros in place of the uuid.
const NAMELESS: [(usize, u8); 16] = [
    (40, 0),
    (41, 0),
    (42, 0),
    (43, 0),
    (44, 0),
    (45, 0),
    (46, 0),
    (47, 0),
    (48, 0),
    (49, 0),
    (50, 0),
    (51, 0),
    (52, 0),
    (53, 0),
    (54, 0),
    (55, 0),
];

const HEAD: Kind = Kind::SealedHead;

const FAULTS: [Case; 17] = [
    (HEAD, &[(0, 0x50)], HeadFault::BadMagic),
    (HEAD, &[(7, 0x32), (8, 2)], HeadFault::BadMagic),
    (HEAD, &[(8, 3)], HeadFault::BadVersion(3)),
    (HEAD, &[(9, 1), (12, 15)], HeadFault::BadVersion(257)),
    (HEAD, &[(12, 15)], HeadFault::Compressed),
    (HEAD, &[(12, 9), (32, 0)], HeadFault::Compressed),
    (HEAD, &[(12, 6)], HeadFault::BadFlags(6)),
    (HEAD, &[(15, 1), (32, 0)], HeadFault::BadFlags(0x0100_0007)),
    (HEAD, &[(32, 0)], HeadFault::BadSize(0)),
    (
        HEAD,
        &[(32, 1), (35, 0x80), (76, 1)],
        HeadFault::BadSize(0x8000_0001),
    ),
    (HEAD, &[(72, 0xff)], HeadFault::BadTag),
    (HEAD, &[(74, 0x78), (328, 1)], HeadFault::BadTag),
    (HEAD, &[(327, 1)], HeadFault::BadTag),
    (HEAD, &[(328, 1)], HeadFault::Unclean(328)),
    (HEAD, &[(4_095, 1), (1_000, 2)], HeadFault::Unclean(1_000)),
    (HEAD, &[(4_095, 0xff)], HeadFault::Unclean(4_095)),
    (Kind::TopBytes, &[(8, 2), (12, 5)], HeadFault::BadVersion(2)),
];

// The block of a layer's head with these bytes changed.
fn changed(tag: Tag, changes: &[(usize, u8)]) -> [u8; 4096] {
    let mut block = encode_block(&layer_head(Kind::SealedHead, tag));
    for (at, byte) in changes {
        if *at < 4_096 {
            block[*at] = *byte;
        }
    }
    block
}

// Whether the head of a block with no uuid, and with a tag that is none, is refused for that.
fn is_nameless(tag: Tag, kind: Kind, flags: u8, fault: HeadFault) -> bool {
    let mut block = changed(tag, &NAMELESS);
    block[12] = flags;
    block[72] = 0xff;
    decode_block(&block, kind) == Err(fault)
}

#[test]
fn first_faults(rt: HostRuntime) -> Result<(), Fail> {
    let tag = Tag::new(b"x").ok_or("a short text")?;
    for (number, (kind, changes, fault)) in FAULTS.iter().enumerate() {
        let found = decode_block(&changed(tag, changes), *kind);
        holds_at(&rt, found == Err(*fault), "fault", number);
    }
    let sealed = is_nameless(tag, Kind::SealedHead, 7, HeadFault::NilUuid);
    let top = is_nameless(tag, Kind::TopBytes, 5, HeadFault::BadTag);
    holds(&rt, sealed && top, "no uuid");
    let taller = decode_block(&changed(tag, &[(8, 2)]), Kind::SealedHead);
    holds(&rt, taller.is_ok(), "version 2");
    Ok(())
}
