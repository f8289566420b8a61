use crate::expecting::holds_at;
use layer_stack::*;
use lsmt_header::{Head, Kind, Tag};
use std::alloc::{AllocError, Global};
use std::test::Fail;

// A layer without rows: its version, its uuid and that of its parent, which are sixteen times these bytes,
// and its sectors.
type Layer = (u32, u8, u8, u64);

fn head_of(layer: &Layer) -> Head {
    let (version, uuid, parent, sectors) = *layer;
    Head {
        version,
        kind: Kind::SealedHead,
        index_at: 4096,
        rows: 0,
        sectors,
        uuid: [uuid; 16],
        parent: [parent; 16],
        tag: Tag::empty(),
    }
}

fn heads_of(alloc: Global, layers: &[Layer]) -> Result<Vec<Head>, AllocError> {
    let mut heads = Vec::with_capacity(alloc, layers.len())?;
    for layer in layers {
        heads.push(head_of(layer))?;
    }
    Ok(heads)
}

// Layers, and what is answered.
type Case = (&'static [Layer], Result<(), StackFault>);

const SAME_SIZE: [Case; 13] = [
    (&[], Err(StackFault::Empty)),
    (&[(1, 1, 0, 4)], Ok(())),
    (&[(1, 1, 0, 4), (1, 2, 1, 4), (1, 3, 2, 4)], Ok(())),
    (&[(1, 1, 9, 4)], Err(StackFault::ParentDiffers(0))),
    (
        &[(1, 1, 0, 4), (1, 2, 1, 5)],
        Err(StackFault::SizeDiffers(1)),
    ),
    (
        &[(1, 1, 0, 4), (1, 2, 9, 4)],
        Err(StackFault::ParentDiffers(1)),
    ),
    (
        &[(1, 1, 0, 4), (1, 1, 1, 4)],
        Err(StackFault::UuidTwice(0, 1)),
    ),
    (
        &[(1, 1, 0, 4), (1, 2, 1, 4), (1, 1, 2, 4)],
        Err(StackFault::UuidTwice(0, 2)),
    ),
    (
        &[(1, 1, 0, 4), (1, 2, 1, 4), (1, 2, 2, 4)],
        Err(StackFault::UuidTwice(1, 2)),
    ),
    // Two faults of one layer, and faults of two layers.
    (
        &[(1, 1, 0, 4), (1, 1, 9, 5)],
        Err(StackFault::SizeDiffers(1)),
    ),
    (
        &[(1, 1, 0, 4), (1, 1, 9, 4)],
        Err(StackFault::ParentDiffers(1)),
    ),
    (
        &[(1, 1, 0, 4), (1, 2, 9, 4), (1, 3, 2, 5)],
        Err(StackFault::ParentDiffers(1)),
    ),
    (
        &[(1, 1, 0, 4), (1, 1, 1, 4), (1, 3, 1, 5)],
        Err(StackFault::UuidTwice(0, 1)),
    ),
];

// A layer of version 2 may have more sectors than the one below.
const LARGER: [Case; 4] = [
    (&[(1, 1, 0, 4), (2, 2, 1, 6), (1, 3, 2, 6)], Ok(())),
    (
        &[(1, 1, 0, 4), (1, 2, 1, 6)],
        Err(StackFault::SizeDiffers(1)),
    ),
    (
        &[(1, 1, 0, 4), (2, 2, 1, 6), (1, 3, 2, 4)],
        Err(StackFault::SizeDiffers(2)),
    ),
    (
        &[(1, 1, 0, 4), (2, 2, 1, 3)],
        Err(StackFault::SizeDiffers(1)),
    ),
];

fn is_answered(alloc: Global, case: &Case) -> Result<bool, Fail> {
    let (layers, answer) = case;
    let heads = heads_of(alloc, layers)?;
    if heads.len() > 1_000 {
        return Err(Fail::from("too many layers"));
    }
    Ok(check(&heads) == *answer)
}

#[test]
fn the_first_fault_is_answered(rt: HostRuntime) -> Result<(), Fail> {
    for (number, case) in SAME_SIZE.iter().enumerate() {
        holds_at(&rt, is_answered(rt.alloc(), case)?, "layers", number);
    }
    for (number, case) in LARGER.iter().enumerate() {
        holds_at(&rt, is_answered(rt.alloc(), case)?, "larger ones", number);
    }
    Ok(())
}

// So many layers, each over the one before it, and behind the first 255 one of another size.
fn tall(alloc: Global, count: u8) -> Result<Vec<Head>, AllocError> {
    let mut heads = Vec::new(alloc);
    for number in 0..count {
        heads.push(head_of(&(1, number.wrapping_add(1), number, 4)))?;
    }
    Ok(heads)
}

#[test]
fn a_stack_has_at_most_255_layers(rt: HostRuntime) -> Result<(), Fail> {
    let mut heads = tall(rt.alloc(), 255)?;
    let all = heads.len() == 255 && check(&heads).is_ok();
    heads.push(head_of(&(1, 9, 255, 5)))?;
    let more = heads.len() == 256 && check(&heads) == Err(StackFault::TooMany(256));
    holds_at(&rt, all, "layers", 255);
    holds_at(&rt, more, "layers", 256);
    Ok(())
}
