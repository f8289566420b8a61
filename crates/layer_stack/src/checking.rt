//! Looks at the heads of layers one after another, the lowest first.
ghost use Rattle.std.specs.Prelude.{◌≡◌, ◌^◌, ◌<◌, ◌≤◌, ◌↔◌, length, IsOk, IsTrue, IfErr, IfNone, IfSome, OnOk};
ghost use Rattle.flat_image.specs.Stacks.{Legal, StandsOn};
ghost use Rattle.lsmt_header.specs.Blocks.{nil};
ghost use Rattle.layer_stack.specs.Faults.{HasOwnUuid, IsFaultOver, IsFreeOver, IsStackFault, SharesUuid, top_sectors, top_uuid};

use crate::fault::StackFault;
use lsmt_header::Head;

/// Layers of a stack.
const MOST_LAYERS: usize = 255;

/// The parent of the lowest layer.
const NIL_UUID: [u8; 16] = [0; 16];

/// Whether the layers with these heads, the lowest first, form a stack. Takes no memory.
pub fn check(heads: &[Head]) -> Result<(), StackFault>
    requires { length heads.now < 2 ^ 32 }
    ensures legal { IsOk result ↔ Legal heads.now }
    ensures fault { IfErr result (IsStackFault heads.now) }
{
    if heads.is_empty() {
        return Err(StackFault::Empty);
    }
    if heads.len() > MOST_LAYERS {
        return Err(StackFault::TooMany(heads.len() as u32));
    }
    let mut parent = NIL_UUID;
    let mut lower = 0;
    for (number, head) in heads.iter().enumerate() {
        check_over(&heads[..number], &parent, lower, head)?;
        parent = head.uuid;
        lower = head.sectors;
    }
    Ok(())
}

/// The first fault of a head over the heads below it. `parent` is the uuid of the uppermost of these,
/// and `lower` its sectors.
fn check_over(below: &[Head], parent: &[u8; 16], lower: u64, head: &Head) -> Result<(), StackFault>
    requires few { length below.now ≤ 255 }
    requires parent { parent.now ≡ top_uuid nil below.now }
    requires lower { lower ≡ top_sectors 0 below.now }
    ensures free { OnOk result (IsFreeOver below.now head.now) }
    ensures fault { IfErr result (IsFaultOver below.now head.now) }
{
    let number = below.len() as u32;
    if !below.is_empty() && !stands_on(lower, head) {
        return Err(StackFault::SizeDiffers(number));
    }
    if head.parent != *parent {
        return Err(StackFault::ParentDiffers(number));
    }
    match number_with_uuid(below, head) {
        Some(first) => Err(StackFault::UuidTwice(first, number)),
        None => Ok(()),
    }
}

/// Whether the layer with this head may stand over one of so many sectors.
fn stands_on(lower: u64, head: &Head) -> bool
    ensures { IsTrue result ↔ StandsOn lower head.now }
{
    match head.version {
        1 => head.sectors == lower,
        2 => head.sectors >= lower,
        _ => true,
    }
}

/// The number of a head below that has the uuid of this one.
fn number_with_uuid(below: &[Head], head: &Head) -> Option<u32>
    requires { length below.now ≤ 255 }
    ensures found { IfSome result (λ number. SharesUuid below.now number head.now) }
    ensures none { IfNone result (HasOwnUuid below.now head.now) }
{
    for (number, other) in below.iter().enumerate() {
        if other.uuid == head.uuid {
            return Some(number as u32);
        }
    }
    None
}
