use crate::stands::Named;
use sector_extent::Bytes;
use std::marker::Brand;

/// What one entry of a history did to an image. Places and counts are in sectors, and the bytes of
/// a write are whole sectors.
#[derive(Debug, Drop)]
pub enum Act {
    Read(u64, u64),
    Write(u64, Bytes),
    Zero(u64, u64),
    Flush,
    /// The top is frozen, to become a layer with this uuid, and an empty top begins.
    Freeze([u8; 16]),
    /// The layer with this uuid is done.
    Seal([u8; 16]),
    /// The image has this many sectors from here on, more than before.
    Grow(u64),
    /// A step failed.
    Fault(Asked),
}

/// What a failed step was asked for: the uuid where it was a freeze or a seal, the sectors where it
/// was a grow, else nothing.
#[derive(Clone, Copy, Debug, PartialEq, Eq)]
pub enum Asked {
    Nothing,
    Uuid([u8; 16]),
    Sectors(u64),
}

// the act of a call that passes `Brand` is the one that the caller's proof picks
impl Named<Act> for Brand {
    ghost use Rattle.flat_image.specs.declared.act.Act.TheVariants.{Flush};

    ghost it = { Flush };
}
