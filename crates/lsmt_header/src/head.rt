ghost use Rattle.std.specs.Prelude.{◌≡◌, ◌↔◌, ◌≤◌, ◌^◌, IsTrue};

use crate::tag::Tag;

/// Which block it is: of a sealed layer the one at its front or the one at its end, of a top the one
/// of its data or the one of its rows.
#[derive(Clone, Copy, Debug, PartialEq, Eq)]
pub enum Kind {
    SealedHead,
    SealedEnd,
    TopBytes,
    TopRows,
}

/// What a block says.
#[derive(Clone, Copy, Debug, PartialEq, Eq)]
pub struct Head {
    /// The version of the format: 1, or 2 in a sealed layer that may have more sectors than the layer
    /// below.
    pub version: u32,
    pub kind: Kind,
    /// Where the rows begin, in bytes from the front of the file.
    pub index_at: u64,
    /// How many rows there are.
    pub rows: u64,
    /// The size of the image in sectors, 1 to 2^31.
    pub sectors: u64,
    /// The layer's own uuid. A sealed layer has one.
    pub uuid: [u8; 16],
    /// The uuid of the layer below, all zero where there is none.
    pub parent: [u8; 16],
    pub tag: Tag,
}

/// Why a block is not the block of a head, as the first of these that holds.
#[derive(Clone, Copy, Debug, PartialEq, Eq)]
pub enum HeadFault {
    /// It does not begin with the magic.
    BadMagic,
    /// It has this version, which is neither 1 nor 2, or is 2 and the layer is a top.
    BadVersion(u32),
    /// Its flags say that the layer is compressed.
    Compressed,
    /// It has these flags, which are not those of the kind.
    BadFlags(u32),
    /// It says this many sectors: none, or over 2^31.
    BadSize(u64),
    /// It has no uuid, and the layer is sealed.
    NilUuid,
    /// Its tag is not text without a zero byte and then zeros.
    BadTag,
    /// At this place, in bytes from the front of the block, stands the first byte behind the tag that
    /// is not zero.
    Unclean(u32),
}

impl Kind {
    ghost use Rattle.lsmt_header.specs.Blocks.{flags_of, IsSealed, IsVersion, nil};

    /// The flags of the block.
    pub fn flags(self) -> u32
        ensures { result ≡ flags_of self }
    {
        match self {
            Kind::SealedHead => 7,
            Kind::SealedEnd => 6,
            Kind::TopBytes => 5,
            Kind::TopRows => 1,
        }
    }

    /// The file is a sealed layer.
    pub fn is_sealed(self) -> bool
        ensures { IsTrue result ↔ IsSealed self }
    {
        match self {
            Kind::SealedHead | Kind::SealedEnd => true,
            Kind::TopBytes | Kind::TopRows => false,
        }
    }

    // A block of this kind may have this version.
    pub(crate) fn has_version(self, version: u32) -> bool
        ensures { IsTrue result ↔ IsVersion self version }
    {
        version == 1 || version == 2 && self.is_sealed()
    }

    // A head of this kind has a uuid of its own, and this is none.
    pub(crate) fn lacks(self, uuid: &[u8; 16]) -> bool
        ensures { IsTrue result ↔ (IsSealed self × (uuid.now ≡ nil)) }
    {
        self.is_sealed() && *uuid == [0; 16]
    }
}

// An image may have this many sectors.
pub(crate) fn is_size(sectors: u64) -> bool
    ensures { IsTrue result ↔ ((1 ≤ sectors) × (sectors ≤ 2 ^ 31)) }
{
    0 < sectors && sectors <= 1 << 31
}

impl Head {
    ghost use Rattle.lsmt_header.specs.Blocks.{IsValid};

    /// It is what a head has to be, so that it has a block.
    pub fn is_valid(&self) -> bool
        ensures { IsTrue result ↔ IsValid self.now }
    {
        self.kind.has_version(self.version) && is_size(self.sectors) && !self.kind.lacks(&self.uuid)
    }
}
