//! What a configuration says of an image, and why a text is refused as one.
use sector_extent::{Bytes, ListOf};
use std::alloc::{AllocError, AllocFailed};
use thiserror::Error;

/// Texts, in order.
pub type TextList = ListOf<Bytes>;

/// Where the lower layers stand, the lowest first.
#[derive(Debug, Drop)]
pub enum Lowers {
    /// In files with these paths.
    Files(TextList),
    /// On a host, at these paths.
    Remote { host: Bytes, paths: TextList },
}

/// An image's disk and lowers, and how it is served.
#[derive(Debug, Drop)]
pub struct Config {
    /// The folder of the image's files.
    pub disk: Bytes,
    pub lowers: Lowers,
    /// The name of the export.
    pub export: Bytes,
    pub read_only: bool,
    /// The blocks of lower layers that are kept in memory.
    pub cache_blocks: u32,
    /// How many lanes serve connections.
    pub lanes: u32,
    /// The address of the server.
    pub listen: Bytes,
    /// The address of the control.
    pub control: Bytes,
}

/// A field of a configuration.
#[derive(Clone, Copy, Debug, PartialEq, Eq)]
pub enum Field {
    Disk,
    Lowers,
    Export,
    ReadOnly,
    CacheBlocks,
    Lanes,
    Listen,
    Control,
}

/// Why a text is no configuration.
#[derive(Clone, Copy, Debug, PartialEq, Eq, Error)]
pub enum ConfigFault {
    #[error("the text is no JSON, or nested too deep")]
    NotJson,
    #[error("the text is no object")]
    NotObject,
    #[error("there is an unknown field")]
    UnknownField,
    #[error("{0:?} is missing")]
    Missing(Field),
    #[error("the value of {0:?} is not of its form")]
    BadField(Field),
    #[error("out of memory")]
    Memory,
}

impl From<AllocError> for ConfigFault {
    ghost use Rattle.std.specs.Prelude.{◌≡◌};
    ghost use Rattle.tool_setup.specs.declared.config.ConfigFault.TheVariants.{Memory};

    ghost from_gives = { λ _ fault. fault ≡ Memory };

    fn from(_error: AllocError) -> ConfigFault {
        ConfigFault::Memory
    }
}

impl<T: Drop> From<AllocFailed<T>> for ConfigFault {
    ghost use Rattle.std.specs.Prelude.{◌≡◌};
    ghost use Rattle.tool_setup.specs.declared.config.ConfigFault.TheVariants.{Memory};

    ghost from_gives = { λ _ fault. fault ≡ Memory };

    fn from(_error: AllocFailed<T>) -> ConfigFault {
        ConfigFault::Memory
    }
}
