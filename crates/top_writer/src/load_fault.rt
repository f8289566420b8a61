//! How a failure within a load becomes the answer.
ghost use Rattle.std.specs.Prelude.{◌≡◌};
ghost use Rattle.top_writer.specs.declared.fault.TopFault.TheVariants.{Memory, Failed, NoTop};

use crate::fault::{TopFault, TopReason};
use block_disk::DiskFailed;
use std::alloc::AllocError;

impl From<sector_extent::Memory> for TopFault {
    ghost from_gives = { λ _ fault. fault ≡ Memory };

    fn from(_memory: sector_extent::Memory) -> TopFault {
        TopFault::Memory
    }
}

impl From<AllocError> for TopFault {
    ghost from_gives = { λ _ fault. fault ≡ Memory };

    fn from(_error: AllocError) -> TopFault {
        TopFault::Memory
    }
}

impl From<DiskFailed> for TopFault {
    ghost from_gives = { λ _ fault. fault ≡ Failed };

    fn from(_failed: DiskFailed) -> TopFault {
        TopFault::Failed
    }
}

impl From<TopReason> for TopFault {
    ghost from_gives = { λ reason fault. fault ≡ NoTop reason };

    fn from(reason: TopReason) -> TopFault {
        TopFault::NoTop(reason)
    }
}
