use std::alloc::AllocError;

/// Why a port of an image refuses a call. Where two causes stand together, `Worn` comes before
/// `Full`, `Full` before `Memory`, and `Memory` before `Failed`.
#[derive(Clone, Copy, Debug, PartialEq, Eq)]
pub enum PortFault {
    /// There was no memory.
    Memory,
    /// The medium failed.
    Failed,
    /// There is no room for the change, with the rows and the sectors that are in use.
    Full { rows: u64, sectors: u64 },
    /// The history has as many entries as it may have.
    Worn,
}

impl From<AllocError> for PortFault {
    ghost use Rattle.std.specs.Prelude.{◌≡◌};
    ghost use Rattle.flat_image.specs.declared.port_fault.PortFault.TheVariants.{Memory};

    ghost from_gives = { λ _ fault. fault ≡ Memory };

    fn from(_error: AllocError) -> PortFault {
        PortFault::Memory
    }
}

impl From<sector_extent::Memory> for PortFault {
    ghost use Rattle.std.specs.Prelude.{◌≡◌};
    ghost use Rattle.flat_image.specs.declared.port_fault.PortFault.TheVariants.{Memory};

    ghost from_gives = { λ _ fault. fault ≡ Memory };

    fn from(_error: sector_extent::Memory) -> PortFault {
        PortFault::Memory
    }
}
