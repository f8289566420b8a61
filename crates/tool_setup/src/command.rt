//! What words ask for, and why they are refused.
use std::alloc::{AllocError, AllocFailed};
use thiserror::Error;

/// What the words ask for. Sectors, places and counts are in sectors.
#[derive(Clone, Copy, Debug, PartialEq, Eq)]
pub enum Command {
    /// Writes the flat image of the shelf's layers, or of one layer that is read from the source.
    Flatten { stdin: bool },
    /// Prints the head of the layer of that number.
    Info(u64),
    /// Prints a line for each layer of the stack.
    Stack,
    /// Makes an image over the shelf's layers, of so many sectors or of theirs.
    Create(Option<u64>),
    /// Makes the image larger, so that it has so many sectors.
    Grow(u64),
    /// Writes so many sectors of the image from that one on.
    Read { at: u64, count: u64 },
    /// Puts the bytes of the source into the image from that sector on.
    Write { at: u64 },
    /// Makes so many sectors of the image zeros from that one on.
    Zero { at: u64, count: u64 },
    /// Seals the top as a layer of that uuid.
    Commit([u8; 16]),
    /// Cuts the files of the epochs that were committed.
    Sweep,
    /// Makes an image by so many acts that are drawn from a seed.
    Make { seed: u64, acts: u64 },
    /// Serves the image, so many connections a lane.
    Export { connections: u64 },
}

/// An argument of a command.
#[derive(Clone, Copy, Debug, PartialEq, Eq)]
pub enum Arg {
    Layer,
    Sectors,
    At,
    Count,
    Uuid,
    Seed,
    Acts,
    Connections,
}

/// Why words are no command.
#[derive(Clone, Copy, Debug, PartialEq, Eq, Error)]
pub enum WordsFault {
    #[error("there are no words")]
    NoCommand,
    #[error("the first word is no command")]
    UnknownCommand,
    #[error("the words are not those of the command")]
    BadWords,
    #[error("the value of {0:?} is not of its form")]
    BadValue(Arg),
    #[error("out of memory")]
    Memory,
}

impl From<AllocError> for WordsFault {
    ghost use Rattle.std.specs.Prelude.{◌≡◌};
    ghost use Rattle.tool_setup.specs.declared.command.WordsFault.TheVariants.{Memory};

    ghost from_gives = { λ _ fault. fault ≡ Memory };

    fn from(_error: AllocError) -> WordsFault {
        WordsFault::Memory
    }
}

impl<T: Drop> From<AllocFailed<T>> for WordsFault {
    ghost use Rattle.std.specs.Prelude.{◌≡◌};
    ghost use Rattle.tool_setup.specs.declared.command.WordsFault.TheVariants.{Memory};

    ghost from_gives = { λ _ fault. fault ≡ Memory };

    fn from(_error: AllocFailed<T>) -> WordsFault {
        WordsFault::Memory
    }
}
