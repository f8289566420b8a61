//! Why a command is refused, and its status.
ghost use Rattle.std.specs.Prelude.{◌≡◌};
ghost use Rattle.layer_commands.specs.Texts.{code_of};

use layer_stack::StackFault;
use sealed_layer::LayerFault;
use std::alloc::{AllocError, AllocFailed};

/// Why a command is refused, but for what a disk holds.
#[derive(Clone, Copy, Debug, PartialEq, Eq)]
pub enum Refusal {
    /// The words are no command.
    Usage,
    /// The source failed.
    SourceFault,
    /// The sink failed.
    SinkFault,
    /// The shelf failed.
    ShelfFault,
    /// The disk failed.
    DiskFault,
    /// Memory was wanting.
    Memory,
    /// The source has more bytes than the command takes.
    TooLong,
    /// The source's bytes are no whole sectors.
    NotWholeSectors,
    /// The shelf has no layer of the number.
    NoLayer,
    /// The file of that number is no layer.
    Layer(u32, LayerFault),
    /// The layers are no stack.
    Stack(StackFault),
    /// No lower layer says how many sectors the image is to have, and no word does.
    NoSize,
    /// The lower layers have other sectors than the image is to have.
    OtherSize,
    /// The disk holds an image.
    ImageExists,
    /// The part exceeds the image.
    OutOfRange,
    /// The top has so many rows and sectors of data, and no room for more.
    Full { rows: u64, sectors: u64 },
    /// The commit of this uuid is in progress.
    Busy([u8; 16]),
    /// The image has so many sectors, and no more were asked for.
    NotLarger(u64),
    /// The image has 255 layers.
    TooManyLayers,
    /// A layer of the image has the uuid.
    UuidTwice,
}

impl From<AllocError> for Refusal {
    ghost use Rattle.layer_commands.specs.declared.refusal.Refusal.TheVariants.{Memory};

    ghost from_gives = { λ _ refusal. refusal ≡ Memory };

    fn from(_error: AllocError) -> Refusal {
        Refusal::Memory
    }
}

impl<T: Drop> From<AllocFailed<T>> for Refusal {
    ghost use Rattle.layer_commands.specs.declared.refusal.Refusal.TheVariants.{Memory};

    ghost from_gives = { λ _ refusal. refusal ≡ Memory };

    fn from(_error: AllocFailed<T>) -> Refusal {
        Refusal::Memory
    }
}

impl Refusal {
    /// The status of the program.
    pub fn code(&self) -> u8
        ensures { result ≡ code_of self.now }
    {
        match self {
            Refusal::Usage => 2,
            Refusal::Layer(_, _) | Refusal::Stack(_) => 3,
            Refusal::SourceFault | Refusal::SinkFault | Refusal::ShelfFault | Refusal::DiskFault =>
                4,
            Refusal::Memory => 5,
            Refusal::TooLong
            | Refusal::NoLayer
            | Refusal::NoSize
            | Refusal::OtherSize
            | Refusal::ImageExists
            | Refusal::NotWholeSectors
            | Refusal::OutOfRange
            | Refusal::Full { .. }
            | Refusal::Busy(_)
            | Refusal::NotLarger(_)
            | Refusal::TooManyLayers
            | Refusal::UuidTwice => 6,
        }
    }
}
