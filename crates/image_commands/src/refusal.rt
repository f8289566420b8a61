//! Why a command on an image is refused.
ghost use Rattle.std.specs.Prelude.{◌≡◌};
ghost use Rattle.image_commands.specs.ImageTexts.{image_code, load_cause};
ghost use Rattle.image_commands.specs.ImageSteps.{told_as};

use image_core::LoadFault;
use layer_commands::Refusal;

/// Why a command on an image is refused.
#[derive(Clone, Copy, Debug, PartialEq, Eq)]
pub enum ImageRefusal {
    /// The disk holds no image over the lower layers. Its own fault and want of memory are told apart.
    Load(LoadFault),
    /// Another cause.
    Other(Refusal),
}

impl ImageRefusal {
    /// The status of the program.
    pub fn code(&self) -> u8
        ensures { result ≡ image_code self.now }
    {
        match self {
            ImageRefusal::Load(_) => 3,
            ImageRefusal::Other(refusal) => refusal.code(),
        }
    }
}

/// What a fault of loading an image is refused as.
pub fn load_refusal(fault: LoadFault) -> ImageRefusal
    ensures { result ≡ load_cause fault }
{
    match fault {
        LoadFault::Memory => ImageRefusal::Other(Refusal::Memory),
        LoadFault::Failed => ImageRefusal::Other(Refusal::DiskFault),
        LoadFault::NoImage
        | LoadFault::ManifestWorn(_)
        | LoadFault::ManifestBad
        | LoadFault::SizeDiffers
        | LoadFault::Sealed { .. }
        | LoadFault::Stack(_)
        | LoadFault::NoTop { .. } => ImageRefusal::Load(fault),
    }
}

/// The answer of a call on an image, as that of the command.
pub fn as_command(answer: Result<(), Refusal>) -> Result<(), ImageRefusal>
    ensures { result ≡ told_as answer }
{
    match answer {
        Ok(()) => Ok(()),
        Err(refusal) => Err(ImageRefusal::Other(refusal)),
    }
}
