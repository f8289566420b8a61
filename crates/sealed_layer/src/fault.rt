ghost use Rattle.std.specs.Prelude.{◌≡◌};
ghost use Rattle.sealed_layer.specs.declared.fault.LayerFault.TheVariants.{Failed, Memory};

use layer_shelf::ShelfFailed;
use lsmt_header::HeadFault;
use seg_mapping::RowFault;
use std::alloc::AllocError;

/// Why a file is not read as a sealed layer: the first of these that holds, in this order, and of the
/// rows' faults the first row's.
#[derive(Clone, Copy, Debug, PartialEq, Eq)]
pub enum LayerFault {
    /// The shelf failed.
    Failed,
    /// The file has fewer than 8,192 bytes.
    Short,
    /// The first 4,096 bytes are not the block of a sealed layer's head.
    Head(HeadFault),
    /// The last 4,096 bytes are not the first ones with the byte at 12 made 6.
    TrailerDiffers,
    /// The head says so many rows, which are over 2^24.
    TooManyRows(u64),
    /// The index begins before byte 4,096 or within a sector, or with its padding and a trailer it
    /// does not end with the file.
    BadIndexPlace,
    /// The sixteen bytes of that number are no row.
    Row { number: u64, fault: RowFault },
    /// The row of that number begins before the end of the row before it.
    RowOrder(u64),
    /// It ends past the image.
    RowRange(u64),
    /// It is not zeroed, and its sectors do not lie between the header and the index.
    RowPlace(u64),
    /// There was no memory for the rows.
    Memory,
}

impl From<ShelfFailed> for LayerFault {
    ghost from_gives = { λ _ fault. fault ≡ Failed };

    fn from(_failed: ShelfFailed) -> LayerFault {
        LayerFault::Failed
    }
}

impl From<AllocError> for LayerFault {
    ghost from_gives = { λ _ fault. fault ≡ Memory };

    fn from(_error: AllocError) -> LayerFault {
        LayerFault::Memory
    }
}
