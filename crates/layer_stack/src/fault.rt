/// Why layers form no stack. Layers are numbered from 0, the lowest.
#[derive(Clone, Copy, Debug, PartialEq, Eq)]
pub enum StackFault {
    /// There is no layer.
    Empty,
    /// There are more than 255 layers; their number.
    TooMany(u32),
    /// The layer of that number has other sectors than the one below, or, with version 2, fewer.
    SizeDiffers(u32),
    /// The parent of the layer of that number is not the uuid of the one below. The lowest one's is nil.
    ParentDiffers(u32),
    /// The second layer has the uuid of the first, which lies below it.
    UuidTwice(u32, u32),
}
