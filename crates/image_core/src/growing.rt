/// Why an image did not grow: the first of these that holds, but for the disk's fault.
#[derive(Clone, Copy, Debug, PartialEq, Eq)]
pub enum GrowFault {
    /// The commit of this uuid is in progress.
    Busy([u8; 16]),
    /// It has this many sectors, and no more were asked for.
    NotLarger(u64),
    /// The disk failed.
    Failed,
}
