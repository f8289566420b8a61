/// Why an image was not frozen: the first of these that holds, but for the disk's fault and want of
/// memory.
#[derive(Clone, Copy, Debug, PartialEq, Eq)]
pub enum FreezeFault {
    /// The commit of this uuid is in progress.
    Busy([u8; 16]),
    /// It has 255 layers.
    TooMany,
    /// A layer has the uuid.
    UuidTwice,
    /// There was no memory.
    Memory,
    /// The disk failed.
    Failed,
}

/// Whether all of a commit's file is written.
#[derive(Clone, Copy, Debug, PartialEq, Eq)]
pub enum CopyState {
    More,
    Whole,
}

/// Why a commit was not copied on.
#[derive(Clone, Copy, Debug, PartialEq, Eq)]
pub enum CopyFault {
    /// The commit in progress is this one, or none.
    NotPending(Option<[u8; 16]>),
    /// The disk failed.
    Failed,
}

/// Why a commit was not sealed.
#[derive(Clone, Copy, Debug, PartialEq, Eq)]
pub enum SealFault {
    /// The commit in progress is this one, or none.
    NotPending(Option<[u8; 16]>),
    /// So many pieces of its file are written, of so many.
    NotWhole { done: u64, total: u64 },
    /// The disk failed.
    Failed,
}
