//! Why a shared image refuses a step of a commit.
/// Why the top was not frozen. Where several causes stand together, the first of them is told.
#[derive(Clone, Copy, Debug, PartialEq, Eq)]
pub enum SharedFreezeFault {
    /// The history has as many entries as it may have.
    Worn,
    /// The commit with this uuid is in progress.
    Busy([u8; 16]),
    /// The image has as many layers as it may have.
    TooMany,
    /// A layer has this uuid already.
    UuidTwice,
    /// There was no memory.
    Memory,
    /// The disk failed.
    Failed,
}

/// Why nothing more of a commit was copied. The first cause that holds is told.
#[derive(Clone, Copy, Debug, PartialEq, Eq)]
pub enum SharedCopyFault {
    /// The history has as many entries as it may have.
    Worn,
    /// Another commit is in progress, with this uuid, or none is.
    NotPending(Option<[u8; 16]>),
    /// The disk failed.
    Failed,
}

/// Why a commit was not sealed. The first cause that holds is told.
#[derive(Clone, Copy, Debug, PartialEq, Eq)]
pub enum SharedSealFault {
    /// The history has as many entries as it may have.
    Worn,
    /// Another commit is in progress, with this uuid, or none is.
    NotPending(Option<[u8; 16]>),
    /// So many pieces of the file are written, which are not all.
    NotWhole { done: u64, total: u64 },
    /// The disk failed.
    Failed,
}
