//! What a control port answers.
/// The answer to a commit.
#[derive(Clone, Copy, Debug, PartialEq, Eq)]
pub enum CommitAnswer {
    /// The layer with this uuid is sealed.
    Done,
    /// Another commit is in progress.
    Busy([u8; 16]),
    /// The image has as many layers as it may have.
    TooMany,
    /// A layer has this uuid already.
    UuidTwice,
    /// The disk failed. The commit may be in progress, and can be asked for again.
    Failed,
    /// The history has as many entries as it may have.
    Worn,
    /// There was no memory. Nothing was changed.
    Memory,
}

/// The answer to the warming of a lower layer.
#[derive(Clone, Copy, Debug, PartialEq, Eq)]
pub enum WarmAnswer {
    /// So many blocks of 65,536 bytes were looked up, which are all of the layer's file.
    Done(u64),
    /// There is no such lower layer.
    NoLayer,
    /// The shelf failed.
    Failed,
}

/// The answer to the question how an image stands.
#[derive(Clone, Copy, Debug, PartialEq, Eq)]
pub enum StatusAnswer {
    /// Sectors, the number of lower and committed layers, the number of entries of the history,
    /// and the uuid of the commit in progress.
    Now {
        sectors: u64,
        layers: u32,
        entries: u64,
        pending: Option<[u8; 16]>,
    },
    /// The history has as many entries as it may have.
    Worn,
}
