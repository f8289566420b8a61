/// How the export of an image ended.
#[derive(Clone, Copy, Debug, PartialEq, Eq)]
pub enum ExportEnd {
    /// All lanes were served, and the last flush was made.
    Flushed,
    /// The listener of a lane failed. The last flush was asked for all the same.
    ListenerFailed,
    /// The disk failed at the last flush.
    FlushFailed,
    /// There was no entry left for the last flush.
    Worn,
    /// There was no memory to begin with. Nothing was served.
    Memory,
}
