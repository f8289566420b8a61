//! What an image has in memory.
use crate::snapshot::Snapshot;
use gate_mark::Mark;
use layer_commit::Sealing;
use sealed_layer::Layer;
use sector_extent::ListOf;
use std::sync::Arc;
use top_writer::Top;

/// Layers in memory, the lowest first.
pub type LayerList = ListOf<Layer>;

// A commit in progress: the top that was frozen, the file that it becomes, and the snapshot that its
// seal puts in.
#[derive(Drop)]
pub struct Commit {
    pub(crate) uuid: [u8; 16],
    pub(crate) top: Top,
    pub(crate) sealing: Sealing,
    pub(crate) snapshot: Arc<Snapshot>,
}

// What stands under the top of an image.
#[derive(Drop)]
pub struct Stack {
    pub(crate) lowers: LayerList,
    // while a commit is in progress there is room for one more
    pub(crate) committed: Vec<Layer>,
    pub(crate) snapshot: Arc<Snapshot>,
    pub(crate) commit: Option<Commit>,
    // the top of the next epoch, where a freeze that failed has made its files
    pub(crate) next: Option<Top>,
}

// What an image has in memory.
#[derive(Drop)]
pub struct Parts {
    pub(crate) manifest: Mark,
    pub(crate) stack: Stack,
    pub(crate) top: Top,
    // the entries of its history
    pub(crate) steps: u64,
}
