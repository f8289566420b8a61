//! What an export is handed, and hands back.
ghost use Rattle.std.specs.Prelude.{◌≤◌, length};

use sector_extent::ListOf;

/// Lanes: the shelf and the listener of each.
pub type LaneList<S, L> = ListOf<(S, L)>;

/// How many blocks of lower layers the cache of an export may have.
#[derive(Clone, Copy, Debug, PartialEq, Eq)]
pub struct Settings {
    pub cache_blocks: u32,
    pub ghost blocks: { (1 ≤ cache_blocks) × (cache_blocks ≤ 16384) },
}

/// What the control of an export has: a shelf, and the stream of its lines.
#[derive(Drop)]
pub struct Control<S, A, B> {
    pub shelf: S,
    pub source: A,
    pub sink: B,
}

/// The parts of an export: a disk, a shelf and a listener for each lane, and the control's own shelf and
/// stream.
#[derive(Drop)]
pub struct Parts<D, S, L, A, B> {
    pub disk: D,
    pub lanes: LaneList<S, L>,
    pub control_shelf: S,
    pub control_source: A,
    pub control_sink: B,
    pub ghost some: { 1 ≤ length lanes },
    pub ghost few: { length lanes ≤ 16 },
}
