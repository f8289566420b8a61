//! Shelves over what is far or slow: layer files that are fetched from a server by range requests, and
//! a shelf whose blocks are kept in a cache that threads share.
#![tactic(auto)]

mod by_ranges;
mod cached_shelf;

pub use by_ranges::{RangeShelf, TargetList};
pub use cached_shelf::CachedShelf;
