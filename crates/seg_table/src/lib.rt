//! The table of a writable top: which sectors of an image the top has, and where their bytes are.
//! Contracts see a cell for each sector, and a later put hides an earlier one.
#![tactic(auto)]

mod change;
mod joining;
mod leaf;
mod plain;
mod plain_search;
mod search;
mod segment;
mod table;

pub use plain::PlainTable;
pub use segment::{Segment, What};
pub use table::SegTable;
