//! Heads of layer files and of a top's files. A head stands in a block of 4,096 bytes at the front of
//! a file, and a sealed layer has it again at its end.
#![tactic(auto)]

mod block;
mod fields;
mod head;
mod tag;
mod zeros;

pub use block::{block_at_the_end, decode_block, encode_block, one_block};
pub use head::{Head, HeadFault, Kind};
pub use tag::Tag;
