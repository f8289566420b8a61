//! Fields of a block at fixed places: a reader that takes them from the front of given bytes, and a
//! writer that puts them into a block of a fixed size. Neither takes memory.
#![tactic(auto)]

mod reader;
mod writer;

pub use reader::FieldReader;
pub use writer::FieldWriter;
