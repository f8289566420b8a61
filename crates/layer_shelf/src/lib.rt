//! Where the lower layer files stand: a shelf of numbered files that never change, in memory for tests
//! and over real files.
#![tactic(auto)]

mod held;
mod in_folder;
mod in_memory;
mod shelves;

pub use held::{Gate, HeldShelf};
pub use in_folder::{FolderShelf, PathList, PathText};
pub use in_memory::MemShelf;
pub use shelves::{Shelf, ShelfFailed};
