//! A cache of blocks of files, alone and shared between threads. The list of keys that it has is a
//! function of its history, and where the files are told, each block that it has is its file's.
#![tactic(auto)]

mod cache;
mod examples;
mod history;
mod key;
mod shared;

pub use cache::Cache;
pub use examples::{last_used_first_law, two_in_turn_law};
pub use history::{CacheAct, CacheBase};
pub use key::{BLOCK, Key};
pub use shared::{CacheSeat, PutFault, SharedCache};
