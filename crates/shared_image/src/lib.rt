//! An image that several callers share: each call is one turn of the lock, and notes its step in the
//! one history.
#![tactic(auto)]

mod commits;
mod faults;
mod laws;
mod shared;

pub use faults::{SharedCopyFault, SharedFreezeFault, SharedSealFault};
pub use laws::{acknowledged_law, committed_law, one_thread_law};
pub use shared::{ImageSeat, SharedImage};
