//! The port over a shared image: its reads plan under the lock, and read the layers outside of it.
#![tactic(auto)]

mod headline;
mod layers;
mod reader;

pub use headline::headline_law;
pub use reader::Reader;
