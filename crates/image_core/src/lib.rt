//! The image of a stack of layers and a writable top, over a disk: what its files show, and when it
//! stands for a history.
#![tactic(auto)]

mod commit;
mod committing;
mod creating;
mod growing;
mod image;
mod laws;
mod load_layers;
mod load_tops;
mod loading;
mod manifest;
mod parts;
mod snapshot;
mod sources;
mod stack;
mod status;
mod steps;
mod sweeping;
mod upper;
mod whole;

pub use commit::{CopyFault, CopyState, FreezeFault, SealFault};
pub use creating::CreateFault;
pub use growing::GrowFault;
pub use image::Image;
pub use laws::{left_laws, loading_laws, planning_law, reading_laws, showing_laws, standing_laws};
pub use loading::LoadFault;
pub use parts::LayerList;
pub use snapshot::Snapshot;
pub use sources::LayerSource;
pub use status::Status;
pub use steps::{Numbered, Reply, ReplyList, Step, StepList, run_steps};
pub use whole::WholeFault;
