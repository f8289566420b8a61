//! The export of an image: lanes and a control in threads, each with a shelf and a seat of its own, over one
//! image and one cache.
#![tactic(auto)]

mod cached_lanes;
mod caching;
mod export_end;
mod exporting;
mod harbour;
mod kept_shelf;
mod lanes;
mod laws;
mod opening;
mod parts;
mod parts_harbour;

pub use export_end::ExportEnd;
pub use exporting::{Status, run_export};
pub use harbour::Harbour;
pub use lanes::export_image;
pub use laws::lane_law;
pub use parts::{Control, LaneList, Parts, Settings};
pub use parts_harbour::PartsHarbour;
