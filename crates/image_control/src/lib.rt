//! The control's port to a shared image: commits beside readers and writers, warming of lower layers, and how
//! the image stands.
#![tactic(auto)]

mod committing;
mod port;
mod warming;

pub use port::ControlSeat;
