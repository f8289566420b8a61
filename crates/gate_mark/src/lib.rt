//! A mark: 48 bytes that are changed at once, whatever a crash does.
#![tactic(auto)]

mod mark;
mod sets;
mod slots;
mod through;

pub use mark::{Mark, MarkFault, Rest, Slot};
