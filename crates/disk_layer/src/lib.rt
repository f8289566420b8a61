//! A sealed layer that is read from a file of a disk.
#![tactic(auto)]

mod file_shelf;
mod reading;

pub use reading::read_layer_file;
