//! The call behind every command but `export`: it does what the words ask for, and tells of a refusal.
#![tactic(auto)]

mod tool;

pub use tool::{Status, refuse, run_tool};
