//! Makes an image by acts that are drawn from a seed, the same at each run.
#![tactic(auto)]

mod acting;
mod draws;
mod making;
mod no_layers;
mod reports;
mod sums;
mod tally;

pub use making::make_drawn;
pub use tally::example_laws;
