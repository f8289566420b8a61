//! Whether layers form a stack: each layer names the one below it, none is smaller than the one below, and no uuid
//! stands twice.
#![tactic(auto)]

mod checking;
mod fault;

pub use checking::check;
pub use fault::StackFault;
