//! Where bytes come from and where they go: a source and a sink, each with a count of faults, in
//! memory for tests and over any reader and writer of std.
#![tactic(auto)]

mod in_memory;
mod over_std;
mod ports;
mod reading;

pub use in_memory::{MemSink, MemSource};
pub use over_std::{StdSink, StdSource};
pub use ports::{PortFailed, Sink, Source};
pub use reading::read_full;
