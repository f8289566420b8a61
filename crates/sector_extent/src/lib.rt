//! Extents of sectors, and the small types that every crate above shares: lists that contracts see
//! as lists, the error for want of memory, and counts of faults and of steps that only contracts see.
#![tactic(auto)]

mod call_plan;
mod extent;
mod fault_count;
mod found;
mod lists;
mod memory;
mod rows;
mod steps;

pub use call_plan::CallPlan;
pub use extent::Extent;
pub use fault_count::FaultCount;
pub use found::Found;
pub use lists::{Bytes, CallList, FileTexts, GapList, ListOf};
pub use memory::Memory;
pub use rows::{ROW_SECTORS, rows_needed};
pub use steps::Steps;

/// Bytes of a sector.
pub const SECTOR: usize = 512;
