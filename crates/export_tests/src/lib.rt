//! Tests of the export over parts in memory: what it answers, what its clients are sent, and who waits
//! for whom.
#![tactic(auto)]

#[cfg(test)]
mod clients;
#[cfg(test)]
mod control_tests;
#[cfg(test)]
mod expecting;
#[cfg(test)]
mod harbours;
#[cfg(test)]
mod images;
#[cfg(test)]
mod lane_tests;
#[cfg(test)]
mod range_read_tests;
#[cfg(test)]
mod scenes;
#[cfg(test)]
mod signals;
#[cfg(test)]
mod status_tests;
