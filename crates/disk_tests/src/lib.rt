//! Tests of the disks in memory and over a folder, and of the mark.
#![tactic(auto)]

#[cfg(test)]
mod block_disk_tests;
#[cfg(test)]
mod expecting;
#[cfg(test)]
mod folder_tests;
#[cfg(test)]
mod gate_mark_tests;
