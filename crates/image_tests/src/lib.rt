//! Tests of the image over layers and a top.
#![tactic(auto)]

#[cfg(test)]
mod beginning_tests;
#[cfg(test)]
mod disks;
#[cfg(test)]
mod example_tests;
#[cfg(test)]
mod expecting;
#[cfg(test)]
mod fault_tests;
#[cfg(test)]
mod layers;
#[cfg(test)]
mod lower_tests;
#[cfg(test)]
mod old_tests;
#[cfg(test)]
mod scenes;
#[cfg(test)]
mod steps;
