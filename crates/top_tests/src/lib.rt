//! Tests of the writable top.
#![tactic(auto)]

#[cfg(test)]
mod expecting;
#[cfg(test)]
mod load_tests;
#[cfg(test)]
mod top_writer_tests;
