//! Tests of the sealed layers: of one, of the index of many, and of the sealing of a new one.
#![tactic(auto)]

#[cfg(test)]
mod expecting;
#[cfg(test)]
mod layer_commit_tests;
#[cfg(test)]
mod merged_index_tests;
#[cfg(test)]
mod plain;
#[cfg(test)]
mod sealed_layer_tests;
