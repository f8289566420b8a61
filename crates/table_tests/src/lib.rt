//! Tests of the table of a top.
#![tactic(auto)]

#[cfg(test)]
mod leaf_tests;
#[cfg(test)]
mod plain_tests;
#[cfg(test)]
mod seg_table_tests;
#[cfg(test)]
mod speed_tests;
