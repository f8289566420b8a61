//! Tests of the crates of the rows base, outside and formats that are small, and of `layer_stack`.
#![tactic(auto)]

#[cfg(test)]
mod byte_fields_tests;
#[cfg(test)]
mod byte_ports_tests;
#[cfg(test)]
mod expecting;
#[cfg(test)]
mod layer_shelf_tests;
#[cfg(test)]
mod layer_stack_tests;
#[cfg(test)]
mod lsmt_header_tests;
#[cfg(test)]
mod nbd_wire_tests;
#[cfg(test)]
mod sector_extent_tests;
#[cfg(test)]
mod seg_mapping_tests;
