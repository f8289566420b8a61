//! Tests of the image behind its lock, and of the port that reads through it.
#![tactic(auto)]

#[cfg(test)]
mod image_read_tests;
#[cfg(test)]
mod images;
#[cfg(test)]
mod shared_image_tests;
#[cfg(test)]
mod speed_tests;
