//! Worked examples of the definitions of images, and tests of the plain port.
#![tactic(auto)]

#[cfg(test)]
mod flat_image_examples;
#[cfg(test)]
mod flat_image_tests;
