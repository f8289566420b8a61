//! Tests of the commands by their words: what each prints, refuses and leaves on a disk.
#![tactic(auto)]

#[cfg(test)]
mod image_tests;
#[cfg(test)]
mod layers;
#[cfg(test)]
mod refusal_tests;
#[cfg(test)]
mod runs;
#[cfg(test)]
mod tool_tests;
