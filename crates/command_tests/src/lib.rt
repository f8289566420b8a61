//! Tests of the words and the configuration, and of the commands over layers.
#![tactic(auto)]

#[cfg(test)]
mod expecting;
#[cfg(test)]
mod layer_commands_tests;
#[cfg(test)]
mod tool_setup_tests;
