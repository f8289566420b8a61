//! The words of the command line and the command that they ask for, and the configuration of an image.
#![tactic(auto)]

mod arguments;
mod command;
mod config;
mod configuration;
mod fields;
mod lowers;
mod parsing;
mod values;
mod verb;
mod words;

pub use command::{Arg, Command, WordsFault};
pub use config::{Config, ConfigFault, Field, Lowers, TextList};
pub use configuration::read_config;
pub use words::{WordList, read_words};
