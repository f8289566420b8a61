//! The commands over layers: they write the flat image of one layer that is read from a source, or of
//! a stack of layers, and print what layers say of themselves. What a refused command prints.
#![tactic(auto)]

mod commands;
mod flattening;
mod line;
mod one_layer;
mod reading;
mod refusal;
mod reports;
mod running;
mod runs;
mod stacks;
mod texts;

pub use commands::{flatten_shelf, print_head, print_stack, stack_sectors, write_text};
pub use flattening::write_flat;
pub use line::{Line, push_named, push_number, push_numbered, push_pair, push_parted};
pub use one_layer::flatten_source;
pub use reading::{MOST_LAYER, read_input};
pub use refusal::Refusal;
pub use reports::{info_report, stack_report};
pub use running::run_layers;
pub use stacks::{read_layers, read_one, read_stack};
pub use texts::{push_head, push_layer, push_refusal, push_stack};
