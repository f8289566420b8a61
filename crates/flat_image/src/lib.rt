//! The model that the crates above share: images, sheets of cells, and painting; the history of acts
//! on an image; and the port by which a connection reads and changes it.
#![tactic(auto)]

mod act;
mod base;
mod image_port;
mod laws;
mod limits;
mod plain_port;
mod port_fault;
mod stands;

pub use act::{Act, Asked};
pub use base::Base;
pub use image_port::ImagePort;
pub use laws::{canonical_laws, history_laws};
pub use limits::{HISTORY_ENTRIES, TOP_ROWS, TOP_SECTORS};
pub use plain_port::PlainPort;
pub use port_fault::PortFault;
pub use stands::{Entry, Named, Stands};
