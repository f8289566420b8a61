//! Bytes of files that a server gives by HTTP range requests: the text of a request, what a reply to it
//! must be, and a fetcher that asks over a link.
#![tactic(auto)]

mod asking;
mod bodies;
mod fetcher;
mod fields;
mod heads;
mod in_memory;
mod laws;
mod links;
mod reason;
mod receiving;
mod request;
mod sending;
mod target;
mod tcp;
mod values;

pub use fetcher::Fetcher;
pub use in_memory::MemLink;
pub use laws::{range_reply_law, reply_law};
pub use links::{Link, LinkFailed};
pub use reason::{FetchFault, ReplyReason};
pub use request::ask_bytes;
pub use target::{HostText, PathText, Target};
pub use tcp::{TcpLink, host_address, names_port};
