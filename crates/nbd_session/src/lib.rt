//! Serves one connection of the NBD protocol over any port of an image.
#![tactic(auto)]

mod buffers;
mod errno;
mod export;
mod handshake;
mod job;
mod laws;
mod one_request;
mod option_answers;
mod port_calls;
mod reading;
mod requests;
mod sending;
mod served;
mod session;

pub use errno::Errno;
pub use export::{Export, NameBytes};
pub use job::Job;
pub use laws::session_laws;
pub use served::Served;
pub use session::serve_connection;
