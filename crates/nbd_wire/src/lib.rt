//! Messages of the NBD protocol as bytes: what a server of the fixed newstyle handshake and of
//! simple replies reads, and what it writes. All numbers are big-endian.
#![tactic(auto)]

mod fields;
mod hello;
mod info;
mod options;
mod request;

pub use fields::join;
pub use hello::{Hello, decode_hello, hello_bytes};
pub use info::{decode_info, info_block_size, info_export};
pub use options::{OptionHead, decode_option, name_reply, option_reply};
pub use request::{Request, decode_request, simple_reply};
