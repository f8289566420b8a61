//! Serves control lines over a port to an image: commits, warming of a layer, and what the image is.
#![tactic(auto)]

mod answer;
mod answering;
mod control_end;
mod control_port;
mod laws;
mod line;
mod plain_control;
mod reading;
mod session;
mod text;

pub use answer::{CommitAnswer, StatusAnswer, WarmAnswer};
pub use control_end::ControlEnd;
pub use control_port::ControlPort;
pub use laws::control_laws;
pub use line::{Call, Line};
pub use plain_control::PlainControl;
pub use session::serve_control;
pub use text::{Text, commit_text, status_text, warm_text};
