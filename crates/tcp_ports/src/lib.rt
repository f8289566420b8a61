//! One connection as a source and a sink that ask the system seldom: the source reads ahead, and the
//! sink keeps what is written until the source is about to wait for the peer. The connections of a
//! lane, and the one connection of a control.
#![tactic(auto)]

mod accepting;
mod ahead;
mod control;
mod kept;
mod listening;
mod stream;

pub use ahead::{AheadSource, LateSink, finish, joined};
pub use control::{ControlSink, ControlSource, control_ends};
pub use listening::TcpLane;
pub use stream::{TcpSink, TcpSource, over_stream};
