//! Lanes over sockets.
ghost use Rattle.std.specs.Prelude.{◌≡◌, None, IfOk};

use crate::setup::SetupFault;
use lane_serve::Listener;
use nbd_session::Served;
use sector_extent::Bytes;
use std::net::TcpListener;
use std::str;
use tcp_ports::TcpLane;

/// A lane over sockets.
pub type Lane<'a> = TcpLane<'a, HostRuntime, Served>;

/// A socket at which connections come to that address.
pub fn listen(rt: &HostRuntime, address: &Bytes) -> Result<TcpListener, SetupFault> {
    let Ok(text) = str::from_utf8(address.as_slice()) else {
        return Err(SetupFault::Listen);
    };
    match TcpListener::bind(rt, text) {
        Ok(listener) => Ok(listener),
        Err(_) => Err(SetupFault::Listen),
    }
}

/// A lane with a handle of that listener.
pub fn lane_of<'a>(rt: &'a HostRuntime, listener: &TcpListener) -> Result<Lane<'a>, SetupFault>
    ensures { IfOk result (λ lane. ⟦<TcpLane<'a, HostRuntime, Served> as Listener>⟧.told lane ≡ None) }
{
    match listener.try_clone() {
        Ok(own) => Ok(TcpLane::new(rt, rt.alloc(), own)),
        Err(_) => Err(SetupFault::Listen),
    }
}
