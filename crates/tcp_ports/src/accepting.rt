// Takes connections of a listening socket.
use lane_serve::ListenFailed;
use std::io::{Error, ErrorKind};
use std::net::{TcpListener, TcpStream};
use std::thread;
use std::time::{Clock, Duration};

// How often a connection that is gone, or a system that is short of something, is tried again.
pub(crate) const TRIES: u32 = 1_000;

// How long a system that is short of something is left alone, in milliseconds.
const PAUSE: u64 = 10;

// A connection, or none where it was gone before it was taken, or the system is short of something.
pub(crate) fn accept_once<C: Clock>(
    clock: &C,
    listener: &TcpListener,
) -> Result<Option<TcpStream>, ListenFailed> {
    match listener.accept() {
        Ok((stream, _)) => Ok(Some(stream)),
        Err(error) => {
            if is_gone(&error) {
                return Ok(None);
            }
            if !is_short(&error) {
                return Err(ListenFailed);
            }
            thread::sleep(clock, Duration::from_millis(PAUSE));
            Ok(None)
        }
    }
}

// The client went before its connection was taken, or a signal came.
fn is_gone(error: &Error) -> bool {
    matches!(
        error.kind(),
        ErrorKind::ConnectionAborted | ErrorKind::Interrupted
    )
}

// No descriptor (EMFILE, ENFILE) or no memory (ENOMEM, ENOBUFS) is free at the moment.
fn is_short(error: &Error) -> bool {
    matches!(error.raw_os_error(), Some(12 | 23 | 24 | 105))
}
