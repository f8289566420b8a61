//! Sends bytes to a sink.
ghost use Rattle.nbd_session.specs.Replies.{reply_of, answer_of};
ghost use Rattle.nbd_session.specs.Sessions.{Sends};

use crate::errno::{Errno, errno_number};
use crate::served::Served;
use byte_ports::Sink;
use nbd_wire::simple_reply;

// Sends all of `bytes`.
pub(crate) fn send<B: Sink>(sink: &mut B, bytes: &[u8]) -> Result<(), Served>
    ensures { Sends (B.written sink.old) (B.written sink.new) (B.faults sink.old) (B.faults sink.new) bytes.now result }
{
    match sink.write_all(bytes) {
        Ok(()) => Ok(()),
        Err(_) => Err(Served::SinkFault),
    }
}

// Sends a reply that has no data.
pub(crate) fn reply<B: Sink>(
    sink: &mut B,
    cookie: u64,
    answer: Result<(), Errno>,
) -> Result<(), Served>
    ensures { Sends (B.written sink.old) (B.written sink.new) (B.faults sink.old) (B.faults sink.new)
        (reply_of cookie (answer_of answer)) result }
{
    match answer {
        Ok(()) => send(sink, &simple_reply(0, cookie)),
        Err(errno) => send(sink, &simple_reply(errno_number(errno), cookie)),
    }
}
