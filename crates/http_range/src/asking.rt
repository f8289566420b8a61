//! One asking: a request is sent, and its reply received.
ghost use Rattle.std.specs.Prelude.{◌≡◌, ◌+◌, ◌-◌, ◌^◌, ◌<◌, ◌≤◌, [], false, length, take, IfOk, IfErr};
ghost use Rattle.http_range.specs.Fetching.{AsksWell, Misses, Stops};
ghost use Rattle.http_range.specs.Requests.{request_text};

use crate::bodies::take_body;
use crate::links::Link;
use crate::reason::{FetchFault, ReplyReason};
use crate::receiving::{BodyStop, Stop, receive_head};
use crate::sending::send_request;
use crate::target::Target;

/// The total that a good reply names, and how many bytes are held behind it at the front of the
/// buffer.
#[derive(Clone, Copy, Debug, PartialEq, Eq)]
pub struct Answer {
    pub total: u64,
    pub held: usize,
}

/// Asks for the bytes from `first` on that fill `out`, where `held` bytes at the front of the buffer
/// were received before.
pub fn ask<L: Link>(
    link: &mut L,
    buffer: &mut [u8],
    held: usize,
    target: &Target,
    first: u64,
    out: &mut [u8],
) -> Result<Answer, Stop>
    requires room { length buffer.old ≡ 16384 }
    requires within { held ≤ 16384 }
    requires some { 0 < length out.old }
    requires small { first + length out.old ≤ 2 ^ 63 }
    ensures ok { let last = first + (length out.old - 1) in IfOk result (λ answer. (answer.held ≤ 16384)
        × AsksWell (request_text target.now first last) (take held buffer.old) first last
        (L.state link.old) (L.state link.new) out.new (take answer.held buffer.new) answer.total) }
    ensures err { let last = first + (length out.old - 1) in IfErr result (λ stop.
        Stops (request_text target.now first last) (take held buffer.old) first last
        (L.state link.old) (L.state link.new) stop.early stop.fault) }
{
    let last = first + (out.len() as u64 - 1);
    match send_request(link, target, first, last) {
        Ok(()) => receive_reply(link, buffer, held, first, last, out),
        Err(_) => Err(Stop {
            fault: FetchFault::Failed,
            early: true,
        }),
    }
}

fn receive_reply<L: Link>(
    link: &mut L,
    buffer: &mut [u8],
    held: usize,
    first: u64,
    last: u64,
    out: &mut [u8],
) -> Result<Answer, Stop>
    requires room { length buffer.old ≡ 16384 }
    requires within { held ≤ 16384 }
    requires size { first + length out.old ≡ last + 1 }
    requires some { 0 < length out.old }
    requires small { last < 2 ^ 63 }
    ensures ok { IfOk result (λ answer. (answer.held ≤ 16384) × AsksWell [] (take held buffer.old) first last
        (L.state link.old) (L.state link.new) out.new (take answer.held buffer.new) answer.total) }
    ensures err { IfErr result (λ stop. Misses [] (take held buffer.old) first last
        (L.state link.old) (L.state link.new) stop.early stop.fault) }
{
    let found = receive_head(link, buffer, held, first, last)?;
    match take_body(link, buffer, &found, out) {
        Ok(held) => Ok(Answer {
            total: found.total,
            held,
        }),
        Err(BodyStop::Ended) => Err(late(FetchFault::BadReply {
            status: found.status,
            reason: ReplyReason::ShortBody,
        })),
        Err(BodyStop::Broken) => Err(late(FetchFault::Failed)),
    }
}

// What stops an asking after the first byte of its reply.
fn late(fault: FetchFault) -> Stop
    ensures { result ≡ record { fault = fault; early = false } }
{
    Stop {
        fault,
        early: false,
    }
}
