//! Receives a reply from a link.
ghost use Rattle.std.specs.Prelude.{◌≡◌, ℕ, ◌+◌, ◌-◌, ◌^◌, ◌<◌, ◌≤◌, ◌==◌, [], ◌++◌, List, length, take, drop, IfOk, IfErr};
ghost use Rattle.httparse.specs.Grammar.{MayBecomeResponse};
ghost use Rattle.http_range.specs.Fetching.{Misses, FindsHead, ReceivesMore, FillsBody, AsksWell};
ghost use Rattle.http_range.specs.Heads.{IsGoodHead};
ghost use Rattle.http_range.specs.Replies.{HasNoHead};

use crate::heads::{HEAD, Head, find_head};
use crate::links::Link;
use crate::reason::{FetchFault, ReplyReason};

/// A good head in the first `len` bytes of the buffer, whose body begins at `body`.
#[derive(Clone, Copy, Debug, PartialEq, Eq)]
pub struct Found {
    pub status: u16,
    pub total: u64,
    pub body: usize,
    pub len: usize,
}

/// Why an asking gave no good reply. It is early where the link failed while the request was sent, or
/// where no byte of the reply came.
#[derive(Clone, Copy, Debug, PartialEq, Eq)]
pub struct Stop {
    pub fault: FetchFault,
    pub early: bool,
}

/// Why a body is short.
#[derive(Clone, Copy, Debug, PartialEq, Eq)]
pub enum BodyStop {
    Ended,
    Broken,
}

const BAD_HEAD: FetchFault = FetchFault::BadReply {
    status: 0,
    reason: ReplyReason::BadHead,
};

/// Receives until a whole head stands at the front of the buffer, of which `held` bytes were received
/// before.
pub fn receive_head<L: Link>(
    link: &mut L,
    buffer: &mut [u8],
    held: usize,
    first: u64,
    last: u64,
) -> Result<Found, Stop>
    requires room { length buffer.old ≡ 16384 }
    requires within { held ≤ 16384 }
    requires ordered { first ≤ last }
    requires small { last < 2 ^ 63 }
    ensures found { IfOk result (λ found. (found.len ≤ 16384) × FindsHead (take held buffer.old) first last
        (L.state link.old) (L.state link.new) (take found.len buffer.new) found.status found.total found.body) }
    ensures stops { IfErr result (λ stop. Misses [] (take held buffer.old) first last
        (L.state link.old) (L.state link.new) stop.early stop.fault) }
{
    let mut len = held;
    loop {
        match find_head(&buffer[..len], first, last) {
            Head::Good {
                status,
                total,
                body,
            } => {
                return Ok(Found {
                    status,
                    total,
                    body,
                    len,
                });
            }
            Head::Refused { status, reason } => {
                return Err(stop_at(FetchFault::BadReply { status, reason }, len));
            }
            Head::Bad => return Err(stop_at(BAD_HEAD, len)),
            Head::More => len = receive_more(link, buffer, len)?,
        }
    }
}

fn stop_at(fault: FetchFault, len: usize) -> Stop
    ensures { result ≡ record { fault = fault; early = (len == 0) } }
{
    Stop {
        fault,
        early: len == 0,
    }
}

// Receives behind the beginning of a head, and answers how much is there then.
fn receive_more<L: Link>(link: &mut L, buffer: &mut [u8], len: usize) -> Result<usize, Stop>
    requires room { length buffer.old ≡ 16384 }
    requires within { len ≤ 16384 }
    requires open { HasNoHead (take len buffer.old) × MayBecomeResponse (take len buffer.old) }
    ensures more { IfOk result (λ n. (len < n) × (n ≤ 16384)
        × ReceivesMore (L.state link.old) (L.state link.new) (take len buffer.old) (take n buffer.new)) }
    ensures stops { IfErr result (λ stop. (first last : ℕ) → Misses [] (take len buffer.old) first last
        (L.state link.old) (L.state link.new) stop.early stop.fault) }
{
    if len == HEAD {
        return Err(stop_at(BAD_HEAD, len));
    }
    match link.receive(&mut buffer[len..]) {
        Ok(0) => Err(stop_at(BAD_HEAD, len)),
        Ok(count) => Ok(len + count),
        Err(_) => Err(stop_at(FetchFault::Failed, len)),
    }
}

/// Fills `out` from `at` on with what the link gives.
pub fn receive_body<L: Link>(link: &mut L, out: &mut [u8], at: usize) -> Result<(), BodyStop>
    requires { at ≤ length out.old }
    ensures { FillsBody at (L.state link.old) (L.state link.new) out.old out.new result }
{
    let mut at = at;
    while at < out.len() {
        match link.receive(&mut out[at..]) {
            Ok(0) => return Err(BodyStop::Ended),
            Ok(count) => at += count,
            Err(_) => return Err(BodyStop::Broken),
        }
    }
    Ok(())
}
