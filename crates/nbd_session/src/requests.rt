//! Reads one request, puts it to the port, and replies.
ghost use Rattle.std.specs.Prelude.{◌≡◌, ℕ, ◌+◌, ◌*◌, ◌^◌, ◌<◌, ◌≤◌, Bool, List, [], ◌++◌, length, Option, MatchResult};
ghost use Rattle.flat_image.specs.Ports.{PortState};
ghost use Rattle.nbd_session.specs.Talks.{Rest, one_request, after_request, transmission};
ghost use Rattle.nbd_session.specs.Sessions.{ends, Ended, GoesOn, IsIdle};

use crate::buffers::Buffers;
use crate::export::Export;
use crate::job::{DISC, MOST_BYTES, data_length, job_of};
use crate::one_request::{refuse_request, serve_job};
use crate::reading::pull;
use crate::served::Served;
use byte_ports::{Sink, Source};
use flat_image::ImagePort;
use nbd_wire::{Request, decode_request};

// Reads the next request but for its data, or ends the connection.
fn read_request<A: Source>(source: &mut A) -> Result<Request, Served>
    ensures { (takes : Bool) (export : Export) (n : ℕ) (go : Rest)
        (written : Option (List ℕ)) (writes : ℕ) (port : PortState)
        → GoesOn takes (one_request export n go) (after_request export n go)
        (ends (A.left source.old) (A.faults source.old) written writes port)
        (ends (A.left source.new) (A.faults source.new) written writes port) result }
{
    let mut bytes = [0; 28];
    let count = pull(source, &mut bytes)?;
    if count == 0 {
        return Err(Served::Done);
    }
    if count < 28 {
        return Err(Served::Truncated);
    }
    match decode_request(&bytes) {
        Some(request) => Ok(request),
        None => Err(Served::BadMagic),
    }
}

// Serves one request, or ends the connection.
fn serve_request<A: Source, B: Sink, P: ImagePort>(
    export: &Export,
    source: &mut A,
    sink: &mut B,
    port: &mut P,
    buffers: &mut Buffers,
) -> Result<(), Served>
    ensures { (go : Rest) → IsIdle go
        → GoesOn P.flush_takes_memory (one_request export.now (P.state port.old).base.sectors go) (λ _. go)
        (ends (A.left source.old) (A.faults source.old) (B.written sink.old) (B.faults sink.old) (P.state port.old))
        (ends (A.left source.new) (A.faults source.new) (B.written sink.new) (B.faults sink.new)
        (P.state port.new)) result }
{
    let request = read_request(source)?;
    if request.command == DISC {
        return Err(Served::Done);
    }
    if data_length(&request) > MOST_BYTES {
        return Err(Served::Oversized(request.length));
    }
    match job_of(export, port.sectors(), &request) {
        Ok(job) => serve_job(source, sink, port, buffers, &request, job),
        Err(errno) => refuse_request(source, sink, buffers, &request, errno),
    }
}

// Serves at most 2^62 requests, until the connection ends.
pub(crate) fn serve_requests<A: Source, B: Sink, P: ImagePort>(
    export: &Export,
    source: &mut A,
    sink: &mut B,
    port: &mut P,
    buffers: &mut Buffers,
) -> Served
    ensures { Ended P.flush_takes_memory (transmission export.now (P.state port.old).base.sectors (2 ^ 62))
        (ends (A.left source.old) (A.faults source.old) (B.written sink.old) (B.faults sink.old) (P.state port.old))
        (ends (A.left source.new) (A.faults source.new) (B.written sink.new) (B.faults sink.new)
        (P.state port.new)) result }
{
    for number in 0..1u64 << 62 {
        match serve_request(export, source, sink, port, buffers) {
            Ok(()) => buffers.give_up_large(),
            Err(end) => return end,
        }
    }
    Served::TooManyRequests
}
