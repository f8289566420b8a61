//! Serves one request behind its 28 bytes.
ghost use Rattle.std.specs.Prelude.{ℕ, Bool, List, Option};
ghost use Rattle.flat_image.specs.Ports.{PortState};
ghost use Rattle.nbd_session.specs.Jobs.{IsInside};
ghost use Rattle.nbd_session.specs.Talks.{Rest, with_job, with_refusal};
ghost use Rattle.nbd_session.specs.Sessions.{ends, GoesOn, IsIdle};

use crate::buffers::Buffers;
use crate::errno::Errno;
use crate::job::{Job, data_length};
use crate::port_calls::{HEAD, flush_all, read_reply, write_sectors, zero_sectors};
use crate::reading::{fill, skip_data};
use crate::sending::{reply, send};
use crate::served::Served;
use byte_ports::{Sink, Source};
use flat_image::ImagePort;
use nbd_wire::Request;

// Drops the data of a request, and refuses it.
pub(crate) fn refuse_request<A: Source, B: Sink>(
    source: &mut A,
    sink: &mut B,
    buffers: &mut Buffers,
    request: &Request,
    errno: Errno,
) -> Result<(), Served>
    ensures { (takes : Bool) (go : Rest) (port : PortState) → IsIdle go
        → GoesOn takes (with_refusal go request.now errno) (λ _. go)
        (ends (A.left source.old) (A.faults source.old) (B.written sink.old) (B.faults sink.old) port)
        (ends (A.left source.new) (A.faults source.new) (B.written sink.new) (B.faults sink.new) port) result }
{
    let size = data_length(request) as usize;
    skip_data(source, size, buffers)?;
    reply(sink, request.cookie, Err(errno))
}

// Reads from the port, and sends head and data at once.
fn serve_read<B: Sink, P: ImagePort>(
    sink: &mut B,
    port: &mut P,
    buffers: &mut Buffers,
    request: &Request,
    at: u64,
    count: u64,
) -> Result<(), Served>
    requires { IsInside (P.state port.old).base.sectors request.now (Job.Read at count) }
    ensures { (go : Rest) (left : Option (List ℕ)) (reads : ℕ) → IsIdle go
        → GoesOn P.flush_takes_memory (with_job go request.now (Job.Read at count)) (λ _. go)
        (ends left reads (B.written sink.old) (B.faults sink.old) (P.state port.old))
        (ends left reads (B.written sink.new) (B.faults sink.new) (P.state port.new)) result }
{
    let size = request.length as usize;
    if buffers.make_room(size).is_err() {
        return reply(sink, request.cookie, Err(Errno::Memory));
    }
    let out = &mut buffers.large.as_mut_slice()[..HEAD + size];
    match read_reply(port, at, count, request.cookie, out) {
        Ok(()) => send(sink, out),
        Err(errno) => reply(sink, request.cookie, Err(errno)),
    }
}

// The sectors that a WRITE changes, and whether a flush follows.
#[derive(Clone, Copy)]
struct Change {
    at: u64,
    count: u64,
    fua: bool,
}

// Takes the data into the buffer, and writes it to the port. Without memory the data are dropped.
fn serve_write<A: Source, B: Sink, P: ImagePort>(
    source: &mut A,
    sink: &mut B,
    port: &mut P,
    buffers: &mut Buffers,
    request: &Request,
    change: Change,
) -> Result<(), Served>
    requires { IsInside (P.state port.old).base.sectors request.now
        (Job.Write change.at change.count change.fua) }
    ensures { (go : Rest) → IsIdle go
        → GoesOn P.flush_takes_memory
        (with_job go request.now (Job.Write change.at change.count change.fua)) (λ _. go)
        (ends (A.left source.old) (A.faults source.old) (B.written sink.old) (B.faults sink.old) (P.state port.old))
        (ends (A.left source.new) (A.faults source.new) (B.written sink.new) (B.faults sink.new)
        (P.state port.new)) result }
{
    let size = request.length as usize;
    if buffers.make_room(size).is_err() {
        skip_data(source, size, buffers)?;
        return reply(sink, request.cookie, Err(Errno::Memory));
    }
    let data = &mut buffers.large.as_mut_slice()[..size];
    fill(source, data)?;
    let answer = write_sectors(port, change.at, data, change.fua);
    reply(sink, request.cookie, answer)
}

// Serves a request that met no check.
pub(crate) fn serve_job<A: Source, B: Sink, P: ImagePort>(
    source: &mut A,
    sink: &mut B,
    port: &mut P,
    buffers: &mut Buffers,
    request: &Request,
    job: Job,
) -> Result<(), Served>
    requires { IsInside (P.state port.old).base.sectors request.now job }
    ensures { (go : Rest) → IsIdle go
        → GoesOn P.flush_takes_memory (with_job go request.now job) (λ _. go)
        (ends (A.left source.old) (A.faults source.old) (B.written sink.old) (B.faults sink.old) (P.state port.old))
        (ends (A.left source.new) (A.faults source.new) (B.written sink.new) (B.faults sink.new)
        (P.state port.new)) result }
{
    match job {
        Job::Read { at, count } => serve_read(sink, port, buffers, request, at, count),
        Job::Write { at, count, fua } => {
            let change = Change { at, count, fua };
            serve_write(source, sink, port, buffers, request, change)
        }
        Job::Zero { at, count, fua } => {
            let answer = zero_sectors(port, at, count, fua);
            reply(sink, request.cookie, answer)
        }
        Job::Flush => {
            let answer = flush_all(port);
            reply(sink, request.cookie, answer)
        }
    }
}
