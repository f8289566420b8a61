//! Serves one connection.
ghost use Rattle.nbd_session.specs.Talks.{talk};
ghost use Rattle.nbd_session.specs.Sessions.{ends, Ended, Serves};

use crate::buffers::Buffers;
use crate::export::Export;
use crate::handshake::shake_hands;
use crate::requests::serve_requests;
use crate::served::Served;
use byte_ports::{Sink, Source};
use flat_image::ImagePort;
use std::alloc::Global;

/// Serves one connection over the port, until a word or a fault ends it or the client's bytes end.
/// It reads nothing behind a word that ends it.
pub fn serve_connection<A: Source, B: Sink, P: ImagePort>(
    alloc: Global,
    export: &Export,
    source: &mut A,
    sink: &mut B,
    port: &mut P,
) -> Served
    ensures { Serves P.flush_takes_memory (talk export.now (P.state port.old).base.sectors)
        (ends (A.left source.old) (A.faults source.old) (B.written sink.old) (B.faults sink.old) (P.state port.old))
        (ends (A.left source.new) (A.faults source.new) (B.written sink.new) (B.faults sink.new)
        (P.state port.new)) result }
{
    match Buffers::new(alloc) {
        Ok(buffers) => serve_with(export, source, sink, port, buffers),
        Err(_) => Served::Memory,
    }
}

fn serve_with<A: Source, B: Sink, P: ImagePort>(
    export: &Export,
    source: &mut A,
    sink: &mut B,
    port: &mut P,
    buffers: Buffers,
) -> Served
    ensures { Ended P.flush_takes_memory (talk export.now (P.state port.old).base.sectors)
        (ends (A.left source.old) (A.faults source.old) (B.written sink.old) (B.faults sink.old) (P.state port.old))
        (ends (A.left source.new) (A.faults source.new) (B.written sink.new) (B.faults sink.new)
        (P.state port.new)) result }
{
    let mut buffers = buffers;
    match shake_hands(
        export,
        port.sectors(),
        source,
        sink,
        buffers.small.as_mut_slice(),
    ) {
        Ok(()) => serve_requests(export, source, sink, port, &mut buffers),
        Err(end) => end,
    }
}
