//! One lane: the connections of one listener, over one port.
ghost use Rattle.std.specs.Prelude.{◌≡◌, ℕ, ◌≤◌, ◌<◌, List};
ghost use Rattle.nbd_session.specs.Talks.{talk};
ghost use Rattle.lane_serve.specs.Listeners.{IsFresh};
ghost use Rattle.lane_serve.specs.Lanes.{Ways, Runs};

use crate::listener::{ListenFailed, Listener};
use flat_image::ImagePort;
use nbd_session::{Export, Served, serve_connection};
use std::alloc::Global;

/// Why a lane accepts no more connections.
#[derive(Clone, Copy, Debug, PartialEq, Eq)]
pub enum LaneEnd {
    /// No more come.
    NoMore,
    /// So many as it may serve were served.
    Enough,
    /// The listener failed.
    Failed,
}

/// Serves connections of the listener one after another, so many at most, and hands each back.
pub fn serve_lane<L: Listener<E = Served>, P: ImagePort>(
    alloc: Global,
    export: &Export,
    connections: u64,
    listener: &mut L,
    port: &mut P,
) -> LaneEnd
    requires { IsFresh (L.told listener.old) }
    ensures { Runs (record {
      left = L.A.left;
      reads = L.A.faults;
      written = L.B.written;
      writes = L.B.faults;
      takes = P.flush_takes_memory;
      export = export.now;
    })
        (L.told listener.old) (L.faults listener.old) (P.state port.old)
        (L.told listener.new) (L.faults listener.new) (P.state port.new) connections result }
{
    for number in 0..connections {
        match listener.accept() {
            Ok(Some((source, sink))) => {
                let _ = number;
                let mut source = source;
                let mut sink = sink;
                let end = serve_connection(alloc, export, &mut source, &mut sink, port);
                listener.finish(source, sink, end);
            }
            Ok(None) => return LaneEnd::NoMore,
            Err(ListenFailed) => return LaneEnd::Failed,
        }
    }
    LaneEnd::Enough
}
