// The connections of one lane, over TCP.
ghost use Rattle.std.specs.Prelude.{None};

use crate::accepting::{TRIES, accept_once};
use crate::ahead::finish;
use crate::stream::{TcpSink, TcpSource, over_stream};
use lane_serve::{ListenFailed, Listener};
use sector_extent::FaultCount;
use std::alloc::Global;
use std::marker::PhantomData;
use std::net::TcpListener;
use std::time::Clock;

/// Connections at one address, for one lane. Lanes at the same address have handles of the same
/// listener (`TcpListener::try_clone`). It tells its count of faults alone.
#[derive(Drop)]
pub struct TcpLane<'a, C, E> {
    clock: &'a C,
    alloc: Global,
    listener: TcpListener,
    faults: FaultCount,
    marker: PhantomData<E>,
}

impl<'a, C: Clock, E> TcpLane<'a, C, E> {
    pub fn new(clock: &'a C, alloc: Global, listener: TcpListener) -> TcpLane<'a, C, E> {
        TcpLane {
            clock,
            alloc,
            listener,
            faults: FaultCount::new(),
            marker: PhantomData,
        }
    }

    // A connection, or none where it was gone before it was taken, or the system is short of something.
    fn accept_once(&self) -> Result<Option<(TcpSource, TcpSink)>, ListenFailed> {
        let Some(stream) = accept_once(self.clock, &self.listener)? else {
            return Ok(None);
        };
        match over_stream(self.alloc, stream) {
            Ok(ends) => Ok(Some(ends)),
            Err(_) => Ok(None),
        }
    }

    fn accept_retrying(&self) -> Result<(TcpSource, TcpSink), ListenFailed> {
        for _ in 0..TRIES {
            if let Some(ends) = self.accept_once()? {
                return Ok(ends);
            }
        }
        Err(ListenFailed)
    }
}

impl<'a, C: Clock, E: Drop> Listener for TcpLane<'a, C, E> {
    type A = TcpSource;

    type B = TcpSink;

    type E = E;

    ghost faults = { λ lane. lane.faults.count };

    ghost told = { λ _. None };

    /// Waits for the next connection. One that is gone before it is taken, and a system that is short of
    /// descriptors or memory, are tried again up to 1,000 times.
    fn accept(&mut self) -> Result<Option<(TcpSource, TcpSink)>, ListenFailed> {
        match self.accept_retrying() {
            Ok(ends) => Ok(Some(ends)),
            Err(failed) => {
                self.faults.raise();
                Err(failed)
            }
        }
    }

    /// Sends what is kept, and closes the connection.
    fn finish(&mut self, source: TcpSource, sink: TcpSink, end: E) {
        let _ = end;
        let _ = finish(source, sink);
    }
}
