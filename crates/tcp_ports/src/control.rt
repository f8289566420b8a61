// The one connection of a control, over TCP.
ghost use Rattle.std.specs.Prelude.{◌≡◌, None};
ghost use Rattle.std.specs.Io.{ReadsAtMost};

use crate::accepting::{TRIES, accept_once};
use byte_ports::{PortFailed, Sink, Source, StdSink, StdSource};
use sector_extent::FaultCount;
use std::alloc::{AllocError, Global};
use std::io::{self, BufReader};
use std::net::{TcpListener, TcpStream};
use std::sync::{Arc, Mutex};
use std::time::Clock;

// Where the sink of a connection is put once it is there.
type Slot = Mutex<Option<StdSink<TcpStream>>>;

/// The source of one connection, for which it waits at its first read. It tells nothing of its bytes.
#[derive(Drop)]
pub struct ControlSource<'a, C> {
    clock: &'a C,
    alloc: Global,
    listener: TcpListener,
    stream: Option<StdSource<BufReader<TcpStream>>>,
    slot: Arc<Slot>,
    faults: FaultCount,
}

/// The sink of that connection. Before the connection is there each write fails. It tells nothing of its
/// bytes.
#[derive(Drop)]
pub struct ControlSink {
    slot: Arc<Slot>,
    faults: FaultCount,
}

/// The two ends of the first connection that comes to the listener. The source waits for it at its first
/// read.
pub fn control_ends<'a, C: Clock>(
    clock: &'a C,
    alloc: Global,
    listener: TcpListener,
) -> Result<(ControlSource<'a, C>, ControlSink), AllocError> {
    let slot = Arc::new(alloc, Mutex::new(None))?;
    let own = slot.clone()?;
    Ok((
        ControlSource {
            clock,
            alloc,
            listener,
            stream: None,
            slot: own,
            faults: FaultCount::new(),
        },
        ControlSink {
            slot,
            faults: FaultCount::new(),
        },
    ))
}

// A stream and a second handle of it. Lines are sent at once.
fn parted(stream: TcpStream) -> io::Result<(TcpStream, TcpStream)> {
    stream.set_nodelay(true)?;
    let writer = stream.try_clone()?;
    Ok((stream, writer))
}

// Both ends are used by one thread, so the lock is always free.
fn fill(slot: &Slot, sink: StdSink<TcpStream>) -> Result<(), PortFailed> {
    match slot.try_lock() {
        Some(mut slot) => {
            *slot = Some(sink);
            Ok(())
        }
        None => Err(PortFailed),
    }
}

fn write_in(slot: &Slot, bytes: &[u8]) -> Result<(), PortFailed> {
    match slot.try_lock() {
        Some(mut slot) => match &mut *slot {
            Some(sink) => sink.write_all(bytes),
            None => Err(PortFailed),
        },
        None => Err(PortFailed),
    }
}

impl<'a, C: Clock> ControlSource<'a, C> {
    // Waits for the connection, and puts its sink into the slot.
    fn accept(&self) -> Result<StdSource<BufReader<TcpStream>>, PortFailed> {
        for _ in 0..TRIES {
            match accept_once(self.clock, &self.listener) {
                Ok(Some(stream)) => return self.open(stream),
                Ok(None) => {}
                Err(_) => return Err(PortFailed),
            }
        }
        Err(PortFailed)
    }

    fn open(&self, stream: TcpStream) -> Result<StdSource<BufReader<TcpStream>>, PortFailed> {
        let Ok((reader, writer)) = parted(stream) else {
            return Err(PortFailed);
        };
        let Ok(reader) = BufReader::new(self.alloc, reader) else {
            return Err(PortFailed);
        };
        fill(&self.slot, StdSink::new(writer))?;
        Ok(StdSource::new(reader))
    }

    fn read_stream(&mut self, out: &mut [u8]) -> Result<usize, PortFailed>
        ensures bound { ReadsAtMost result out.new }
        ensures same { self.new.faults ≡ self.old.faults }
    {
        if let Some(stream) = &mut self.stream {
            return stream.read(out);
        }
        let mut stream = self.accept()?;
        let taken = stream.read(out);
        self.stream = Some(stream);
        taken
    }
}

impl<'a, C: Clock> Source for ControlSource<'a, C> {
    ghost left = { λ _. None };

    ghost faults = { λ s. s.faults.count };

    /// Waits for the connection first, where it is not there yet.
    fn read(&mut self, out: &mut [u8]) -> Result<usize, PortFailed> {
        match self.read_stream(out) {
            Ok(count) => Ok(count),
            Err(failed) => {
                self.faults.raise();
                Err(failed)
            }
        }
    }
}

impl Sink for ControlSink {
    ghost written = { λ _. None };

    ghost faults = { λ s. s.faults.count };

    fn write_all(&mut self, bytes: &[u8]) -> Result<(), PortFailed> {
        match write_in(&self.slot, bytes) {
            Ok(()) => Ok(()),
            Err(failed) => {
                self.faults.raise();
                Err(failed)
            }
        }
    }
}
