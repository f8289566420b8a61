// The two ends of a connection.
ghost use Rattle.std.specs.Prelude.{◌≡◌, ◌≤◌, length, None};
ghost use Rattle.std.specs.Io.{ReadsAtMost};

use crate::kept::{Kept, ROOM};
use byte_ports::{PortFailed, Sink, Source};
use sector_extent::FaultCount;
use std::alloc::{AllocError, Global};
use std::sync::{Arc, Mutex};

/// A source that reads up to 64 KiB ahead, and straight into the caller's buffer where that is as
/// large. Before it waits for the peer it sends what the sink of the same connection keeps. It tells
/// nothing of its bytes.
#[derive(Drop)]
pub struct AheadSource<A, B> {
    source: A,
    kept: Arc<Mutex<Kept<B>>>,
    ahead: Vec<u8>,
    at: usize,
    end: usize,
    faults: FaultCount,
    ghost order: { at ≤ end },
    ghost within: { end ≤ length ahead.items },
}

/// A sink that keeps up to 64 KiB, until its room is full or the source of the same connection is
/// about to wait. A larger piece goes out at once, behind what is kept. After a failure nothing more is
/// sent, and each write fails. It tells nothing of its bytes.
#[derive(Drop)]
pub struct LateSink<B> {
    kept: Arc<Mutex<Kept<B>>>,
    faults: FaultCount,
}

/// The two ends of a connection over these, or nothing where there is no memory.
pub fn joined<A: Source, B: Sink + Drop>(
    alloc: Global,
    source: A,
    sink: B,
) -> Result<(AheadSource<A, B>, LateSink<B>), AllocError>
where
    A: Drop,
{
    let kept = Arc::new(alloc, Mutex::new(Kept::new(alloc, sink)?))?;
    let ahead = vec![in alloc; 0; ROOM]?;
    let own = kept.clone()?;
    Ok((
        AheadSource {
            source,
            kept: own,
            ahead,
            at: 0,
            end: 0,
            faults: FaultCount::new(),
        },
        LateSink {
            kept,
            faults: FaultCount::new(),
        },
    ))
}

/// Sends what is kept, and answers whether all was sent.
pub fn finish<A, B: Sink>(source: AheadSource<A, B>, sink: LateSink<B>) -> Result<(), PortFailed>
where
    A: Drop,
    B: Drop,
{
    let _ = source;
    send_kept(&sink.kept)
}

// Both ends are used by one thread, so the lock is always free.
fn send_kept<B: Sink>(kept: &Mutex<Kept<B>>) -> Result<(), PortFailed> {
    match kept.try_lock() {
        Some(mut kept) => kept.send(),
        None => Err(PortFailed),
    }
}

fn put_kept<B: Sink>(kept: &Mutex<Kept<B>>, bytes: &[u8]) -> Result<(), PortFailed> {
    match kept.try_lock() {
        Some(mut kept) => kept.put(bytes),
        None => Err(PortFailed),
    }
}

impl<A: Source, B: Sink> AheadSource<A, B> {
    // Where nothing is left of what was read ahead: what is kept is sent, and the peer is waited for.
    fn wait(&mut self, out: &mut [u8]) -> Result<usize, PortFailed>
        ensures bound { ReadsAtMost result out.new }
        ensures same { self.new.faults ≡ self.old.faults }
    {
        send_kept(&self.kept)?;
        if out.len() >= self.ahead.len() {
            return self.source.read(out);
        }
        let end = self.source.read(&mut self.ahead)?;
        self.at = 0;
        self.end = end;
        Ok(self.take(out))
    }

    // Gives of what was read ahead as many bytes as fit.
    fn take(&mut self, out: &mut [u8]) -> usize
        ensures bound { result ≤ length out.new }
        ensures same { self.new.faults ≡ self.old.faults }
    {
        let count = out.len().min(self.end - self.at);
        out[..count].copy_from_slice(&self.ahead[self.at..self.at + count]);
        self.at += count;
        count
    }
}

impl<A: Source, B: Sink> Source for AheadSource<A, B> {
    ghost left = { λ _. None };

    ghost faults = { λ s. s.faults.count };

    fn read(&mut self, out: &mut [u8]) -> Result<usize, PortFailed> {
        if self.at < self.end || out.is_empty() {
            return Ok(self.take(out));
        }
        match self.wait(out) {
            Ok(count) => Ok(count),
            Err(failed) => {
                self.faults.raise();
                Err(failed)
            }
        }
    }
}

impl<B: Sink> Sink for LateSink<B> {
    ghost written = { λ _. None };

    ghost faults = { λ s. s.faults.count };

    fn write_all(&mut self, bytes: &[u8]) -> Result<(), PortFailed> {
        match put_kept(&self.kept, bytes) {
            Ok(()) => Ok(()),
            Err(failed) => {
                self.faults.raise();
                Err(failed)
            }
        }
    }
}
