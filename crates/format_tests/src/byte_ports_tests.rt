use crate::expecting::{holds, holds_at};
use byte_ports::*;
use sector_extent::{Bytes, CallList};
use std::alloc::{AllocError, Global};
use std::io;
use std::io::{ErrorKind, Read, Write};
use std::test::Fail;

// A read into so many bytes, whether it goes on until they are full, what it answers, and the bytes then.
type Reading = (usize, bool, Result<usize, PortFailed>, [u8; 4]);

// What is written, and the answer.
type Writing<'a> = (&'a [u8], Result<(), PortFailed>);

fn is_send<T: Send + Drop>(_value: T) {}

fn numbers(alloc: Global, calls: &[u64]) -> Result<CallList, AllocError> {
    Ok(CallList::from_vec(Vec::from_slice(alloc, calls)?))
}

// Whether the reads of a source go so, one after another.
fn are_read<A: Source>(source: &mut A, readings: &[Reading]) -> bool {
    for (room, fills, answer, bytes) in readings {
        let mut all = [0; 4];
        let (out, _) = all.split_at_mut((*room).min(4));
        let answered = if *fills {
            read_full(source, out)
        } else {
            source.read(out)
        };
        if answered != *answer || all != *bytes {
            return false;
        }
    }
    true
}

// Whether the writes to a sink go so, one after another.
fn are_written<B: Sink>(sink: &mut B, writings: &[Writing]) -> bool {
    for (bytes, answer) in writings {
        if sink.write_all(bytes) != *answer {
            return false;
        }
    }
    true
}

// Calls 1 and 3 fail.
const IN_MEMORY: [Reading; 4] = [
    (2, false, Ok(2), [1, 2, 0, 0]),
    (2, false, Err(PortFailed), [0; 4]),
    (4, true, Err(PortFailed), [3, 4, 5, 0]),
    (4, true, Ok(0), [0; 4]),
];

#[test]
fn a_source_in_memory(rt: HostRuntime) -> Result<(), Fail> {
    let bytes = Bytes::from_vec(Vec::from_slice(rt.alloc(), &[1, 2, 3, 4, 5])?);
    let mut source = MemSource::new(bytes, numbers(rt.alloc(), &[1, 3])?);
    holds(&rt, are_read(&mut source, &IN_MEMORY), "reads");
    is_send(source);
    Ok(())
}

// Call 1 fails.
const KEPT: [Writing<'static>; 3] = [(&[1, 2], Ok(())), (&[3], Err(PortFailed)), (&[4], Ok(()))];

#[test]
fn a_sink_in_memory(rt: HostRuntime) -> Result<(), Fail> {
    let mut sink = MemSink::new(rt.alloc(), numbers(rt.alloc(), &[1])?);
    holds(&rt, are_written(&mut sink, &KEPT), "writes");
    holds(&rt, sink.wants() == 0, "there was no memory");
    let kept = sink.into_bytes();
    holds(&rt, kept.as_slice() == [1, 2, 4].as_slice(), "what is kept");
    is_send(MemSink::new(rt.alloc(), numbers(rt.alloc(), &[])?));
    Ok(())
}

// Gives or takes two bytes a call, is interrupted at call 1 and broken from call 3 on.
#[derive(Drop)]
struct Flaky {
    calls: u8,
    last: u8,
}

impl Flaky {
    fn turn(&mut self) -> io::Result<()> {
        self.calls = self.calls.saturating_add(1);
        match self.calls {
            2 => Err(io::Error::from(ErrorKind::Interrupted)),
            0 | 1 | 3 => Ok(()),
            _ => Err(io::Error::from(ErrorKind::BrokenPipe)),
        }
    }
}

impl Read for Flaky {
    fn read(&mut self, buf: &mut [u8]) -> io::Result<usize> {
        self.turn()?;
        let count = buf.len().min(2);
        for byte in &mut buf[..count] {
            self.last = self.last.saturating_add(1);
            *byte = self.last;
        }
        Ok(count)
    }
}

impl Write for Flaky {
    fn write(&mut self, buf: &[u8]) -> io::Result<usize> {
        self.turn()?;
        let count = buf.len().min(2);
        if count > 0 {
            self.last = buf[count - 1];
        }
        Ok(count)
    }

    fn flush(&mut self) -> io::Result<()> {
        Ok(())
    }
}

const BROKEN: [Reading; 2] = [
    (3, true, Ok(3), [1, 2, 3, 0]),
    (3, true, Err(PortFailed), [0; 4]),
];

const ENDED: [Reading; 2] = [(3, true, Ok(2), [1, 2, 0, 0]), (3, false, Ok(0), [0; 4])];

#[test]
fn a_reader_that_breaks_in_mid_stream(rt: HostRuntime) {
    let mut source = StdSource::new(Flaky { calls: 0, last: 0 });
    holds(&rt, are_read(&mut source, &BROKEN), "broken");
    let mut source = StdSource::new([1, 2].as_slice());
    holds(&rt, are_read(&mut source, &ENDED), "at its end");
    is_send(source);
}

// The second write breaks.
const BREAKS: [Writing<'static>; 2] = [(&[1, 2, 3, 4], Ok(())), (&[5], Err(PortFailed))];

const FULL: [Writing<'static>; 1] = [(&[1, 2, 3, 4], Err(PortFailed))];

const GROWS: [Writing<'static>; 2] = [(&[1, 2], Ok(())), (&[], Ok(()))];

// Whether the writes to a sink over the writer go so.
fn are_written_to<W: Write + Drop>(writer: W, writings: &[Writing]) -> bool {
    let mut sink = StdSink::new(writer);
    are_written(&mut sink, writings)
}

#[test]
fn a_writer_that_breaks_in_mid_stream(rt: HostRuntime) {
    let mut flaky = Flaky { calls: 0, last: 0 };
    holds(&rt, are_written_to(&mut flaky, &BREAKS), "broken");
    holds(&rt, flaky.last == 4, "what it took");
    let mut room = [0; 3];
    let mut full = room.as_mut_slice();
    holds(&rt, are_written_to(&mut full, &FULL), "full");
    holds(&rt, room == [1, 2, 3], "what fitted");
    let mut written = Vec::new(rt.alloc());
    holds(&rt, are_written_to(&mut written, &GROWS), "a vector");
    holds(
        &rt,
        written.as_slice() == [1, 2].as_slice(),
        "what is in it",
    );
}
