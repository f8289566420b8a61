//! A source over any reader of std, and a sink over any writer.
ghost use Rattle.std.specs.Prelude.{◌≡◌, ◌<◌, ◌≤◌, length, take, IfOk, OnErr};
ghost use Rattle.std.specs.Io.{ReadsAtMost};
ghost use Rattle.std.specs.Io.KnownBytes.{Appends, Keeps, ReadConsumes};
ghost use Rattle.byte_ports.specs.Ports.{WritesAll};

use crate::ports::{PortFailed, Sink, Source};
use sector_extent::FaultCount;
use std::io::{ErrorKind, Read, Write};

/// A source over a reader. It tells what the reader tells, which is nothing for a file, a terminal or
/// a socket.
#[derive(Drop)]
pub struct StdSource<R> {
    reader: R,
    faults: FaultCount,
}

impl<R: Read> StdSource<R> {
    pub fn new(reader: R) -> StdSource<R>
        ensures left { ⟦<StdSource<R> as Source>⟧.left result ≡ R.remaining reader }
        ensures faults { ⟦<StdSource<R> as Source>⟧.faults result ≡ 0 }
    {
        StdSource {
            reader,
            faults: FaultCount::new(),
        }
    }
}

impl<R: Read> Source for StdSource<R> {
    ghost left = { λ s. R.remaining s.reader };

    ghost faults = { λ s. s.faults.count };

    /// A read that a signal interrupts is tried again.
    fn read(&mut self, out: &mut [u8]) -> Result<usize, PortFailed> {
        match read_retrying(&mut self.reader, out) {
            Ok(count) => Ok(count),
            Err(failed) => {
                self.faults.raise();
                Err(failed)
            }
        }
    }
}

fn read_retrying<R: Read>(reader: &mut R, out: &mut [u8]) -> Result<usize, PortFailed>
    ensures bound { ReadsAtMost result out.new }
    ensures bytes { ReadConsumes (R.remaining reader.old) (R.remaining reader.new) result out.new }
{
    for _ in 0..u64::MAX {
        match reader.read(out) {
            Ok(count) => return Ok(count),
            Err(error) => {
                if error.kind() != ErrorKind::Interrupted {
                    return Err(PortFailed);
                }
            }
        }
    }
    Err(PortFailed)
}

/// A sink over a writer. It tells what the writer tells, which is nothing for a file, a terminal or a
/// socket. It does not flush: the writer should keep nothing back.
#[derive(Drop)]
pub struct StdSink<W> {
    writer: W,
    faults: FaultCount,
}

impl<W: Write> StdSink<W> {
    pub fn new(writer: W) -> StdSink<W>
        ensures written { ⟦<StdSink<W> as Sink>⟧.written result ≡ W.contents writer }
        ensures faults { ⟦<StdSink<W> as Sink>⟧.faults result ≡ 0 }
    {
        StdSink {
            writer,
            faults: FaultCount::new(),
        }
    }
}

impl<W: Write> Sink for StdSink<W> {
    ghost written = { λ s. W.contents s.writer };

    ghost faults = { λ s. s.faults.count };

    /// A write that a signal interrupts is tried again. One that takes nothing of a piece that is not
    /// empty is a failure.
    fn write_all(&mut self, bytes: &[u8]) -> Result<(), PortFailed> {
        match write_pieces(&mut self.writer, bytes) {
            Ok(()) => Ok(()),
            Err(failed) => {
                self.faults.raise();
                Err(failed)
            }
        }
    }
}

fn write_pieces<W: Write>(writer: &mut W, bytes: &[u8]) -> Result<(), PortFailed>
    ensures { WritesAll (W.contents writer.old) (W.contents writer.new) result bytes.now }
{
    let mut at = 0;
    while at < bytes.len() {
        at += write_some(writer, &bytes[at..])?;
    }
    Ok(())
}

fn write_some<W: Write>(writer: &mut W, piece: &[u8]) -> Result<usize, PortFailed>
    ensures some { IfOk result (λ n. 0 < n) }
    ensures bound { IfOk result (λ n. n ≤ length piece.now) }
    ensures bytes { IfOk result (λ n. Appends (W.contents writer.old) (W.contents writer.new) (take n piece.now)) }
    ensures kept { OnErr result (Keeps (W.contents writer.old) (W.contents writer.new)) }
{
    for _ in 0..u64::MAX {
        match writer.write(piece) {
            Ok(0) => return Err(PortFailed),
            Ok(count) => return Ok(count),
            Err(error) => {
                if error.kind() != ErrorKind::Interrupted {
                    return Err(PortFailed);
                }
            }
        }
    }
    Err(PortFailed)
}
