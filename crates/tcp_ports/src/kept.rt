// What was written and is not sent yet.
ghost use Rattle.std.specs.Prelude.{◌≡◌, ◌+◌, ◌≤◌, length, IfOk};

use byte_ports::{PortFailed, Sink};
use std::alloc::{AllocError, Global};

// How many bytes are kept at most, and read ahead at most.
pub(crate) const ROOM: usize = 65_536;

// Bytes on their way to a sink. After a failure nothing more is sent.
#[derive(Drop)]
pub(crate) struct Kept<B> {
    sink: B,
    bytes: Vec<u8>,
    end: usize,
    failed: bool,
    ghost within: { end ≤ length bytes.items },
}

impl<B: Sink> Kept<B> {
    // Nothing is kept yet.
    pub(crate) fn new(alloc: Global, sink: B) -> Result<Kept<B>, AllocError>
    where
        B: Drop,
    {
        let bytes = vec![in alloc; 0; ROOM]?;
        Ok(Kept {
            sink,
            bytes,
            end: 0,
            failed: false,
        })
    }

    // Sends what is kept, in one piece.
    pub(crate) fn send(&mut self) -> Result<(), PortFailed> {
        if self.end == 0 {
            return self.sound();
        }
        let end = self.end;
        self.end = 0;
        self.send_behind(end)
    }

    // Keeps the bytes, or sends them at once behind what is kept where they do not fit.
    pub(crate) fn put(&mut self, bytes: &[u8]) -> Result<(), PortFailed> {
        if bytes.len() > self.room() {
            self.send()?;
        }
        if bytes.len() > self.room() {
            return self.send_at_once(bytes);
        }
        self.keep(bytes);
        self.sound()
    }

    fn room(&self) -> usize
        ensures { result + self.now.end ≡ length self.now.bytes.items }
    {
        self.bytes.len() - self.end
    }

    fn keep(&mut self, bytes: &[u8])
        requires { length bytes.now + self.old.end ≤ length self.old.bytes.items }
    {
        let end = self.end + bytes.len();
        self.bytes[self.end..end].copy_from_slice(bytes);
        self.end = end;
    }

    fn sound(&self) -> Result<(), PortFailed> {
        if self.failed { Err(PortFailed) } else { Ok(()) }
    }

    fn send_behind(&mut self, end: usize) -> Result<(), PortFailed>
        requires { end ≤ length self.old.bytes.items }
    {
        self.sound()?;
        let sent = self.sink.write_all(&self.bytes[..end]);
        self.failed = sent.is_err();
        sent
    }

    fn send_at_once(&mut self, bytes: &[u8]) -> Result<(), PortFailed> {
        self.sound()?;
        let sent = self.sink.write_all(bytes);
        self.failed = sent.is_err();
        sent
    }
}
