//! A link for tests, which notes what is sent on it.
ghost use Rattle.std.specs.Prelude.{◌≤◌, length};

use http_range::{Link, LinkFailed, Target};
use sector_extent::Bytes;
use std::alloc::{AllocError, Global};
use std::cell::Cell;
use std::test::Fail;

/// How many bytes were sent, how often that text was, and how often the link was dialed again.
#[derive(Drop)]
pub struct Log {
    text: &'static [u8],
    begun: Cell<usize>,
    bytes: Cell<usize>,
    texts: Cell<u32>,
    redials: Cell<u32>,
}

impl Log {
    pub fn new(text: &'static [u8]) -> Log {
        Log {
            text,
            begun: Cell::new(0),
            bytes: Cell::new(0),
            texts: Cell::new(0),
            redials: Cell::new(0),
        }
    }

    /// The bytes, the texts and the redials.
    pub fn noted(&self) -> (usize, u32, u32) {
        (self.bytes.get(), self.texts.get(), self.redials.get())
    }

    // A text may be sent in pieces.
    fn note(&self, bytes: &[u8]) {
        self.bytes.set(self.bytes.get().saturating_add(bytes.len()));
        let begun = self.begun.get();
        let end = begun.saturating_add(bytes.len());
        if self.text.get(begun..end) != Some(bytes) {
            self.begun.set(0);
        } else if end < self.text.len() {
            self.begun.set(end);
        } else {
            self.begun.set(0);
            self.texts.set(self.texts.get().saturating_add(1));
        }
    }
}

/// Never fails, and receives the same bytes on each dial.
#[derive(Drop)]
pub struct NotedLink<'a> {
    log: &'a Log,
    text: Vec<u8>,
    at: usize,
}

impl<'a> NotedLink<'a> {
    pub fn new(log: &'a Log, text: Vec<u8>) -> NotedLink<'a> {
        NotedLink { log, text, at: 0 }
    }
}

// Copies as many bytes as there is room for, from a place on, and answers how many these are.
fn copy_from(text: &[u8], at: usize, out: &mut [u8]) -> usize
    ensures { result ≤ length out.new }
{
    let Some(rest) = text.get(at..) else {
        return 0;
    };
    let count = rest.len().min(out.len());
    out[..count].copy_from_slice(&rest[..count]);
    count
}

impl<'a> Link for NotedLink<'a> {
    ghost use Rattle.std.specs.Prelude.{None};

    ghost state = { λ _. record { faults = 0; dials = None; blobs = None } };

    ghost serves = { λ _. tt };

    fn send(&mut self, bytes: &[u8]) -> Result<(), LinkFailed> {
        self.log.note(bytes);
        Ok(())
    }

    fn receive(&mut self, out: &mut [u8]) -> Result<usize, LinkFailed> {
        let count = copy_from(self.text.as_slice(), self.at, out);
        self.at = self.at.saturating_add(count);
        Ok(count)
    }

    fn redial(&mut self) -> Result<(), LinkFailed> {
        self.log
            .redials
            .set(self.log.redials.get().saturating_add(1));
        self.at = 0;
        Ok(())
    }
}

/// Where the file stands that is asked for.
pub fn target(alloc: Global) -> Result<Target, Fail> {
    let host = bytes_of(alloc, b"127.0.0.1:8080")?;
    let path = bytes_of(alloc, b"/l/0")?;
    match Target::new(host, path) {
        Some(target) => Ok(target),
        None => Err(Fail::from("no target")),
    }
}

pub fn bytes_of(alloc: Global, bytes: &[u8]) -> Result<Bytes, AllocError> {
    Ok(Bytes::from_vec(Vec::from_slice(alloc, bytes)?))
}
