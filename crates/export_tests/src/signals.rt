//! Signals that the threads of a test give each other, and a shelf, a source, a sink and a listener that
//! give them or wait for them.
ghost use Rattle.std.specs.Prelude.{◌≡◌, ◌+◌, ◌<◌, ◌≤◌, length, None};

use byte_ports::{MemSink, MemSource, PortFailed, Sink, Source};
use lane_serve::{ListenFailed, Listener};
use layer_shelf::{Gate, Shelf, ShelfFailed};
use nbd_session::Served;
use sector_extent::Bytes;
use std::hint::spin_loop;
use std::sync::atomic::{AtomicU64, Ordering};

// How often somebody asks before giving up.
const MOST: u64 = 1 << 30;

/// How often something came to pass, and how often somebody gave up waiting for it.
#[derive(Drop)]
pub struct Signal {
    raised: AtomicU64,
    given_up: AtomicU64,
}

impl Signal {
    pub fn new() -> Signal {
        Signal {
            raised: AtomicU64::new(0),
            given_up: AtomicU64::new(0),
        }
    }

    pub fn raise(&self) {
        self.raised.fetch_add(1, Ordering::SeqCst);
    }

    pub fn count(&self) -> u64 {
        self.raised.load(Ordering::SeqCst)
    }

    fn give_up(&self) {
        self.given_up.fetch_add(1, Ordering::SeqCst);
    }

    pub fn was_given_up(&self) -> bool {
        self.given_up.load(Ordering::SeqCst) > 0
    }

    // Waits until it was raised so often.
    fn wait_for(&self, times: u64) {
        for _ in 0..MOST {
            if self.count() >= times {
                return;
            }
            spin_loop();
        }
        self.give_up();
    }
}

/// Lets everybody pass until the one signal is raised, and from then on nobody before the other one is.
#[derive(Clone, Copy)]
pub struct Barrier<'a> {
    pub shut: &'a Signal,
    pub asked: &'a Signal,
    pub opened: &'a Signal,
}

impl<'a> Gate for Barrier<'a> {
    fn pass(&self, _point: u32) -> bool {
        if self.shut.count() == 0 {
            return true;
        }
        self.asked.raise();
        if self.opened.count() > 0 {
            return true;
        }
        if self.asked.count() < MOST {
            spin_loop();
            return false;
        }
        self.opened.give_up();
        true
    }
}

/// A shelf that raises a signal at each read. It tells nothing.
#[derive(Drop)]
pub struct CountedShelf<'a, S> {
    pub files: S,
    pub reads: &'a Signal,
}

impl<'a, S: Shelf> Shelf for CountedShelf<'a, S> {
    ghost files = { λ _. None };

    ghost count = { λ s. S.count s.files };

    ghost faults = { λ s. S.faults s.files };

    ghost counted = { λ _. tt };

    fn count(&self) -> u32 {
        self.files.count()
    }

    fn length(&mut self, k: u32) -> Result<u64, ShelfFailed> {
        self.files.length(k)
    }

    fn read(&mut self, k: u32, at: u64, out: &mut [u8]) -> Result<(), ShelfFailed> {
        self.reads.raise();
        self.files.read(k, at, out)
    }
}

/// A source in memory that gives nothing before a signal was raised so often. It tells nothing.
#[derive(Drop)]
pub struct WaitingSource<'a> {
    pub bytes: MemSource,
    pub after: &'a Signal,
    pub times: u64,
}

impl<'a> Source for WaitingSource<'a> {
    ghost left = { λ _. None };

    ghost faults = { λ s. s.bytes.faults };

    fn read(&mut self, out: &mut [u8]) -> Result<usize, PortFailed> {
        self.after.wait_for(self.times);
        self.bytes.read(out)
    }
}

/// A sink in memory that raises a signal once so many bytes were written. It tells nothing.
#[derive(Drop)]
pub struct NotingSink<'a> {
    pub bytes: MemSink,
    pub missing: usize,
    pub done: &'a Signal,
}

impl<'a> Sink for NotingSink<'a> {
    ghost written = { λ _. None };

    ghost faults = { λ s. s.bytes.faults };

    fn write_all(&mut self, bytes: &[u8]) -> Result<(), PortFailed> {
        self.bytes.write_all(bytes)?;
        let was_missing = self.missing > 0;
        self.missing = self.missing.saturating_sub(bytes.len());
        if was_missing && self.missing == 0 {
            self.done.raise();
        }
        Ok(())
    }
}

/// A connection that came back: what was sent, and how it ended.
#[derive(Drop)]
pub struct Answered {
    pub sent: Bytes,
    pub end: Served,
}

/// A listener with one connection, which raises a signal when it is accepted. It tells nothing.
#[derive(Drop)]
pub struct OneConnection<'a> {
    pub coming: Option<(WaitingSource<'a>, NotingSink<'a>)>,
    pub accepted: &'a Signal,
    pub answered: Option<Answered>,
}

impl<'a> Listener for OneConnection<'a> {
    type A = WaitingSource<'a>;

    type B = NotingSink<'a>;

    type E = Served;

    ghost faults = { λ _. 0 };

    ghost told = { λ _. None };

    fn accept(&mut self) -> Result<Option<(WaitingSource<'a>, NotingSink<'a>)>, ListenFailed> {
        self.accepted.raise();
        Ok(self.coming.take())
    }

    fn finish(&mut self, _source: WaitingSource<'a>, sink: NotingSink<'a>, end: Served) {
        let sent = sink.bytes.into_bytes();
        self.answered = Some(Answered { sent, end });
    }
}
