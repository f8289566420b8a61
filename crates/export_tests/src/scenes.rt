//! Exports with two lanes and a control that wait for each other.
use crate::clients::{Ask, is_sent, replies, requests, sent_length};
use crate::harbours::{Exported, export_from};
use crate::images::{Lower, no_calls, shelf_of};
use crate::signals::{
    Answered, Barrier, CountedShelf, NotingSink, OneConnection, Signal, WaitingSource,
};
use block_disk::MemDisk;
use byte_ports::{MemSink, MemSource};
use control_session::ControlEnd;
use lane_export::{LaneList, Parts};
use layer_shelf::{HeldShelf, MemShelf, Shelf};
use nbd_session::Served;
use sector_extent::Bytes;
use std::alloc::{AllocError, Global};
use std::sync::Wait;
use std::test::Fail;
use std::thread::Threads;

/// What a client does: it waits until a signal was raised so often, asks, and raises one when it got all
/// replies. The reads of the shelf behind it are counted, and wait at the barrier.
#[derive(Clone, Copy)]
pub struct Client<'a> {
    pub after: &'a Signal,
    pub times: u64,
    pub done: &'a Signal,
    pub reads: &'a Signal,
    pub barrier: Barrier<'a>,
    pub accepted: &'a Signal,
    pub asks: &'a [Ask],
}

/// The same for the control, with its lines and their answers.
#[derive(Clone, Copy)]
pub struct Controller<'a> {
    pub after: &'a Signal,
    pub times: u64,
    pub done: &'a Signal,
    pub reads: &'a Signal,
    pub barrier: Barrier<'a>,
    pub lines: &'a [u8],
    pub answers: &'a [u8],
}

type LaneShelf<'a> = HeldShelf<CountedShelf<'a, MemShelf>, Barrier<'a>>;

fn shelf_behind<'a>(
    alloc: Global,
    lowers: &[Lower],
    reads: &'a Signal,
    barrier: Barrier<'a>,
) -> Result<LaneShelf<'a>, Fail> {
    let files = shelf_of(alloc, lowers, no_calls(alloc))?;
    Ok(HeldShelf::new(CountedShelf { files, reads }, barrier))
}

fn source_of<'a>(alloc: Global, bytes: Bytes, after: &'a Signal, times: u64) -> WaitingSource<'a> {
    WaitingSource {
        bytes: MemSource::new(bytes, no_calls(alloc)),
        after,
        times,
    }
}

fn sink_of<'a>(alloc: Global, missing: usize, done: &'a Signal) -> NotingSink<'a> {
    NotingSink {
        bytes: MemSink::new(alloc, no_calls(alloc)),
        missing,
        done,
    }
}

// A listener with the connection of this client.
fn listener_of<'a>(alloc: Global, client: Client<'a>) -> Result<OneConnection<'a>, AllocError> {
    let missing = sent_length(replies(alloc, client.asks)?.as_slice());
    let bytes = requests(alloc, client.asks)?;
    Ok(OneConnection {
        coming: Some((
            source_of(alloc, bytes, client.after, client.times),
            sink_of(alloc, missing, client.done),
        )),
        accepted: client.accepted,
        answered: None,
    })
}

/// The signals of a scene. Nobody is kept waiting by them before a test says so.
#[derive(Drop)]
pub struct Signals {
    /// Raised from the beginning.
    pub always: Signal,
    /// Never raised.
    pub never: Signal,
    /// Lane 0 accepts.
    pub accepted: Signal,
    /// Somebody waits at a barrier.
    pub asked: Signal,
    /// A client got all replies.
    pub first: Signal,
    pub second: Signal,
    /// The control got all answers.
    pub control: Signal,
    /// A read of a lane's shelf, and of the control's.
    pub reads: Signal,
    pub control_reads: Signal,
}

impl Signals {
    pub fn new() -> Signals {
        let always = Signal::new();
        always.raise();
        Signals {
            always,
            never: Signal::new(),
            accepted: Signal::new(),
            asked: Signal::new(),
            first: Signal::new(),
            second: Signal::new(),
            control: Signal::new(),
            reads: Signal::new(),
            control_reads: Signal::new(),
        }
    }

    // Where nobody waits.
    fn open(&self) -> Barrier<'_> {
        Barrier {
            shut: &self.never,
            asked: &self.asked,
            opened: &self.always,
        }
    }

    /// A client of lane 0 that asks this at once.
    pub fn first_client<'a>(&'a self, asks: &'a [Ask]) -> Client<'a> {
        Client {
            after: &self.always,
            times: 1,
            done: &self.first,
            reads: &self.reads,
            barrier: self.open(),
            accepted: &self.accepted,
            asks,
        }
    }

    /// One of lane 1.
    pub fn second_client<'a>(&'a self, asks: &'a [Ask]) -> Client<'a> {
        Client {
            after: &self.always,
            times: 1,
            done: &self.second,
            reads: &self.reads,
            barrier: self.open(),
            accepted: &self.always,
            asks,
        }
    }

    /// A control with these lines.
    pub fn controller<'a>(&'a self, lines: &'a [u8], answers: &'a [u8]) -> Controller<'a> {
        Controller {
            after: &self.always,
            times: 1,
            done: &self.control,
            reads: &self.control_reads,
            barrier: self.open(),
            lines,
            answers,
        }
    }

    /// Whether somebody gave up waiting.
    pub fn were_given_up(&self) -> bool {
        for signal in [
            &self.always,
            &self.accepted,
            &self.asked,
            &self.first,
            &self.second,
            &self.control,
        ] {
            if signal.was_given_up() {
                return true;
            }
        }
        false
    }
}

/// What comes of a scene: its status, what the clients and the control were sent, how the control ended,
/// and the disk.
#[derive(Drop)]
pub struct Outcome {
    pub status: u8,
    pub clients: Vec<Option<Answered>>,
    pub control: Bytes,
    pub end: Option<ControlEnd>,
    pub disk: MemDisk,
}

/// Exports the image on the disk over these layers.
pub fn play<'a, R: Threads + Wait + Sync>(
    rt: &R,
    alloc: Global,
    disk: MemDisk,
    lowers: &[Lower],
    first: Client<'a>,
    second: Client<'a>,
    control: Controller<'a>,
) -> Result<Outcome, Fail> {
    let first_shelf = shelf_behind(alloc, lowers, first.reads, first.barrier)?;
    let second_shelf = shelf_behind(alloc, lowers, second.reads, second.barrier)?;
    let control_shelf = shelf_behind(alloc, lowers, control.reads, control.barrier)?;
    if first_shelf.count() != control_shelf.count()
        || second_shelf.count() != control_shelf.count()
    {
        return Err(Fail::new("other files"));
    }
    let mut lanes = Vec::new(alloc);
    lanes.push((first_shelf, listener_of(alloc, first)?))?;
    lanes.push((second_shelf, listener_of(alloc, second)?))?;
    let lines = Bytes::from_vec(Vec::from_slice(alloc, control.lines)?);
    let parts = Parts {
        disk,
        lanes: LaneList::from_vec(lanes),
        control_shelf,
        control_source: source_of(alloc, lines, control.after, control.times),
        control_sink: sink_of(alloc, control.answers.len(), control.done),
    };
    let Exported { status, parts, end } = export_from(rt, alloc, "export", parts)?;
    let Parts {
        disk,
        lanes,
        control_shelf: _,
        control_source: _,
        control_sink,
    } = parts;
    let mut clients = Vec::new(alloc);
    for (_, listener) in lanes.into_vec() {
        clients.push(listener.answered)?;
    }
    Ok(Outcome {
        status,
        clients,
        control: control_sink.bytes.into_bytes(),
        end,
        disk,
    })
}

// Whether the client with that number was sent the replies to this, to its end.
fn is_answered(
    alloc: Global,
    outcome: &Outcome,
    number: usize,
    asks: &[Ask],
) -> Result<bool, AllocError> {
    let wanted = replies(alloc, asks)?;
    Ok(match outcome.clients.as_slice().get(number) {
        Some(Some(answered)) => {
            answered.end == Served::Done && is_sent(answered.sent.as_slice(), &wanted)
        }
        _ => false,
    })
}

/// Whether all went well: nobody gave up waiting, the status is 0, and both clients and the control were
/// answered.
pub fn is_served(
    alloc: Global,
    signals: &Signals,
    outcome: &Outcome,
    first: &[Ask],
    second: &[Ask],
    control: &[u8],
) -> Result<bool, AllocError> {
    let first = is_answered(alloc, outcome, 0, first)?;
    let second = is_answered(alloc, outcome, 1, second)?;
    let control = outcome.control.as_slice() == control;
    let ended = outcome.status == 0 && !signals.were_given_up();
    Ok(first && second && control && ended)
}
