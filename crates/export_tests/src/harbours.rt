//! Exports of parts in memory.
ghost use Rattle.std.specs.Prelude.{◌≤◌, All, length};
ghost use Rattle.lane_serve.specs.Listeners.{IsFresh};
ghost use Rattle.lane_export.specs.Exporting.{HaveSameFiles};

use crate::clients::{Ask, is_sent, replies};
use crate::images::{no_calls, words_of};
use crate::signals::{CountedShelf, Signal};
use block_disk::MemDisk;
use byte_ports::{MemSink, MemSource, Sink, Source};
use control_session::ControlEnd;
use lane_export::{LaneList, Parts, PartsHarbour, Settings, run_export};
use lane_serve::{Listener, MemListener, TakenList};
use layer_shelf::Shelf;
use nbd_session::{Export, NameBytes, Served};
use sector_extent::{Bytes, CallList, FileTexts};
use std::alloc::{AllocError, Global};
use std::sync::Wait;
use std::test::Fail;
use std::thread::Threads;

/// What an export leaves: its status, its parts, and how its control ended.
#[derive(Drop)]
pub struct Exported<S, L, A, B> {
    pub status: u8,
    pub parts: Parts<MemDisk, S, L, A, B>,
    pub end: Option<ControlEnd>,
}

/// Does what the line says, with these parts.
pub fn export_from<
    S: Shelf + Send + Drop,
    L: Listener<E = Served> + Send + Drop,
    A: Source + Send + Drop,
    B: Sink + Send + Drop,
    R: Threads + Wait + Sync,
>(
    rt: &R,
    alloc: Global,
    line: &str,
    parts: Parts<MemDisk, S, L, A, B>,
) -> Result<Exported<S, L, A, B>, Fail>
    requires same { HaveSameFiles S.files S.count parts.control_shelf parts.lanes }
    requires fresh { All (λ pair. IsFresh (L.told pair.1)) parts.lanes }
{
    let words = words_of(alloc, line)?;
    let Some(name) = NameBytes::from_vec(Vec::new(alloc)) else {
        return Err(Fail::new("a name"));
    };
    let mut harbour = PartsHarbour {
        settings: Settings { cache_blocks: 16 },
        export: Export {
            name,
            read_only: false,
        },
        at_home: Some(parts),
        end: None,
    };
    let status = run_export(rt, alloc, &words, &mut harbour);
    let PartsHarbour {
        settings: _,
        export: _,
        at_home,
        end,
    } = harbour;
    match at_home {
        Some(parts) => Ok(Exported {
            status: status.code,
            parts,
            end,
        }),
        None => Err(Fail::new("the parts are not at home")),
    }
}

/// Does what the line says, with one lane over this shelf, these connections, a listener whose calls of
/// these numbers fail, and a control without lines. It answers the status, and what came back.
pub fn export_one<S: Shelf + Send + Drop, R: Threads + Wait + Sync>(
    rt: &R,
    alloc: Global,
    line: &str,
    disk: MemDisk,
    shelf: S,
    control_shelf: S,
    connections: FileTexts,
    failing: CallList,
) -> Result<(u8, TakenList<Served>), Fail> {
    let signal = Signal::new();
    let reads = &signal;
    let shelf = CountedShelf {
        files: shelf,
        reads,
    };
    let control_shelf = CountedShelf {
        files: control_shelf,
        reads,
    };
    if shelf.count() != control_shelf.count() {
        return Err(Fail::new("other files"));
    }
    let listener = MemListener::new(alloc, connections, failing);
    let mut lanes = Vec::new(alloc);
    lanes.push((shelf, listener))?;
    let parts = Parts {
        disk,
        lanes: LaneList::from_vec(lanes),
        control_shelf,
        control_source: MemSource::new(Bytes::from_vec(Vec::new(alloc)), no_calls(alloc)),
        control_sink: MemSink::new(alloc, no_calls(alloc)),
    };
    let Exported {
        status,
        parts,
        end: _,
    } = export_from(rt, alloc, line, parts)?;
    let Parts {
        disk: _,
        lanes,
        control_shelf: _,
        control_source: _,
        control_sink: _,
    } = parts;
    let Some((_, listener)) = lanes.into_vec().pop() else {
        return Err(Fail::new("a lane"));
    };
    Ok((status, listener.into_taken()))
}

/// How many connections came back, all of them with the replies to this; none where one of them has others.
pub fn answered(
    alloc: Global,
    taken: TakenList<Served>,
    asks: &[Ask],
) -> Result<Option<usize>, AllocError> {
    let wanted = replies(alloc, asks)?;
    let connections = taken.into_vec();
    let count = connections.len();
    for connection in connections {
        let sent = connection.sink.into_bytes();
        if connection.end != Served::Done || !is_sent(sent.as_slice(), &wanted) {
            return Ok(None);
        }
    }
    Ok(Some(count))
}
