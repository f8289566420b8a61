//! The command that serves an image.
ghost use Rattle.std.specs.Prelude.{◌≡◌, ◌⊎◌, false, map, string_bytes, length, Some, None, IsSome, IfSome, IfOk, IfErr, All};
ghost use Rattle.layer_commands.specs.declared.refusal.Refusal.TheVariants as refused;
ghost use Rattle.tool_setup.specs.Words.{command_of};
ghost use Rattle.lane_serve.specs.Listeners.{IsFresh};
ghost use Rattle.lane_export.specs.Lanes.{ways_of};
ghost use Rattle.lane_export.specs.Exporting.{HaveSameFiles, HasExported, IsComplete, RunsWords, connections_if, moment};
ghost use Rattle.lane_export.specs.declared.parts.Parts.{Parts};

use crate::harbour::Harbour;
use crate::opening::export_disk;
use crate::parts::{Control, LaneList, Parts, Settings};
use block_disk::Disk;
use byte_ports::{Sink, Source};
use control_session::ControlEnd;
use lane_serve::Listener;
use layer_commands::Refusal;
use layer_shelf::Shelf;
use nbd_session::{Export, Served};
use std::alloc::Global;
use std::sync::Wait;
use std::thread::Threads;
use tool_setup::{Command, WordList, WordsFault, read_words};

/// How an export ends: 0 where all lanes were served and the last flush was made, else 2 to 6.
#[derive(Clone, Copy, Debug, PartialEq, Eq)]
pub struct Status {
    pub code: u8,
}

// How many connections each lane serves. Words that are no export are a faulty command line.
fn read_connections(alloc: Global, words: &WordList) -> Result<u64, Refusal>
    ensures ok { IfOk result (λ connections.
        connections_if (command_of (map string_bytes words.now)) ≡ Some connections) }
    ensures err { IfErr result (λ refusal. (refusal ≡ refused.Memory)
        ⊎ ((refusal ≡ refused.Usage) × (connections_if (command_of (map string_bytes words.now)) ≡ None))) }
{
    match read_words(alloc, words) {
        Ok(Command::Export { connections }) => Ok(connections),
        Ok(_) => Err(Refusal::Usage),
        Err(WordsFault::Memory) => Err(Refusal::Memory),
        Err(_) => Err(Refusal::Usage),
    }
}

// Serves the image of these parts, and answers the status, and how the control ended where it was served.
fn export_parts<
    D: Disk + Send + Drop,
    S: Shelf + Send + Drop,
    L: Listener<E = Served> + Send + Drop,
    A: Source + Send + Drop,
    B: Sink + Send + Drop,
    R: Threads + Wait + Sync,
>(
    rt: &R,
    alloc: Global,
    export: &Export,
    settings: Settings,
    connections: u64,
    parts: Parts<D, S, L, A, B>,
) -> (Parts<D, S, L, A, B>, u8, Option<ControlEnd>)
    requires same { HaveSameFiles S.files S.count parts.control_shelf parts.lanes }
    requires fresh { All (λ pair. IsFresh (L.told pair.1)) parts.lanes }
    ensures exports { HasExported
        (ways_of L.A.Source L.B.Sink export.entry.now)
        D.Disk S.Shelf L.told L.faults
        (moment A.Source B.Sink parts.disk parts.control_shelf parts.lanes parts.control_source parts.control_sink)
        (moment A.Source B.Sink result.0.disk result.0.control_shelf result.0.lanes result.0.control_source
        result.0.control_sink)
        connections result.2 result.1 }
    ensures complete { IsComplete
        (ways_of L.A.Source L.B.Sink export.entry.now)
        D.Disk S.Shelf L.told L.faults
        (moment A.Source B.Sink parts.disk parts.control_shelf parts.lanes parts.control_source parts.control_sink)
        (moment A.Source B.Sink result.0.disk result.0.control_shelf result.0.lanes result.0.control_source
        result.0.control_sink)
        connections result.2 result.1 }
{
    let Parts {
        disk,
        lanes,
        control_shelf,
        control_source,
        control_sink,
    } = parts;
    let control = Control {
        shelf: control_shelf,
        source: control_source,
        sink: control_sink,
    };
    let (disk, lanes, control, code, end) = export_disk(
        rt,
        alloc,
        export,
        settings,
        connections,
        disk,
        lanes.into_vec(),
        control,
    );
    let Control {
        shelf,
        source,
        sink,
    } = control;
    let parts = Parts {
        disk,
        lanes: LaneList::from_vec(lanes),
        control_shelf: shelf,
        control_source: source,
        control_sink: sink,
    };
    (parts, code, end)
}

/// Does `export`: opens the image on the harbour's disk over the layers of the control's shelf, serves
/// its lanes and the control's stream with one cache round their shelves, makes a last flush, and gives the
/// parts back, with how the control ended where it was served.
pub fn run_export<W: Harbour, R: Threads + Wait + Sync>(
    rt: &R,
    alloc: Global,
    words: &WordList,
    harbour: &mut W,
) -> Status
    requires home { IsSome (W.home harbour.old) }
    requires same { IfSome (W.home harbour.old) (λ parts.
        HaveSameFiles W.S.files W.S.count parts.control_shelf parts.lanes) }
    requires fresh { IfSome (W.home harbour.old) (λ parts. All (λ pair. IsFresh (W.L.told pair.1)) parts.lanes) }
    ensures home { IsSome (W.home harbour.new) }
    ensures kept { (W.set_to harbour.new ≡ W.set_to harbour.old) × (W.exported harbour.new ≡ W.exported harbour.old) }
    ensures runs { RunsWords (connections_if (command_of (map string_bytes words.now))) (harbour.new ≡ harbour.old)
        (λ connections. IfSome (W.home harbour.old) (λ before. IfSome (W.home harbour.new) (λ after. HasExported
        (ways_of W.L.A.Source W.L.B.Sink (W.exported harbour.old))
        W.D.Disk W.S.Shelf W.L.told W.L.faults
        (moment W.A.Source W.B.Sink before.disk before.control_shelf before.lanes before.control_source
        before.control_sink)
        (moment W.A.Source W.B.Sink after.disk after.control_shelf after.lanes after.control_source after.control_sink)
        connections (W.end harbour.new) result.code))) result.code }
    ensures complete { IfSome (connections_if (command_of (map string_bytes words.now))) (λ connections.
        IfSome (W.home harbour.old) (λ before. IfSome (W.home harbour.new) (λ after. IsComplete
        (ways_of W.L.A.Source W.L.B.Sink (W.exported harbour.old))
        W.D.Disk W.S.Shelf W.L.told W.L.faults
        (moment W.A.Source W.B.Sink before.disk before.control_shelf before.lanes before.control_source
        before.control_sink)
        (moment W.A.Source W.B.Sink after.disk after.control_shelf after.lanes after.control_source after.control_sink)
        connections (W.end harbour.new) result.code))) }
{
    let connections = match read_connections(alloc, words) {
        Ok(connections) => connections,
        Err(refusal) => {
            return Status {
                code: refusal.code(),
            };
        }
    };
    let settings = harbour.settings();
    let parts = harbour.take();
    let (parts, code, end) = export_parts(
        rt,
        alloc,
        harbour.export(),
        settings,
        connections,
        parts,
    );
    harbour.give_back(parts, end);
    Status { code }
}
