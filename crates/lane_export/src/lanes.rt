ghost use Rattle.std.specs.Prelude.{◌||◌, ◌≡◌, ℕ, ◌+◌, ◌-◌, ◌^◌, ◌<◌, ◌≤◌, ◌&&◌, Bool, true, false, is_some, List, [], ◌∷◌, ◌++◌, length, map, slice_index_or, All, OnOk, vec_len, vec_capacity, IfOk, IfErr, MatchResult};
ghost use Rattle.std.specs.Thread.{IsSync, IsSend};
ghost use Rattle.std.specs.Fork.{AcceptsAt, ChangesAt};
ghost use Rattle.std.specs.Option.{ForSome};
ghost use Rattle.flat_image.specs.History.{History};
ghost use Rattle.flat_image.specs.declared.act.Act.TheVariants.{Flush};
ghost use Rattle.flat_image.specs.declared.base.Base as bases;
ghost use Rattle.flat_image.specs.Entries.{entry, calls_by, StartsWith};
ghost use Rattle.turn_lock.specs.Locks.{Lock, IsLater};
ghost use Rattle.image_core.specs.Seen.{seen, StandsFor};
ghost use Rattle.shared_image.specs.Turns.{home_of, seat_port, IsIdleSeat, IsSameSeat};
ghost use Rattle.image_control.specs.Seats.{IsSeatOf, HasCounted};
ghost use Rattle.lane_serve.specs.Listeners.{IsFresh};
ghost use Rattle.lane_serve.specs.declared.lane.LaneEnd.{LaneEnd};
ghost use Rattle.lane_export.specs.Ran.{AllRan};
ghost use Rattle.lane_export.specs.Lanes.{is_failed, any_failed, member, LaneRan, LaneDone, LaneIn, AreFirst, first_port, end_by, ExportsLanes, AreDealt, AreGathered, ends_at, control_at, stream_of, ways_of, ControlDone};

use crate::export_end::ExportEnd;
use crate::parts::Control;
use block_disk::Disk;
use byte_ports::{Sink, Source};
use control_session::{ControlEnd, ControlPort, control_laws, serve_control};
use flat_image::{Base, ImagePort, Named, PortFault};
use image_control::ControlSeat;
use image_core::Image;
use image_read::Reader;
use lane_serve::{LaneEnd, Listener, serve_lane};
use layer_shelf::Shelf;
use nbd_session::{Export, Served};
use sector_extent::ListOf;
use shared_image::{ImageSeat, SharedImage};
use std::alloc::Global;
use std::sync::Wait;
use std::thread;
use std::thread::Threads;

// A lane that runs: what one thread has.
#[derive(Drop)]
struct Lane<'a, D: Disk, S: Shelf, L, R> {
    reader: Reader<'a, D, S, R>,
    listener: L,
    end: LaneEnd,
}

// Serves the connections of a lane.
fn run_lane<'a, D: Disk, S: Shelf, L: Listener<E = Served>, R: Wait>(
    alloc: Global,
    export: &Export,
    connections: u64,
    lane: &mut Lane<'a, D, S, L, R>,
)
    requires { IsFresh (L.told lane.old.listener) }
    ensures { LaneRan (ways_of L.A.Source L.B.Sink export.now)
        (member L.told L.faults (⟦<Reader<'a, D, S, R> as ImagePort>⟧.state lane.old.reader) lane.old.listener)
        (member L.told L.faults (⟦<Reader<'a, D, S, R> as ImagePort>⟧.state lane.new.reader) lane.new.listener)
        connections lane.new.end }
{
    let end = serve_lane(
        alloc,
        export,
        connections,
        &mut lane.listener,
        &mut lane.reader,
    );
    lane.end = end;
}

// Serves all lanes, each in a thread of its own where one can be made.
fn run_lanes<
    'a,
    D: Disk + Send,
    S: Shelf + Send,
    L: Listener<E = Served> + Send,
    R: Threads + Wait + Sync,
>(rt: &R, alloc: Global, export: &Export, connections: u64, lanes: &mut [Lane<'a, D, S, L, R>])
    requires { All (λ lane. IsFresh (L.told lane.listener)) lanes.old }
    ensures { AllRan D.tells S.files S.faults L.told L.faults (ways_of L.A.Source L.B.Sink export.now)
        connections lanes.old lanes.new }
{
    let threads = lanes.len().max(1);
    thread::for_each_mut(
        rt,
        lanes,
        threads,
        &|_, lane: &mut Lane<D, S, L, R>|
            requires { IsFresh (L.told lane.now.listener) }
        { run_lane(alloc, export, connections, lane) },
    );
}

// The control as it runs: what one thread has.
#[derive(Drop)]
struct ControlLane<'a, D: Disk, S: Shelf, A, B, R> {
    alloc: Global,
    port: ControlSeat<'a, D, S, R>,
    source: A,
    sink: B,
    end: ControlEnd,
}

// What one thread does.
trait Work {
    ghost ready: { Self → Type 0 };

    ghost done: { Self → Self → Type 0 };

    fn work(&mut self)
        requires { ready self.old }
        ensures { done self.old self.new };
}

fn work_on<X: Work>(x: &mut X)
    requires { X.ready x.old }
    ensures { X.done x.old x.new }
{
    x.work();
}

fn call_with<T, F: Fn(usize, &mut [T])>(call: &F, items: &mut [T])
    requires { AcceptsAt F.Fn call.now 0 items.old }
    ensures { ChangesAt F.Fn call.now 0 items.old items.new }
{
    call(0, items);
}

// Makes the call with these, and does the other work beside it.
fn work_beside<R: Threads, T: Send, F: Fn(usize, &mut [T]) + Sync, Y: Work>(
    rt: &R,
    call: &F,
    other: &mut Y,
    items: &mut [T],
)
    requires call { AcceptsAt F.Fn call.now 0 items.old }
    requires other { Y.ready other.old }
    ensures call { ChangesAt F.Fn call.now 0 items.old items.new }
    ensures other { Y.done other.old other.new }
{
    let mut one = ||
        requires { AcceptsAt F.Fn call.now 0 items.now }
        ensures { ChangesAt F.Fn call.entry.now 0 items.entry.now items.exit.now }
    { call_with(call, items) };
    let mut two = ||
        requires { Y.ready other.now }
        ensures { Y.done other.entry.now other.exit.now }
    { work_on(other) };
    thread::join_mut(rt, &mut one, &mut two);
}

impl<'a, D: Disk, S: Shelf, A: Source, B: Sink, R: Wait> Work for ControlLane<'a, D, S, A, B, R> {
    ghost use Rattle.std.specs.Prelude.{◌≡◌, ⊤};
    ghost use Rattle.control_session.specs.Controls.{control};
    ghost use Rattle.control_session.specs.Sessions.{Serves};
    ghost use Rattle.lane_export.specs.Lanes.{ends_at, stream_of};

    ghost ready = { λ x. ⊤ };

    ghost done = { λ x y.
        Serves control
        (ends_at (stream_of A.Source B.Sink x.source x.sink)
        (⟦<ControlSeat<'a, D, S, R> as ControlPort>⟧.state x.port))
        (ends_at (stream_of A.Source B.Sink y.source y.sink)
        (⟦<ControlSeat<'a, D, S, R> as ControlPort>⟧.state y.port)) y.end
        × ((⟦<ControlSeat<'a, D, S, R> as ControlPort>⟧.state y.port).home
        ≡ (⟦<ControlSeat<'a, D, S, R> as ControlPort>⟧.state x.port).home)
        × ((⟦<ControlSeat<'a, D, S, R> as ControlPort>⟧.state y.port).number
        ≡ (⟦<ControlSeat<'a, D, S, R> as ControlPort>⟧.state x.port).number) };

    fn work(&mut self) {
        control_laws();
        let end = serve_control(self.alloc, &mut self.source, &mut self.sink, &mut self.port);
        self.end = end;
    }
}

// Serves all lanes, and does the other work beside them.
fn run_all<
    'a,
    D: Disk + Send,
    S: Shelf + Send,
    L: Listener<E = Served> + Send,
    Y: Work,
    R: Threads + Wait + Sync,
>(
    rt: &R,
    alloc: Global,
    export: &Export,
    connections: u64,
    other: &mut Y,
    lanes: &mut [Lane<'a, D, S, L, R>],
)
    requires fresh { All (λ lane. IsFresh (L.told lane.listener)) lanes.old }
    requires other { Y.ready other.old }
    ensures lanes { AllRan D.tells S.files S.faults L.told L.faults (ways_of L.A.Source L.B.Sink export.now)
        connections lanes.old lanes.new }
    ensures other { Y.done other.old other.new }
{
    let serve = |_: usize, lanes: &mut [Lane<D, S, L, R>]|
        requires { IsSync R.row × IsSend D.row × IsSend S.row × IsSend L.row
            × All (λ lane. IsFresh (L.told lane.listener)) lanes.now }
        ensures { AllRan D.tells S.files S.faults L.told L.faults
            (ways_of L.A.Source L.B.Sink export.entry.now)
            connections lanes.entry.now lanes.exit.now }
    { run_lanes(rt, alloc, export, connections, lanes) };
    work_beside(rt, &serve, other, lanes);
}

// Makes the lanes behind those that are there: a seat and a shelf become a reader.
fn deal<'a, D: Disk + Drop, S: Shelf + Drop, L: Listener<E = Served> + Drop, R: Wait>(
    rt: &'a R,
    alloc: Global,
    image: &'a SharedImage<D>,
    seats: Vec<ImageSeat<D>>,
    pairs: Vec<(S, L)>,
    lanes: &mut Vec<Lane<'a, D, S, L, R>>,
)
    requires seats { AreFirst image.now.id seats.items }
    requires same { length seats.items ≡ length pairs.items }
    requires room { (lanes.old.items ≡ []) × (length pairs.items ≤ vec_capacity lanes.old) }
    requires first { image.now.first ≤ 2 ^ 62 }
    requires shelves { All (λ pair. (S.count pair.0 ≡ length image.now.base.lowers)
        × ForSome (S.files pair.0) (λ files. files ≡ image.now.base.lowers)) pairs.items }
    requires fresh { All (λ pair. IsFresh (L.told pair.1)) pairs.items }
    ensures count { length lanes.new.items ≡ length pairs.items }
    ensures room { vec_capacity lanes.new ≡ vec_capacity lanes.old }
    ensures ports { AreDealt (λ lane. ⟦<Reader<'a, D, S, R> as ImagePort>⟧.state lane.reader)
        (λ lane. lane.listener)
        (λ number pair. first_port (D.tells && is_some (S.files pair.0)) image.now number (S.faults pair.0))
        (λ pair. pair.1) pairs.items lanes.new.items }
{
    let mut seats = seats;
    let mut pairs = pairs;
    let Some((shelf, listener)) = pairs.pop() else {
        return;
    };
    let Some(seat) = seats.pop() else {
        unreachable!()
    };
    deal(rt, alloc, image, seats, pairs, lanes);
    let reader = Reader::new(rt, alloc, image, seat, shelf);
    lanes.push_reserved(Lane {
        reader,
        listener,
        end: LaneEnd::NoMore,
    });
}

fn has_failed(end: LaneEnd) -> bool
    ensures { result ≡ is_failed end }
{
    matches!(end, LaneEnd::Failed)
}

fn either(first: bool, second: bool) -> bool
    ensures { result ≡ (first || second) }
{
    first || second
}

// Takes the lanes apart, and answers whether the listener of one has failed. The control's seat meets
// the seat of each.
fn gather<'a, D: Disk + Drop, S: Shelf + Drop, L: Listener<E = Served> + Drop, R: Wait>(
    image: &SharedImage<D>,
    control: &mut ImageSeat<D>,
    lanes: Vec<Lane<'a, D, S, L, R>>,
    seats: &mut Vec<ImageSeat<D>>,
    pairs: &mut Vec<(S, L)>,
) -> bool
    requires control { IsIdleSeat image.now control.old }
    requires homes { All (λ lane. (⟦<Reader<'a, D, S, R> as ImagePort>⟧.state lane.reader).home
        ≡ home_of image.now.id) lanes.items }
    requires seat_room { (seats.old.items ≡ []) × (length lanes.items ≤ vec_capacity seats.old) }
    requires pair_room { (pairs.old.items ≡ []) × (length lanes.items ≤ vec_capacity pairs.old) }
    ensures capacity { (vec_capacity seats.new ≡ vec_capacity seats.old)
        × (vec_capacity pairs.new ≡ vec_capacity pairs.old) }
    ensures same { IsSameSeat control.old control.new }
    ensures later { IsLater control.old control.new }
    ensures each { AreGathered (λ lane. ⟦<Reader<'a, D, S, R> as ImagePort>⟧.state lane.reader)
        (λ pair. S.faults pair.0) control.new.seen lanes.entry.items seats.new.items pairs.new.items }
    ensures listeners { map (λ pair. pair.1) pairs.new.items ≡ map (λ lane. lane.listener) lanes.entry.items }
    ensures failed { result ≡ any_failed (map (λ lane. lane.end) lanes.entry.items) }
{
    let mut lanes = lanes;
    let Some(lane) = lanes.pop() else {
        return false;
    };
    let failed = gather(image, control, lanes, seats, pairs);
    let Lane {
        reader,
        listener,
        end,
    } = lane;
    let (seat, shelf) = reader.into_parts();
    let mut seat = seat;
    let _ = image.meet(&mut seat, control);
    seats.push_reserved(seat);
    pairs.push_reserved((shelf, listener));
    either(failed, has_failed(end))
}

// Makes the lane of the control.
fn control_lane<'a, D: Disk, S: Shelf, A: Source, B: Sink, R: Wait>(
    rt: &'a R,
    alloc: Global,
    image: &'a SharedImage<D>,
    seat: ImageSeat<D>,
    control: Control<S, A, B>,
) -> ControlLane<'a, D, S, A, B, R>
    requires seat { IsIdleSeat image.now seat }
    requires count { S.count control.shelf ≡ length image.now.base.lowers }
    requires told { ForSome (S.files control.shelf) (λ files. files ≡ image.now.base.lowers) }
    ensures port { ⟦<ControlSeat<'a, D, S, R> as ControlPort>⟧.state result.port
        ≡ seat_port (D.tells && is_some (S.files control.shelf)) image.now seat (S.faults control.shelf) }
    ensures stream { stream_of A.Source B.Sink result.source result.sink
        ≡ stream_of A.Source B.Sink control.source control.sink }
{
    let Control {
        shelf,
        source,
        sink,
    } = control;
    ControlLane {
        alloc,
        port: ControlSeat::new(rt, alloc, image, seat, shelf),
        source,
        sink,
        end: ControlEnd::Ended,
    }
}

// The seat of the control, and its shelf and stream.
fn control_back<'a, D: Disk + Drop, S: Shelf + Drop, A: Source, B: Sink, R: Wait>(
    lane: ControlLane<'a, D, S, A, B, R>,
) -> (ImageSeat<D>, Control<S, A, B>, ControlEnd)
    ensures seat { IsSeatOf (⟦<ControlSeat<'a, D, S, R> as ControlPort>⟧.state lane.entry.port) result.0 }
    ensures faults { HasCounted (⟦<ControlSeat<'a, D, S, R> as ControlPort>⟧.state lane.entry.port) result.0
        (S.faults result.1.shelf) }
    ensures stream { stream_of A.Source B.Sink result.1.source result.1.sink
        ≡ stream_of A.Source B.Sink lane.entry.source lane.entry.sink }
    ensures end { result.2 ≡ lane.entry.end }
{
    let ControlLane {
        alloc: _,
        port,
        source,
        sink,
        end,
    } = lane;
    let (seat, shelf) = port.into_parts();
    (
        seat,
        Control {
            shelf,
            source,
            sink,
        },
        end,
    )
}

// Serves all lanes of a shared image and its control in threads, and gives the lanes' seats, shelves and
// listeners back, and the seat of the control, which has met them. Without memory nothing was served.
fn serve_in_lanes<
    'a,
    D: Disk + Send + Drop,
    S: Shelf + Send + Drop,
    L: Listener<E = Served> + Send + Drop,
    A: Source + Send + Drop,
    B: Sink + Send + Drop,
    R: Threads + Wait + Sync,
>(
    rt: &'a R,
    alloc: Global,
    export: &'a Export,
    connections: u64,
    image: &'a SharedImage<D>,
    seat: ImageSeat<D>,
    control: Control<S, A, B>,
    seats: Vec<ImageSeat<D>>,
    pairs: Vec<(S, L)>,
) -> Result<
    (
        Vec<ImageSeat<D>>,
        Vec<(S, L)>,
        bool,
        ImageSeat<D>,
        Control<S, A, B>,
        ControlEnd,
    ),
    (
        Vec<ImageSeat<D>>,
        Vec<(S, L)>,
        ImageSeat<D>,
        Control<S, A, B>,
    ),
>
    requires control { IsIdleSeat image.now seat }
    requires control_count { S.count control.shelf ≡ length image.now.base.lowers }
    requires control_told { ForSome (S.files control.shelf) (λ files. files ≡ image.now.base.lowers) }
    requires seats { AreFirst image.now.id seats.items }
    requires same { length seats.items ≡ length pairs.items }
    requires few { length pairs.items ≤ 16 }
    requires first { image.now.first ≤ 2 ^ 62 }
    requires shelves { All (λ pair. (S.count pair.0 ≡ length image.now.base.lowers)
        × ForSome (S.files pair.0) (λ files. files ≡ image.now.base.lowers)) pairs.items }
    requires fresh { All (λ pair. IsFresh (L.told pair.1)) pairs.items }
    ensures same { IfOk result (λ r. IsSameSeat seat r.3) }
    ensures served { IfOk result (λ r. ControlDone
        (ends_at (stream_of A.Source B.Sink control.source control.sink)
        (seat_port (D.tells && is_some (S.files control.shelf)) image.entry.now seat (S.faults control.shelf)))
        (control_at D.Disk S.Shelf r.4.shelf (stream_of A.Source B.Sink r.4.source r.4.sink)) r.3 r.5) }
    ensures count { IfOk result (λ r. (length r.0.items ≡ length pairs.items) × (length r.1.items ≡ length
        pairs.items) × (length pairs.items < vec_capacity r.0)) }
    ensures met { IfOk result (λ r. All (λ lane. StartsWith r.3.seen lane.seen) r.0.items) }
    ensures lanes { IfOk result (λ r. (ends : List LaneEnd) × (r.2 ≡ any_failed ends) × (length ends ≡ length
        pairs.items) × ((k : ℕ) (e : _) (f : _) (s : _) (d : _) → k < length pairs.items → LaneDone
        (ways_of L.A.Source L.B.Sink export.entry.now)
        (member L.told L.faults
        (first_port (D.tells && is_some (S.files (slice_index_or pairs.items k e).0)) image.entry.now k
        (S.faults (slice_index_or pairs.items k e).0))
        (slice_index_or pairs.items k e).1)
        (L.told (slice_index_or r.1.items k f).1) (L.faults (slice_index_or r.1.items k f).1)
        (S.faults (slice_index_or r.1.items k f).0) (slice_index_or r.0.items k s) connections
        (slice_index_or ends k d))) }
    ensures unserved { IfErr result (λ r. (r.0.items ≡ seats.items) × (vec_capacity r.0 ≡ vec_capacity seats) ×
        (r.1.items ≡ pairs.items) × (r.2 ≡ seat) × (r.3 ≡ control)) }
{
    let count = pairs.len();
    let Ok(mut lanes) = Vec::with_capacity(alloc, count) else {
        return Err((seats, pairs, seat, control));
    };
    let Ok(mut seats_after) = Vec::with_capacity(alloc, count + 1) else {
        return Err((seats, pairs, seat, control));
    };
    let Ok(mut pairs_after) = Vec::with_capacity(alloc, count) else {
        return Err((seats, pairs, seat, control));
    };
    deal(rt, alloc, image, seats, pairs, &mut lanes);
    let mut beside = control_lane(rt, alloc, image, seat, control);
    run_all(
        rt,
        alloc,
        export,
        connections,
        &mut beside,
        lanes.as_mut_slice(),
    );
    let (seat, control, end) = control_back(beside);
    let mut seat = seat;
    let failed = gather(image, &mut seat, lanes, &mut seats_after, &mut pairs_after);
    Ok((seats_after, pairs_after, failed, seat, control, end))
}

// How the export ends.
fn end_by(failed: bool, last: Result<(), PortFault>) -> ExportEnd
    ensures { result ≡ end_by failed last }
{
    if failed {
        return ExportEnd::ListenerFailed;
    }
    match last {
        Ok(()) => ExportEnd::Flushed,
        Err(fault) => match fault {
            PortFault::Worn => ExportEnd::Worn,
            PortFault::Full { .. } => ExportEnd::FlushFailed,
            PortFault::Memory => ExportEnd::FlushFailed,
            PortFault::Failed => ExportEnd::FlushFailed,
        },
    }
}

/// Serves all lanes of an image and its control in threads, each with a seat of its own, and makes one flush
/// at the end with the control's. The image stands for the base that `N` names, and each shelf has its lower
/// layers. Without memory nothing is served, and there is no end of the control.
pub fn export_image<
    N: Named<Base>,
    D: Disk + Send + Drop,
    S: Shelf + Send + Drop,
    L: Listener<E = Served> + Send + Drop,
    A: Source + Send + Drop,
    B: Sink + Send + Drop,
    R: Threads + Wait + Sync,
>(
    rt: &R,
    alloc: Global,
    export: &Export,
    connections: u64,
    image: Image<D>,
    pairs: Vec<(S, L)>,
    control: Control<S, A, B>,
) -> (
    Image<D>,
    Vec<(S, L)>,
    ExportEnd,
    Control<S, A, B>,
    Option<ControlEnd>,
)
    requires stands { StandsFor (seen D.Disk image) N.it [] }
    requires few { length pairs.items ≤ 16 }
    requires shelves { All (λ pair. (S.count pair.0 ≡ length N.it.lowers)
        × ForSome (S.files pair.0) (λ files. files ≡ N.it.lowers)) pairs.items }
    requires control_count { S.count control.shelf ≡ length N.it.lowers }
    requires control_told { ForSome (S.files control.shelf) (λ files. files ≡ N.it.lowers) }
    requires fresh { All (λ pair. IsFresh (L.told pair.1)) pairs.items }
    ensures count { length result.1.items ≡ length pairs.items }
    ensures exports { ExportsLanes
        (ways_of L.A.Source L.B.Sink export.entry.now) D.Disk S.Shelf L.told L.faults N.it pairs.items
        result.1.items connections
        (control_at D.Disk S.Shelf control.shelf (stream_of A.Source B.Sink control.source control.sink))
        (control_at D.Disk S.Shelf result.3.shelf (stream_of A.Source B.Sink result.3.source result.3.sink)) result.4
        (seen D.Disk result.0) result.2 }
{
    let count = pairs.len();
    let (shared, seats) = match SharedImage::start::<N>(alloc, image, count as u32 + 1, 0) {
        Ok(made) => made,
        Err((image, _)) => return (image, pairs, ExportEnd::Memory, control, None),
    };
    let mut seats = seats.into_vec();
    let Some(seat) = seats.pop() else {
        unreachable!()
    };
    match serve_in_lanes(
        rt,
        alloc,
        export,
        connections,
        &shared,
        seat,
        control,
        seats,
        pairs,
    ) {
        Ok((seats, pairs, failed, seat, control, end)) => {
            let mut seats = seats;
            let mut seat = seat;
            let last = shared.flush(rt, &mut seat);
            seats.push_reserved(seat);
            let image = shared.close(ListOf::from_vec(seats));
            (image, pairs, end_by(failed, last), control, Some(end))
        }
        Err((seats, pairs, seat, control)) => {
            let mut seats = seats;
            seats.push_reserved(seat);
            let image = shared.close(ListOf::from_vec(seats));
            (image, pairs, ExportEnd::Memory, control, None)
        }
    }
}
