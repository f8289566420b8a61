//! Lanes over one image and one cache.
ghost use Rattle.std.specs.Prelude.{◌≡◌, ◌+◌, ◌≤◌, ◌&&◌, [], is_some, false, length, All};
ghost use Rattle.turn_lock.specs.Locks.{AreSeats};
ghost use Rattle.image_core.specs.Seen.{seen, StandsFor};
ghost use Rattle.std.specs.Option.{ForSome};
ghost use Rattle.lane_serve.specs.Listeners.{IsFresh};
ghost use Rattle.layer_shelf.specs.Shelves.{SameFiles};
ghost use Rattle.lane_export.specs.Caching.{HasFiles};
ghost use Rattle.lane_export.specs.Exporting.{HaveSameFiles};
ghost use Rattle.lane_export.specs.Lanes.{ExportsLanes, control_at, stream_of, ways_of};

use crate::caching::{cache_all, cache_control, start_cache, uncached, uncached_control};
use crate::export_end::ExportEnd;
use crate::kept_shelf::Files;
use crate::lanes::export_image;
use crate::parts::Control;
use block_cache::{CacheSeat, SharedCache};
use block_disk::Disk;
use byte_ports::{Sink, Source};
use control_session::ControlEnd;
use flat_image::{Base, Named};
use image_core::Image;
use lane_serve::Listener;
use layer_shelf::Shelf;
use nbd_session::{Export, Served};
use std::alloc::Global;
use std::marker::Brand;
use std::sync::Wait;
use std::thread::Threads;
use turn_lock::Said;

// Serves all lanes and the control of an image that stands for this base, which `N` names.
fn export_named<
    N: Named<Base>,
    D: Disk + Send + Drop,
    S: Shelf + Send + Drop,
    L: Listener<E = Served> + Send + Drop,
    A: Source + Send + Drop,
    B: Sink + Send + Drop,
    R: Threads + Wait + Sync,
>(
    rt: &R,
    alloc: Global,
    export: &Export,
    connections: u64,
    base: Said<Base>,
    image: Image<D>,
    pairs: Vec<(S, L)>,
    control: Control<S, A, B>,
) -> (
    Image<D>,
    Vec<(S, L)>,
    ExportEnd,
    Control<S, A, B>,
    Option<ControlEnd>,
)
    requires named { N.it ≡ base.value }
    requires stands { StandsFor (seen D.Disk image) base.value [] }
    requires few { length pairs.items ≤ 16 }
    requires shelves { All (λ pair. (S.count pair.0 ≡ length base.value.lowers)
        × ForSome (S.files pair.0) (λ files. files ≡ base.value.lowers)) pairs.items }
    requires control_count { S.count control.shelf ≡ length base.value.lowers }
    requires control_told { ForSome (S.files control.shelf) (λ files. files ≡ base.value.lowers) }
    requires fresh { All (λ pair. IsFresh (L.told pair.1)) pairs.items }
    ensures count { length result.1.items ≡ length pairs.items }
    ensures exports { ExportsLanes
        (ways_of L.A.Source L.B.Sink export.entry.now) D.Disk S.Shelf L.told L.faults base.value pairs.items
        result.1.items connections
        (control_at D.Disk S.Shelf control.shelf (stream_of A.Source B.Sink control.source control.sink))
        (control_at D.Disk S.Shelf result.3.shelf (stream_of A.Source B.Sink result.3.source result.3.sink)) result.4
        (seen D.Disk result.0) result.2 }
{
    let _ = base;
    export_image::<N, D, S, L, A, B, R>(rt, alloc, export, connections, image, pairs, control)
}

// Serves all lanes and the control of an image, with this cache round their shelves, whose files `F` names.
fn export_with<
    F: Files + Send + Drop,
    D: Disk + Send + Drop,
    S: Shelf + Send + Drop,
    L: Listener<E = Served> + Send + Drop,
    A: Source + Send + Drop,
    B: Sink + Send + Drop,
    R: Threads + Wait + Sync,
>(
    rt: &R,
    alloc: Global,
    export: &Export,
    connections: u64,
    base: Said<Base>,
    cache: &SharedCache,
    seats: Vec<CacheSeat>,
    image: Image<D>,
    pairs: Vec<(S, L)>,
    control: Control<S, A, B>,
) -> (
    Image<D>,
    Vec<(S, L)>,
    ExportEnd,
    Control<S, A, B>,
    Option<ControlEnd>,
)
    requires stands { StandsFor (seen D.Disk image) base.value [] }
    requires few { length pairs.items ≤ 16 }
    requires seats { AreSeats cache.now.id (length pairs.items + 1) seats.items }
    requires cache { cache.now.base.files ≡ F.told }
    requires files { All (λ pair. HasFiles S.Shelf F.told F.count pair.0) pairs.items }
    requires control_files { HasFiles S.Shelf F.told F.count control.shelf }
    requires shelves { All (λ pair. (S.count pair.0 ≡ length base.value.lowers)
        × ForSome (S.files pair.0) (λ files. files ≡ base.value.lowers)) pairs.items }
    requires control_count { S.count control.shelf ≡ length base.value.lowers }
    requires control_told { ForSome (S.files control.shelf) (λ files. files ≡ base.value.lowers) }
    requires fresh { All (λ pair. IsFresh (L.told pair.1)) pairs.items }
    ensures count { length result.1.items ≡ length pairs.items }
    ensures files { All (λ pair. HasFiles S.Shelf F.told F.count pair.0) result.1.items }
    ensures control_files { HasFiles S.Shelf F.told F.count result.3.shelf }
    ensures exports { ExportsLanes
        (ways_of L.A.Source L.B.Sink export.entry.now) D.Disk S.Shelf L.told L.faults base.value pairs.items
        result.1.items connections
        (control_at D.Disk S.Shelf control.shelf (stream_of A.Source B.Sink control.source control.sink))
        (control_at D.Disk S.Shelf result.3.shelf (stream_of A.Source B.Sink result.3.source result.3.sink)) result.4
        (seen D.Disk result.0) result.2 }
{
    let count = pairs.len();
    let Ok(mut plain) = Vec::with_capacity(alloc, count) else {
        return (image, pairs, ExportEnd::Memory, control, None);
    };
    let Ok(mut cached) = Vec::with_capacity(alloc, count) else {
        return (image, pairs, ExportEnd::Memory, control, None);
    };
    let mut seats = seats;
    let Some(seat) = seats.pop() else {
        unreachable!()
    };
    let control = match cache_control::<S, F, _, _, _>(rt, alloc, cache, seat, control) {
        Ok(control) => control,
        Err(control) => return (image, pairs, ExportEnd::Memory, control, None),
    };
    if !cache_all(rt, alloc, cache, seats, pairs, &mut cached, &mut plain) {
        return (
            image,
            plain,
            ExportEnd::Memory,
            uncached_control(control),
            None,
        );
    }
    let (image, cached, end, control, control_end) = export_named::<Brand, _, _, _, _, _, _>(
        rt,
        alloc,
        export,
        connections,
        base,
        image,
        cached,
        control,
    );
    let mut cached = cached;
    uncached(&mut cached, &mut plain);
    (image, plain, end, uncached_control(control), control_end)
}

/// Serves all lanes of an image and its control, with one cache of so many blocks round their shelves, which
/// have the same files: the lower layers of the image.
pub(crate) fn export_cached<
    D: Disk + Send + Drop,
    S: Shelf + Send + Drop,
    L: Listener<E = Served> + Send + Drop,
    A: Source + Send + Drop,
    B: Sink + Send + Drop,
    R: Threads + Wait + Sync,
>(
    rt: &R,
    alloc: Global,
    export: &Export,
    blocks: u32,
    connections: u64,
    base: Said<Base>,
    image: Image<D>,
    pairs: Vec<(S, L)>,
    control: Control<S, A, B>,
) -> (
    Image<D>,
    Vec<(S, L)>,
    ExportEnd,
    Control<S, A, B>,
    Option<ControlEnd>,
)
    requires blocks { (1 ≤ blocks) × (blocks ≤ 16384) }
    requires stands { StandsFor (seen D.Disk image) base.value [] }
    requires some { 1 ≤ length pairs.items }
    requires few { length pairs.items ≤ 16 }
    requires same { HaveSameFiles S.files S.count control.shelf pairs.items }
    requires control_count { S.count control.shelf ≡ length base.value.lowers }
    requires control_told { ForSome (S.files control.shelf) (λ files. files ≡ base.value.lowers) }
    requires fresh { All (λ pair. IsFresh (L.told pair.1)) pairs.items }
    ensures count { length result.1.items ≡ length pairs.items }
    ensures files { HaveSameFiles S.files S.count result.3.shelf result.1.items }
    ensures control_files { SameFiles S.files S.count control.shelf result.3.shelf }
    ensures exports { ExportsLanes
        (ways_of L.A.Source L.B.Sink export.entry.now) D.Disk S.Shelf L.told L.faults base.value pairs.items
        result.1.items connections
        (control_at D.Disk S.Shelf control.shelf (stream_of A.Source B.Sink control.source control.sink))
        (control_at D.Disk S.Shelf result.3.shelf (stream_of A.Source B.Sink result.3.source result.3.sink)) result.4
        (seen D.Disk result.0) result.2 }
{
    let count = pairs.len();
    match start_cache::<Brand, S>(alloc, blocks, count as u32 + 1, &control.shelf) {
        Ok((cache, seats)) => export_with::<Brand, _, _, _, _, _, _>(
            rt,
            alloc,
            export,
            connections,
            base,
            &cache,
            seats,
            image,
            pairs,
            control,
        ),
        Err(_) => (image, pairs, ExportEnd::Memory, control, None),
    }
}
