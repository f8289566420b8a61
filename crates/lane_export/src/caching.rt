//! Shelves of lanes with one cache round them.
ghost use Rattle.std.specs.Prelude.{◌≡◌, ◌+◌, ◌<◌, ◌≤◌, [], ◌++◌, length, map, vec_capacity, All, IfOk, MatchBool, IfErr};
ghost use Rattle.turn_lock.specs.Locks.{AreSeats};
ghost use Rattle.block_cache.specs.CacheTurns.{IsIdleSeat};
ghost use Rattle.lane_export.specs.Caching.{HasFiles, bare};

use crate::kept_shelf::{Files, KeptShelf};
use crate::parts::Control;
use block_cache::{Cache, CacheBase, CacheSeat, SharedCache};
use byte_ports::{Sink, Source};
use flat_image::Named;
use layer_shelf::Shelf;
use range_shelf::CachedShelf;
use sector_extent::Memory;
use std::alloc::Global;
use std::sync::Wait;

/// An empty cache of so many blocks over the files of the shelf, with its seats.
pub(crate) fn start_cache<N: Named<CacheBase>, S: Shelf>(
    alloc: Global,
    blocks: u32,
    seats: u32,
    shelf: &S,
) -> Result<(SharedCache, Vec<CacheSeat>), Memory>
    requires capacity { N.it.capacity ≡ blocks }
    requires files { N.it.files ≡ S.files shelf.now }
    requires blocks { (1 ≤ blocks) × (blocks ≤ 16384) }
    requires seats { 0 < seats }
    ensures files { IfOk result (λ made. made.0.base.files ≡ S.files shelf.now) }
    ensures seats { IfOk result (λ made. AreSeats made.0.id seats made.1.items) }
{
    let _ = shelf;
    let Ok(cache) = Cache::new(alloc, blocks) else {
        return Err(Memory);
    };
    match SharedCache::start::<N>(alloc, cache, seats, 0) {
        Ok((cache, list)) => Ok((cache, list.into_vec())),
        Err((_, memory)) => Err(memory),
    }
}

/// Takes the cache away from shelves, and puts them behind those that are there.
pub(crate) fn uncached<'a, S: Shelf + Drop, F: Files, L: Drop, R: Wait>(
    cached: &mut Vec<(CachedShelf<'a, KeptShelf<S, F>, R>, L)>,
    plain: &mut Vec<(S, L)>,
)
    requires room { length plain.old.items + length cached.old.items ≤ vec_capacity plain.old }
    ensures items { plain.new.items ≡ plain.old.items ++ map bare cached.old.items }
    ensures files { All (λ pair. HasFiles S.Shelf F.told F.count pair.0) (map bare cached.old.items) }
    ensures room { vec_capacity plain.new ≡ vec_capacity plain.old }
    ensures none { cached.new.items ≡ [] }
    ensures cached_room { vec_capacity cached.new ≡ vec_capacity cached.old }
{
    let Some((shelf, listener)) = cached.pop() else {
        return;
    };
    uncached(cached, plain);
    let (shelf, _seat) = shelf.into_parts();
    plain.push_reserved((shelf.into_inner(), listener));
}

/// Puts the cache round the shelves, and answers whether there was memory for all. Where there was not,
/// they come back as they were.
pub(crate) fn cache_all<'a, S: Shelf + Drop, F: Files, L: Drop, R: Wait>(
    rt: &'a R,
    alloc: Global,
    cache: &'a SharedCache,
    seats: Vec<CacheSeat>,
    pairs: Vec<(S, L)>,
    cached: &mut Vec<(CachedShelf<'a, KeptShelf<S, F>, R>, L)>,
    plain: &mut Vec<(S, L)>,
) -> bool
    requires seats { AreSeats cache.now.id (length pairs.items) seats.items }
    requires cache { cache.now.base.files ≡ F.told }
    requires files { All (λ pair. HasFiles S.Shelf F.told F.count pair.0) pairs.items }
    requires cached_room { (cached.old.items ≡ []) × (length pairs.items ≤ vec_capacity cached.old) }
    requires plain_room { (plain.old.items ≡ []) × (length pairs.items ≤ vec_capacity plain.old) }
    ensures room { (vec_capacity cached.new ≡ vec_capacity cached.old)
        × (vec_capacity plain.new ≡ vec_capacity plain.old) }
    ensures all { MatchBool result
        ((map bare cached.new.items ≡ pairs.items) × (plain.new.items ≡ []))
        ((plain.new.items ≡ pairs.items) × (cached.new.items ≡ [])) }
{
    let mut seats = seats;
    let mut pairs = pairs;
    let Some((shelf, listener)) = pairs.pop() else {
        return true;
    };
    let Some(seat) = seats.pop() else {
        unreachable!()
    };
    if !cache_all(rt, alloc, cache, seats, pairs, cached, plain) {
        plain.push_reserved((shelf, listener));
        return false;
    }
    match CachedShelf::new(rt, alloc, KeptShelf::new(shelf), cache, seat) {
        Ok(shelf) => {
            cached.push_reserved((shelf, listener));
            true
        }
        Err((shelf, _, _)) => {
            uncached(cached, plain);
            plain.push_reserved((shelf.into_inner(), listener));
            false
        }
    }
}

/// Puts the cache round the control's shelf. Without memory the control comes back.
pub(crate) fn cache_control<'a, S: Shelf + Drop, F: Files, A: Source, B: Sink, R: Wait>(
    rt: &'a R,
    alloc: Global,
    cache: &'a SharedCache,
    seat: CacheSeat,
    control: Control<S, A, B>,
) -> Result<Control<CachedShelf<'a, KeptShelf<S, F>, R>, A, B>, Control<S, A, B>>
    requires seat { IsIdleSeat cache.now seat }
    requires cache { cache.now.base.files ≡ F.told }
    requires files { HasFiles S.Shelf F.told F.count control.shelf }
    ensures ok { IfOk result (λ cached. (cached.shelf.shelf ≡ control.shelf) × (cached.source ≡ control.source)
        × (cached.sink ≡ control.sink)) }
    ensures err { IfErr result (λ back. back ≡ control) }
{
    let Control {
        shelf,
        source,
        sink,
    } = control;
    match CachedShelf::new(rt, alloc, KeptShelf::new(shelf), cache, seat) {
        Ok(shelf) => Ok(Control {
            shelf,
            source,
            sink,
        }),
        Err((shelf, _, _)) => Err(Control {
            shelf: shelf.into_inner(),
            source,
            sink,
        }),
    }
}

/// Takes the cache away from the control's shelf.
pub(crate) fn uncached_control<'a, S: Shelf + Drop, F: Files, A: Source, B: Sink, R: Wait>(
    control: Control<CachedShelf<'a, KeptShelf<S, F>, R>, A, B>,
) -> Control<S, A, B>
    ensures shelf { result.shelf ≡ control.entry.shelf.shelf }
    ensures files { HasFiles S.Shelf F.told F.count result.shelf }
    ensures stream { (result.source ≡ control.entry.source) × (result.sink ≡ control.entry.sink) }
{
    let Control {
        shelf,
        source,
        sink,
    } = control;
    let (shelf, _seat) = shelf.into_parts();
    Control {
        shelf: shelf.into_inner(),
        source,
        sink,
    }
}
