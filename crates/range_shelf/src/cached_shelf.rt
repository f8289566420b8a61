//! A shelf whose reads go through a shared cache.
ghost use Rattle.std.specs.Prelude.{◌≡◌, ℕ, ◌+◌, ◌*◌, ◌/◌, ◌^◌, ◌<◌, ◌≤◌, ◌++◌, [], length, take, drop, OnOk, OnErr, IfOk, IfErr, IfSome, IsErr, MatchResult};
ghost use Rattle.sector_extent.specs.Causes.{Charges};
ghost use Rattle.layer_shelf.specs.Shelves.{file_at, SameFiles};
ghost use Rattle.block_cache.specs.Blocks.{block_of, IsPart};
ghost use Rattle.block_cache.specs.CacheTurns.{IsIdleSeat};
ghost use Rattle.range_shelf.specs.CachedReads.{CachedState, touched, ReadsPart, LosesPart, ReadsBlocks, LosesBlock};

use block_cache::{BLOCK, CacheSeat, Key, SharedCache};
use layer_shelf::{Shelf, ShelfFailed};
use sector_extent::Memory;
use std::alloc::Global;
use std::marker::Model;
use std::sync::Wait;

/// A shelf whose blocks are kept in a shared cache. It answers what its inner shelf answers. A read
/// looks up each block that it touches; a block that is not in is read whole and put in. Once the
/// cache is worn out, reads go straight to the inner shelf.
#[derive(Drop)]
pub struct CachedShelf<'a, S: Shelf, R> {
    rt: &'a R,
    cache: &'a SharedCache,
    seat: CacheSeat,
    shelf: S,
    // Room for one block.
    block: Vec<u8>,
}

impl<'a, S: Shelf, R> Model for CachedShelf<'a, S, R> {
    ghost use Rattle.std.specs.Prelude.{◌≡◌, vec_len};
    ghost use Rattle.block_cache.specs.CacheTurns.{IsIdleSeat};
    ghost use Rattle.range_shelf.specs.CachedReads.{CachedState};

    ghost Value = { CachedState S };

    ghost view = { λ s. record { shelf = s.shelf; seat = s.seat; cache = s.cache.now } };

    ghost invariant = { λ s. IsIdleSeat s.cache.now s.seat × (s.cache.now.base.files ≡ S.files s.shelf)
        × (vec_len s.block ≡ 65536) };
}

impl<'a, S: Shelf, R> CachedShelf<'a, S, R> {
    /// The cache's files are those that the shelf tells.
    pub fn new(
        rt: &'a R,
        alloc: Global,
        shelf: S,
        cache: &'a SharedCache,
        seat: CacheSeat,
    ) -> Result<CachedShelf<'a, S, R>, (S, CacheSeat, Memory)>
        requires seat { IsIdleSeat cache.now seat }
        requires files { cache.now.base.files ≡ S.files shelf }
        ensures ok { IfOk result (λ made. made ≡ record { shelf = shelf; seat = seat; cache = cache.now }) }
        ensures err { IfErr result (λ back. (back.0 ≡ shelf) × (back.1 ≡ seat)) }
    {
        match vec![in alloc; 0; BLOCK] {
            Ok(block) => Ok(CachedShelf {
                rt,
                cache,
                seat,
                shelf,
                block,
            }),
            Err(_) => Err((shelf, seat, Memory)),
        }
    }

    /// The shelf and the seat.
    pub fn into_parts(self) -> (S, CacheSeat)
        ensures parts { (result.0 ≡ self.entry.shelf) × (result.1 ≡ self.entry.seat) }
        ensures seat { IsIdleSeat self.entry.cache result.1 }
        ensures files { self.entry.cache.base.files ≡ S.files result.0 }
    {
        let CachedShelf {
            rt: _,
            cache: _,
            seat,
            shelf,
            block: _,
        } = self;
        (shelf, seat)
    }
}

impl<'a, S: Shelf, R: Wait> Shelf for CachedShelf<'a, S, R> {
    ghost files = { λ s. S.files s.shelf };

    ghost count = { λ s. S.count s.shelf };

    ghost faults = { λ s. S.faults s.shelf };

    ghost counted = { λ s. S.counted s.shelf };

    fn count(&self) -> u32 {
        self.shelf.count()
    }

    fn length(&mut self, k: u32) -> Result<u64, ShelfFailed>
        requires { k < S.count self.old.shelf }
        ensures length { IfOk result (λ n. IfSome (S.files self.old.shelf) (λ list. n ≡ length (file_at list k))) }
        ensures limit { IfOk result (λ n. n ≤ 2 ^ 50) }
        ensures same { SameFiles (λ (s : CachedState S). S.files s.shelf) (λ (s : CachedState S). S.count s.shelf)
            self.old self.new }
        ensures cause { Charges (λ (s : CachedState S). S.faults s.shelf) self.old self.new (IsErr result) }
        ensures same_cache { self.new.cache ≡ self.old.cache }
        ensures same_seat { self.new.seat ≡ self.old.seat }
    {
        self.shelf.length(k)
    }

    fn read(&mut self, k: u32, at: u64, out: &mut [u8]) -> Result<(), ShelfFailed>
        requires file { k < S.count self.old.shelf }
        requires range { at + length out.old ≤ 2 ^ 50 }
        ensures bytes { OnOk result (IfSome (S.files self.old.shelf) (λ list.
            out.new ≡ take (length out.old) (drop at (file_at list k)))) }
        ensures within { OnOk result (IfSome (S.files self.old.shelf) (λ list.
            0 < length out.old → at + length out.old ≤ length (file_at list k))) }
        ensures same { SameFiles (λ (s : CachedState S). S.files s.shelf) (λ (s : CachedState S). S.count s.shelf)
            self.old self.new }
        ensures cause { Charges (λ (s : CachedState S). S.faults s.shelf) self.old self.new (IsErr result) }
        ensures same_cache { self.new.cache ≡ self.old.cache }
        ensures notes { let end = at + length out.old in let touches = touched at (length out.old) in MatchResult result
            (λ _. ReadsBlocks self.old.cache k at end touches self.old.seat self.new.seat)
            (λ _. LosesBlock self.old.cache k at end touches self.old.seat self.new.seat) }
    {
        read_blocks(
            self.rt,
            self.cache,
            &mut self.seat,
            &mut self.shelf,
            self.block.as_mut_slice(),
            k,
            at,
            out,
        )
    }
}

// Reads a whole block of a file, and no less than the bytes up to `until`. It answers how many bytes.
fn read_whole<S: Shelf>(
    shelf: &mut S,
    key: Key,
    until: usize,
    block: &mut [u8],
) -> Result<usize, ShelfFailed>
    requires file { key.layer < S.count shelf.old }
    requires some { (0 < until) × (until ≤ 65536) }
    requires range { 65536 * key.block + until ≤ 2 ^ 50 }
    requires room { length block.old ≡ 65536 }
    ensures count { IfOk result (λ count. (until ≤ count) × (count ≤ 65536)) }
    ensures bytes { IfOk result (λ count. IfSome (S.files shelf.old) (λ files.
        take count block.new ≡ block_of files key)) }
    ensures same { SameFiles S.files S.count shelf.old shelf.new }
    ensures cause { Charges S.faults shelf.old shelf.new (IsErr result) }
{
    let start = BLOCK as u64 * key.block;
    let length = shelf.length(key.layer)?;
    let whole = length.saturating_sub(start).min(BLOCK as u64) as usize;
    let count = whole.max(until);
    let (bytes, _) = block.split_at_mut(count);
    shelf.read(key.layer, start, bytes)?;
    Ok(count)
}

// Reads a part of a block, through the cache.
fn read_part<S: Shelf, R: Wait>(
    rt: &R,
    cache: &SharedCache,
    seat: &mut CacheSeat,
    shelf: &mut S,
    block: &mut [u8],
    key: Key,
    at: usize,
    out: &mut [u8],
) -> Result<(), ShelfFailed>
    requires seat { IsIdleSeat cache.now seat.old }
    requires files { cache.now.base.files ≡ S.files shelf.old }
    requires file { key.layer < S.count shelf.old }
    requires some { 0 < length out.old }
    requires within { at + length out.old ≤ 65536 }
    requires range { 65536 * key.block + at + length out.old ≤ 2 ^ 50 }
    requires room { length block.old ≡ 65536 }
    ensures bytes { OnOk result (IfSome (S.files shelf.old) (λ files.
        IsPart (block_of files key) at (length out.old) out.new)) }
    ensures seat { IsIdleSeat cache.now seat.new }
    ensures notes { MatchResult result
        (λ _. ReadsPart cache.now seat.old seat.new key at (length out.old))
        (λ _. LosesPart cache.now seat.old seat.new key at (length out.old)) }
    ensures same { SameFiles S.files S.count shelf.old shelf.new }
    ensures cause { Charges S.faults shelf.old shelf.new (IsErr result) }
{
    match cache.look(rt, seat, key, at, out) {
        Ok(true) => Ok(()),
        Ok(false) => {
            let count = read_whole(shelf, key, at + out.len(), block)?;
            out.copy_from_slice(&block[at..at + out.len()]);
            let _ = cache.put(rt, seat, key, &block[..count]);
            Ok(())
        }
        Err(_) => shelf.read(key.layer, BLOCK as u64 * key.block + at as u64, out),
    }
}

// How many blocks a range touches.
fn touched_blocks(at: u64, count: usize) -> u64
    requires { at + count ≤ 2 ^ 50 }
    ensures { result ≡ touched at count }
{
    if count == 0 {
        return 0;
    }
    (at + count as u64 - 1) / BLOCK as u64 - at / BLOCK as u64 + 1
}

// Reads a range of a file, through the cache block by block.
fn read_blocks<S: Shelf, R: Wait>(
    rt: &R,
    cache: &SharedCache,
    seat: &mut CacheSeat,
    shelf: &mut S,
    block: &mut [u8],
    layer: u32,
    at: u64,
    out: &mut [u8],
) -> Result<(), ShelfFailed>
    requires seat { IsIdleSeat cache.now seat.old }
    requires files { cache.now.base.files ≡ S.files shelf.old }
    requires file { layer < S.count shelf.old }
    requires range { at + length out.old ≤ 2 ^ 50 }
    requires room { length block.old ≡ 65536 }
    ensures bytes { OnOk result (IfSome (S.files shelf.old) (λ files.
        out.new ≡ take (length out.old) (drop at (file_at files layer)))) }
    ensures within { OnOk result (IfSome (S.files shelf.old) (λ files.
        0 < length out.old → at + length out.old ≤ length (file_at files layer))) }
    ensures seat { IsIdleSeat cache.now seat.new }
    ensures notes { let end = at + length out.old in let touches = touched at (length out.old) in MatchResult result
        (λ _. ReadsBlocks cache.now layer at end touches seat.old seat.new)
        (λ _. LosesBlock cache.now layer at end touches seat.old seat.new) }
    ensures same { SameFiles S.files S.count shelf.old shelf.new }
    ensures cause { Charges S.faults shelf.old shelf.new (IsErr result) }
{
    let end = at + out.len() as u64;
    let first = at / BLOCK as u64;
    for number in 0..touched_blocks(at, out.len()) {
        let start = BLOCK as u64 * (first + number);
        let from = at.saturating_sub(start) as usize;
        let count = (end - start).min(BLOCK as u64) as usize - from;
        let done = start.saturating_sub(at) as usize;
        let key = Key {
            layer,
            block: first + number,
        };
        let (_, rest) = out.split_at_mut(done);
        let (piece, _) = rest.split_at_mut(count);
        match read_part(rt, cache, seat, shelf, block, key, from, piece) {
            Ok(()) => {}
            Err(fault) => return Err(fault),
        }
    }
    Ok(())
}
