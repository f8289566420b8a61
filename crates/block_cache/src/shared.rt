//! The cache behind the turn lock: each call is one turn, and one act of the one history.
ghost use Rattle.std.specs.Prelude.{◌≡◌, ◌+◌, ◌^◌, ◌<◌, ◌≤◌, ◌++◌, ◌∷◌, [], true, false, All, length, IsErr, IfOk, IfErr, OnOk, OnErr, IsErrOf};
ghost use Rattle.std.specs.Result.{IsOkAnd};
ghost use Rattle.std.specs.Option.{ForSome};
ghost use Rattle.flat_image.specs.Entries.{entry};
ghost use Rattle.turn_lock.specs.Locks.{place, AreSeats};
ghost use Rattle.block_cache.specs.declared.history.CacheAct.TheVariants.{Look, Put, Skip};
ghost use Rattle.block_cache.specs.Blocks.{block_of, put_in};
ghost use Rattle.block_cache.specs.CacheHistory.{StandsFor};
ghost use Rattle.block_cache.specs.CacheTurns.{IsIdleSeat, IsWornOut, Noted, Looked, PutFails};

use crate::cache::{Cache, copy_of};
use crate::history::{CacheAct, CacheBase};
use crate::key::Key;
use flat_image::Named;
use sector_extent::{Bytes, Memory};
use std::alloc::Global;
use std::marker::{Brand, Model};
use std::sync::Wait;
use turn_lock::{Held, Seat, SeatList, Turn, Worn};

/// A seat of a shared cache, with which one thread uses it.
pub type CacheSeat = Seat<Cache>;

/// Why a block was not put in.
#[derive(Clone, Copy, Debug, PartialEq, Eq)]
pub enum PutFault {
    /// The history has as many entries as it may have.
    Worn,
    Memory,
}

/// A cache that threads share. It has one history of looks and puts, and a fixed number of seats.
#[derive(Drop)]
pub struct SharedCache {
    alloc: Global,
    turn: Turn<Cache>,
}

impl Model for SharedCache {
    ghost use Rattle.turn_lock.specs.Locks.{Lock};
    ghost use Rattle.block_cache.specs.declared.history.CacheBase.{CacheBase};

    ghost Value = { Lock CacheBase };

    ghost view = { λ s. s.turn };
}

impl SharedCache {
    /// Shares an empty cache between so many seats. The first entry will have the number `first`.
    pub fn start<N: Named<CacheBase>>(
        alloc: Global,
        cache: Cache,
        seats: u32,
        first: u64,
    ) -> Result<(SharedCache, SeatList<Cache>), (Cache, Memory)>
        requires seats { 0 < seats }
        requires first { first ≤ 2 ^ 62 }
        requires stands { StandsFor cache N.it [] }
        ensures cache { IfOk result (λ made. (made.0.base ≡ N.it) × (made.0.first ≡ first) × (made.0.seats ≡ seats)) }
        ensures seats { IfOk result (λ made. AreSeats made.0.id seats made.1 × All (λ s. s.seen ≡ []) made.1) }
        ensures err { IfErr result (λ back. back.0 ≡ cache) }
    {
        match Turn::start::<N>(alloc, cache, seats, first) {
            Ok((turn, list)) => Ok((SharedCache { alloc, turn }, list)),
            Err(back) => Err(back),
        }
    }

    /// Copies a range of the key's block, from byte `at` on, if it is in. The key then comes first.
    pub fn look<R: Wait>(
        &self,
        rt: &R,
        seat: &mut CacheSeat,
        key: Key,
        at: usize,
        out: &mut [u8],
    ) -> Result<bool, Worn>
        requires seat { IsIdleSeat self.now seat.old }
        requires range { at + length out.old ≤ 65536 }
        ensures ok { IfOk result (λ found. Looked self.now seat.old seat.new key at (length out.old) found out.new) }
        ensures worn { IfErr result (λ _. IsWornOut self.now seat.old seat.new × (out.new ≡ out.old)) }
        ensures wears { self.now.first + length seat.old.seen ≡ 2 ^ 62 → IsErr result }
    {
        let mut held = match self.turn.hold(rt, seat) {
            Ok(held) => held,
            Err(worn) => return Err(worn),
        };
        let found = held.value.look(key, at, out);
        note_look(&self.turn, seat, held, key);
        Ok(found)
    }

    /// Keeps a copy of the bytes as the key's block, which then comes first. The copy is made before
    /// the turn.
    pub fn put<R: Wait>(
        &self,
        rt: &R,
        seat: &mut CacheSeat,
        key: Key,
        bytes: &[u8],
    ) -> Result<(), PutFault>
        requires seat { IsIdleSeat self.now seat.old }
        requires some { 0 < length bytes.now }
        requires few { length bytes.now ≤ 65536 }
        requires file { ForSome self.now.base.files (λ files. bytes.now ≡ block_of files key) }
        ensures ok { OnOk result (Noted seat.old seat.new (Put key)) }
        ensures err { IfErr result (PutFails self.now seat.old seat.new key) }
        ensures wears { self.now.first + length seat.old.seen ≡ 2 ^ 62 → IsErrOf result PutFault.Worn }
    {
        let block = copy_of(self.alloc, bytes);
        let mut held = match self.turn.hold(rt, seat) {
            Ok(held) => held,
            Err(_) => return Err(PutFault::Worn),
        };
        match take_in(&mut held.value, key, block) {
            Ok(_gone) => {
                note_put(&self.turn, seat, held, key);
                Ok(())
            }
            Err(_) => {
                note_skip(&self.turn, seat, held, key);
                Err(PutFault::Memory)
            }
        }
    }
}

// Takes the copy in, where there is one, and gives back the block whose place it takes.
fn take_in(
    cache: &mut Cache,
    key: Key,
    copy: Result<Bytes, Memory>,
) -> Result<Option<(Key, Bytes)>, Memory>
    ensures ok { OnOk result (IsOkAnd copy (λ block. cache.new ≡ put_in cache.old key block)) }
    ensures err { OnErr result (cache.new ≡ cache.old) }
{
    cache.keep(key, copy?)
}

// Ends the turn with an act of the key.
fn note_as<N: Named<CacheAct>>(
    turn: &Turn<Cache>,
    seat: &mut CacheSeat,
    held: Held<Cache>,
    key: Key,
)
    requires turn { (seat.old.lock ≡ turn.now.id) × (seat.old.holds ≡ true) }
    requires stands { StandsFor held.value turn.now.base (seat.old.seen ++ entry seat.old.number N.it ∷ []) }
    ensures { seat.new ≡ place seat.old.lock seat.old.number (seat.old.seen ++ entry seat.old.number N.it ∷ []) false }
{
    let _ = key;
    turn.note::<N>(seat, held);
}

fn note_look(turn: &Turn<Cache>, seat: &mut CacheSeat, held: Held<Cache>, key: Key)
    requires turn { (seat.old.lock ≡ turn.now.id) × (seat.old.holds ≡ true) }
    requires stands { StandsFor held.value turn.now.base (seat.old.seen ++ entry seat.old.number (Look key) ∷ []) }
    ensures { let history = seat.old.seen ++ entry seat.old.number (Look key) ∷ [] in
        seat.new ≡ place seat.old.lock seat.old.number history false }
{
    note_as::<Brand>(turn, seat, held, key);
}

fn note_put(turn: &Turn<Cache>, seat: &mut CacheSeat, held: Held<Cache>, key: Key)
    requires turn { (seat.old.lock ≡ turn.now.id) × (seat.old.holds ≡ true) }
    requires stands { StandsFor held.value turn.now.base (seat.old.seen ++ entry seat.old.number (Put key) ∷ []) }
    ensures { let history = seat.old.seen ++ entry seat.old.number (Put key) ∷ [] in
        seat.new ≡ place seat.old.lock seat.old.number history false }
{
    note_as::<Brand>(turn, seat, held, key);
}

fn note_skip(turn: &Turn<Cache>, seat: &mut CacheSeat, held: Held<Cache>, key: Key)
    requires turn { (seat.old.lock ≡ turn.now.id) × (seat.old.holds ≡ true) }
    requires stands { StandsFor held.value turn.now.base (seat.old.seen ++ entry seat.old.number (Skip key) ∷ []) }
    ensures { let history = seat.old.seen ++ entry seat.old.number (Skip key) ∷ [] in
        seat.new ≡ place seat.old.lock seat.old.number history false }
{
    note_as::<Brand>(turn, seat, held, key);
}
