//! The cache beside a plain list of keys, and its turns.
ghost use Rattle.std.specs.Prelude.{◌≡◌, ◌+◌, ◌^◌, ◌<◌, ◌≤◌, None, length, IfOk};
ghost use Rattle.turn_lock.specs.Locks.{AreSeats};
ghost use Rattle.block_cache.specs.CacheTurns.{IsIdleSeat};

use crate::expecting::{holds, holds_at};
use block_cache::*;
use std::alloc::Global;
use std::marker::Brand;
use std::process::Abort;
use std::sync::Wait;
use std::test::Fail;
use turn_lock::{SeatList, Worn};

fn key_of(number: u64) -> Key {
    Key {
        layer: (number % 3) as u32,
        block: number / 3,
    }
}

// The place of a key in a list, its length where it is not in.
fn place_of(list: &[Key], key: Key) -> usize
    ensures { result ≤ length list.now }
{
    let mut at = 0;
    while at < list.len() && list[at] != key {
        at += 1;
    }
    at
}

// The key comes first in a list of so many.
fn bring(list: &mut Vec<Key>, key: Key, capacity: usize) -> Result<(), Fail> {
    let at = place_of(list.as_slice(), key);
    if at < list.len() {
        list.remove(at);
    }
    if list.len() < 1000 {
        list.insert(0, key)?;
    }
    list.truncate(capacity);
    Ok(())
}

// Looks a key up in the cache, and in the list. Whether both find the same.
fn look(cache: &mut Cache, list: &mut Vec<Key>, number: u64) -> Result<bool, Fail> {
    let key = key_of(number);
    let mut out = [0xFF];
    let is_found = cache.look(key, 1, &mut out);
    if place_of(list.as_slice(), key) == list.len() {
        return Ok(!is_found && out == [0xFF]);
    }
    bring(list, key, 7)?;
    Ok(is_found && u64::from(out[0]) == number)
}

fn put(cache: &mut Cache, list: &mut Vec<Key>, number: u8) -> Result<(), Fail> {
    let key = key_of(u64::from(number));
    cache.put(key, &[0xEE, number])?;
    bring(list, key, 7)
}

#[test]
fn a_cache_agrees_with_a_plain_list(rt: HostRuntime) -> Result<(), Fail> {
    let mut cache = Cache::new(rt.alloc(), 7)?;
    let mut list = Vec::new(rt.alloc());
    let mut state: u64 = 1;
    for at in 0..10_000 {
        state = state
            .wrapping_mul(6_364_136_223_846_793_005)
            .wrapping_add(1);
        let number = (state >> 40) % 20;
        if (state >> 33) % 2 == 0 {
            holds_at(&rt, look(&mut cache, &mut list, number)?, "look", at);
        } else {
            put(&mut cache, &mut list, number as u8)?;
        }
    }
    Ok(())
}

// What is found of a key from a place in its block on, and the bytes, over zeros.
fn looked(cache: &mut Cache, number: u64, from: u8) -> (bool, [u8; 2]) {
    let mut out = [0; 2];
    let is_found = cache.look(key_of(number), usize::from(from), &mut out);
    (is_found, out)
}

#[test]
fn a_block_without_the_range_is_not_found_and_comes_first(rt: HostRuntime) -> Result<(), Fail> {
    let mut cache = Cache::new(rt.alloc(), 2)?;
    cache.put(key_of(0), &[1, 2])?;
    cache.put(key_of(1), &[3, 4])?;
    let lacking = looked(&mut cache, 0, 1);
    cache.put(key_of(2), &[5, 6])?;
    let first = looked(&mut cache, 0, 0);
    let second = looked(&mut cache, 1, 0);
    holds(&rt, lacking == (false, [0, 0]), "a part that is not there");
    holds(&rt, first == (true, [1, 2]), "the block that came first");
    holds(&rt, second == (false, [0, 0]), "the block that went");
    Ok(())
}

// A shared cache for so many blocks, with so many seats.
fn started(
    alloc: Global,
    capacity: u32,
    seats: u32,
    first: u64,
) -> Result<(SharedCache, SeatList<Cache>), Fail>
    requires capacity { (0 < capacity) × (capacity ≤ 16384) }
    requires seats { 0 < seats }
    requires first { first ≤ 2 ^ 62 }
    ensures base { IfOk result (λ made. made.0.base.files ≡ None) }
    ensures seats { IfOk result (λ made. (made.0.seats ≡ seats) × AreSeats made.0.id seats made.1) }
{
    let cache = Cache::new(alloc, capacity)?;
    match SharedCache::start::<Brand>(alloc, cache, seats, first) {
        Ok(made) => Ok(made),
        Err(_) => Err("memory")?,
    }
}

// One seat puts two blocks in, and the other looks them up.
fn put_and_look<R: Wait>(
    rt: &R,
    cache: &SharedCache,
    mut from: CacheSeat,
    mut to: CacheSeat,
) -> Result<([Result<bool, Worn>; 2], [u8; 1]), Fail>
    requires files { cache.now.base.files ≡ None }
    requires from { IsIdleSeat cache.now from }
    requires to { IsIdleSeat cache.now to }
{
    let mut out = [0];
    let _ = cache.put(rt, &mut from, key_of(0), &[7, 8]);
    let _ = cache.put(rt, &mut from, key_of(1), &[9]);
    let first = cache.look(rt, &mut to, key_of(0), 1, &mut out);
    let second = cache.look(rt, &mut to, key_of(2), 0, &mut out);
    Ok(([first, second], out))
}

#[test]
fn seats_share_a_cache(rt: HostRuntime) -> Result<(), Fail> {
    let (cache, seats) = started(rt.alloc(), 2, 2, 0)?;
    let mut seats = seats.into_vec();
    let Some(to) = seats.pop() else {
        return Err("a seat")?;
    };
    let Some(from) = seats.pop() else {
        return Err("a seat")?;
    };
    let found = put_and_look(&rt, &cache, from, to)?;
    holds(&rt, found == ([Ok(true), Ok(false)], [8]), "two looks");
    Ok(())
}

// A put and a look by one seat.
fn put_then_look<R: Wait>(
    rt: &R,
    cache: &SharedCache,
    mut seat: CacheSeat,
) -> (
    Result<(), PutFault>,
    Result<bool, Worn>,
    Result<(), PutFault>,
)
    requires files { cache.now.base.files ≡ None }
    requires seat { IsIdleSeat cache.now seat }
{
    let mut out = [0];
    let first = cache.put(rt, &mut seat, key_of(0), &[7]);
    let second = cache.look(rt, &mut seat, key_of(0), 0, &mut out);
    (first, second, cache.put(rt, &mut seat, key_of(0), &[8]))
}

#[test]
fn a_shared_cache_wears_out(rt: HostRuntime) -> Result<(), Fail> {
    let (cache, seats) = started(rt.alloc(), 1, 1, 4_611_686_018_427_387_903)?;
    let Some(seat) = seats.into_vec().pop() else {
        return Err("a seat")?;
    };
    let answers = put_then_look(&rt, &cache, seat);
    let worn = (Ok(()), Err(Worn), Err(PutFault::Worn));
    holds(&rt, answers == worn, "three turns");
    Ok(())
}
