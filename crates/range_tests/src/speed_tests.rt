//! How many pieces of 4 KiB threads take from a cache in a second, and how many from files.
ghost use Rattle.std.specs.Prelude.{◌≡◌, ◌<◌, None, false, length, IfOk};
ghost use Rattle.turn_lock.specs.Locks.{AreSeats};

use block_cache::{BLOCK, Cache, CacheSeat, Key, SharedCache};
use layer_shelf::{FolderShelf, PathList, PathText, Shelf};
use std::alloc::Global;
use std::marker::Brand;
use std::rt::Clock;
use std::sync::Wait;
use std::test::Fail;
use std::thread::Threads;
use std::time::Instant;
use std::{fs, thread};
use turn_lock::SeatList;

// The pieces that are taken in one run, by all threads together.
const PIECES: u64 = 200_000;

// A cache for so many seats, whose files are not told.
fn shared(alloc: Global, seats: u32) -> Result<(SharedCache, SeatList<Cache>), Fail>
    requires { 0 < seats }
    ensures files { IfOk result (λ made. made.0.base.files ≡ None) }
    ensures seats { IfOk result (λ made. (made.0.seats ≡ seats) × AreSeats made.0.id seats made.1) }
{
    let cache = Cache::new(alloc, 16)?;
    match SharedCache::start::<Brand>(alloc, cache, seats, 0) {
        Ok(made) => Ok(made),
        Err(_) => Err("memory")?,
    }
}

// A look for a piece of one of sixteen blocks, and a put after a miss.
fn hit<R: Wait>(rt: &R, cache: &SharedCache, seat: &mut CacheSeat, block: &[u8], number: u64)
    requires files { cache.now.base.files ≡ None }
    requires block { length block.now ≡ 65536 }
    requires seat { (seat.old.lock ≡ cache.now.id) × (seat.old.holds ≡ false) }
    ensures { (seat.new.lock ≡ seat.old.lock) × (seat.new.number ≡ seat.old.number) × (seat.new.holds ≡ false) }
{
    let key = Key {
        layer: 0,
        block: number % 16,
    };
    let mut out = [0; 4096];
    match cache.look(rt, seat, key, 8192, &mut out) {
        Ok(true) => {}
        _ => {
            let _ = cache.put(rt, seat, key, block);
        }
    }
}

// So many looks.
fn hit_all<R: Wait>(rt: &R, cache: &SharedCache, seat: &mut CacheSeat, block: &[u8], count: u64)
    requires files { cache.now.base.files ≡ None }
    requires block { length block.now ≡ 65536 }
    requires seat { (seat.old.lock ≡ cache.now.id) × (seat.old.holds ≡ false) }
    ensures { (seat.new.lock ≡ seat.old.lock) × (seat.new.number ≡ seat.old.number) × (seat.new.holds ≡ false) }
{
    for number in 0..count {
        hit(rt, cache, seat, block, number);
    }
}

// So many looks by each seat, in threads of their own.
fn hit_by_each<R: Threads + Wait + Sync>(
    rt: &R,
    cache: &SharedCache,
    seats: &mut [CacheSeat],
    block: &[u8],
    each: u64,
)
    requires files { cache.now.base.files ≡ None }
    requires block { length block.now ≡ 65536 }
    requires seats { AreSeats cache.now.id cache.now.seats seats.old }
{
    let threads = seats.len().max(1);
    thread::for_each_mut(
        rt,
        seats,
        threads,
        &|_, seat| { hit_all(rt, cache, seat, block, each) },
    );
}

// A read of a piece of the first file, where there is one.
fn read_one<S: Shelf>(shelf: &mut S, number: u64) {
    let mut out = [0; 4096];
    if shelf.count() > 0 {
        let _ = shelf.read(0, BLOCK as u64 * (number % 16) + 8192, &mut out);
    }
}

fn read_all<S: Shelf>(shelf: &mut S, count: u64) {
    for number in 0..count {
        read_one(shelf, number);
    }
}

// How many pieces a second that is, where all were taken since the start.
fn in_a_second<R: Clock>(rt: &R, start: Instant) -> Result<u64, Fail> {
    let micros = u64::try_from(start.elapsed(rt)?.as_micros()).unwrap_or(u64::MAX);
    Ok(PIECES * 1_000_000 / micros.max(1))
}

// The hits in a second of so many threads.
fn hits<R: Threads + Wait + Clock + Sync>(
    rt: &R,
    alloc: Global,
    threads: u32,
    block: &[u8],
) -> Result<u64, Fail>
    requires { length block.now ≡ 65536 }
{
    let threads = threads.max(1);
    let (cache, seats) = shared(alloc, threads)?;
    let mut seats = seats.into_vec();
    let start = Instant::now(rt)?;
    hit_by_each(
        rt,
        &cache,
        seats.as_mut_slice(),
        block,
        PIECES / u64::from(threads),
    );
    in_a_second(rt, start)
}

// A shelf for each thread, of the one file at that path.
fn shelves_of(
    rt: HostRuntime,
    alloc: Global,
    threads: u32,
    path: &str,
) -> Result<Vec<FolderShelf<HostRuntime>>, Fail> {
    let mut shelves = Vec::new(alloc);
    for _ in 0..threads {
        let mut paths = Vec::new(alloc);
        paths.push(PathText::from_vec(path.as_bytes().to_vec(alloc)?))?;
        shelves.push(FolderShelf::new(rt, PathList::from_vec(paths)))?;
    }
    Ok(shelves)
}

// The reads in a second of as many threads as there are shelves.
fn reads<R: Threads + Clock + Sync, S: Shelf + Send>(
    rt: &R,
    shelves: &mut [S],
) -> Result<u64, Fail> {
    let threads = shelves.len().max(1);
    let each = PIECES / threads as u64;
    let start = Instant::now(rt)?;
    thread::for_each_mut(rt, shelves, threads, &|_, shelf| read_all(shelf, each));
    in_a_second(rt, start)
}

#[test]
fn hits_beside_reads_of_files(rt: HostRuntime) -> Result<(), Fail> {
    let path = format!(in rt.alloc(); "/tmp/cached-{}", std::process::id(rt.process()))?;
    let block = vec![in rt.alloc(); 7; BLOCK]?;
    let file = vec![in rt.alloc(); 7; 16 * BLOCK]?;
    fs::write(&rt, path.as_str(), file.as_slice())?;
    for threads in [1, 2, 4] {
        let hits = hits(&rt, rt.alloc(), threads, block.as_slice())?;
        let mut shelves = shelves_of(rt, rt.alloc(), threads, path.as_str())?;
        let reads = reads(&rt, shelves.as_mut_slice())?;
        println!(rt; "{threads} threads: {hits} hits and {reads} reads a second")?;
    }
    fs::remove_file(&rt, path.as_str())?;
    Ok(())
}
